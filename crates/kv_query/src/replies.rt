// Replies.

ghost use Rattle.std.specs.Prelude.{◌≡◌, ◌++◌, true, flat_map, IfOk, OnOk};
ghost use Rattle.std.specs.List.{list_all};
ghost use Rattle.kv_punit.specs.declared.commands.Command.{Command as Asked};
ghost use Rattle.kv_query.specs.Replies.{front, past, row_line, status_lines, status_text};
ghost use Rattle.kv_syn.specs.Rows.{has_row_rows, has_table_rows};

use crate::lines::{push_row, push_unit};
use kv_flat::Checked;
use kv_punit::Command;
use kv_syn::{Bytes, Name, NoMemory, Project, Row, Steps, Table};
use std::alloc::Global;
use std::sync::ledger::Ledger;

/// The answer to a query, with its end line `.`, for a project and what a check of it gave. So far `status` is the
/// only query.
pub fn reply<L: Ledger>(
    alloc: Global,
    project: &Project,
    checked: &Checked,
    command: &Command,
    steps: &mut Steps<L>,
) -> Result<Bytes, NoMemory>
    requires query { command.now ≡ Asked.Status }
    requires rows { has_table_rows checked.now.table ≡ true }
    ensures text { IfOk result (λ text. text ≡ status_text checked.now.table) }
    ensures steps { steps.new ≡ steps.old }
{
    let mut text = Bytes::new(alloc);
    match command {
        Command::Status => push_status(alloc, &mut text, &checked.table)?,
        _ => unreachable!(),
    }
    text.append(b".\n")?;
    Ok(text)
}

/// Per unit its line, then its rows.
fn push_status(alloc: Global, text: &mut Bytes, table: &Table) -> Result<(), NoMemory>
    requires { has_table_rows table.now ≡ true }
    ensures { OnOk result (text.new ≡ text.old ++ status_lines table.now.units table.now.rows) }
{
    let mut rows = table.rows.items();
    for (name, state) in table.units.items() {
        push_unit(alloc, text, name, state)?;
        rows = push_rows(alloc, text, name, rows)?;
    }
    Ok(())
}

/// The rows of a unit at the front, and lends the others.
fn push_rows<'a>(
    alloc: Global,
    text: &mut Bytes,
    unit: &Name,
    rows: &'a [Row],
) -> Result<&'a [Row], NoMemory>
    requires { list_all has_row_rows rows.now ≡ true }
    ensures fit { IfOk result (λ others. list_all has_row_rows others.now ≡ true) }
    ensures others { IfOk result (λ others. others.now ≡ past unit.now rows.now) }
    ensures text { OnOk result (text.new ≡ text.old ++ flat_map row_line (front unit.now rows.now)) }
{
    let mut rest = rows;
    while let Some((row, others)) = rest.split_first() {
        if row.unit.bytes() != unit.bytes() {
            return Ok(rest);
        }
        push_row(alloc, text, row)?;
        rest = others;
    }
    Ok(rest)
}
