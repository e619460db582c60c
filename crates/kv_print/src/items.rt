// Items.
#![tactic(auto, using(crate::proofs::Spelling::spell_append))]

ghost use Rattle.std.specs.Prelude.{◌≡◌, ◌++◌, true, OnOk};
ghost use Rattle.std.specs.Option.{option_map};
ghost use Rattle.kv_syn.specs.ProjectBridge.{plain_item};
ghost use Rattle.kv_raw.specs.RawBridge.{raw_prog};
ghost use Rattle.kv_syn.specs.Readable.{is_readable_item};
ghost use Rattle.kv_print.specs.Items.{arguments_pieces, body_pieces, parameters_pieces, ref_vars_pieces, sorts_pieces, vars_pieces};
ghost use Rattle.kv_print.specs.Layout.{item_pieces};
ghost use Rattle.kv_print.specs.Pieces.{spell};

use crate::forms::{push_block, push_names, push_var};
use kv_syn::{Bytes, Item, Name, NoMemory, RawProg, Var};

/// An item, on a line after two spaces.
pub fn push_item(text: &mut Bytes, item: &Item) -> Result<(), NoMemory>
    requires { is_readable_item item.now ≡ true }
    ensures { OnOk result (text.new ≡ text.old ++ spell (item_pieces (plain_item item.now))) }
{
    match item {
        Item::Sort(name) => {
            text.append(b"  sort ")?;
            text.append(name.bytes())?;
            text.append(b";\n")
        }
        Item::Fun { name, args, result } => {
            text.append(b"  fun ")?;
            text.append(name.bytes())?;
            text.append(b" : ")?;
            push_arguments(text, args.items())?;
            text.append(result.bytes())?;
            text.append(b";\n")
        }
        Item::Pred { name, args } => {
            text.append(b"  pred ")?;
            text.append(name.bytes())?;
            push_sorts(text, args.items())?;
            text.append(b";\n")
        }
        Item::Proc {
            name,
            values,
            refs,
            body,
        } => {
            text.append(b"  proc ")?;
            text.append(name.bytes())?;
            push_parameters(text, values.items(), refs.items())?;
            push_body(text, body)?;
            text.append(b";\n")
        }
        _ => unreachable!(),
    }
}

/// The sorts of a function's arguments and their arrow, where there are any.
fn push_arguments(text: &mut Bytes, args: &[Name]) -> Result<(), NoMemory>
    ensures { OnOk result (text.new ≡ text.old ++ spell (arguments_pieces args.now)) }
{
    if args.is_empty() {
        return Ok(());
    }
    push_names(text, args)?;
    text.append(b" -> ")
}

/// The sorts of a predicate's arguments behind a colon, where there are any.
fn push_sorts(text: &mut Bytes, args: &[Name]) -> Result<(), NoMemory>
    ensures { OnOk result (text.new ≡ text.old ++ spell (sorts_pieces args.now)) }
{
    if args.is_empty() {
        return Ok(());
    }
    text.append(b" : ")?;
    push_names(text, args)
}

/// A procedure's parameters, as the arguments of a call.
fn push_parameters(text: &mut Bytes, values: &[Var], refs: &[Var]) -> Result<(), NoMemory>
    ensures { OnOk result (text.new ≡ text.old ++ spell (parameters_pieces values.now refs.now)) }
{
    text.append(b"(")?;
    push_vars(text, values)?;
    text.append(b";")?;
    push_ref_vars(text, refs)?;
    text.append(b")")
}

/// Variables with commas between.
fn push_vars(text: &mut Bytes, vars: &[Var]) -> Result<(), NoMemory>
    ensures { OnOk result (text.new ≡ text.old ++ spell (vars_pieces vars.now)) }
{
    let Some((first, others)) = vars.split_first() else {
        return Ok(());
    };
    push_var(text, first)?;
    for var in others {
        text.append(b", ")?;
        push_var(text, var)?;
    }
    Ok(())
}

/// The references of a procedure, behind a space where there are any.
fn push_ref_vars(text: &mut Bytes, refs: &[Var]) -> Result<(), NoMemory>
    ensures { OnOk result (text.new ≡ text.old ++ spell (ref_vars_pieces refs.now)) }
{
    if refs.is_empty() {
        return Ok(());
    }
    text.append(b" ")?;
    push_vars(text, refs)
}

/// A procedure's body, where it has one.
fn push_body(text: &mut Bytes, body: &Option<RawProg>) -> Result<(), NoMemory>
    ensures { OnOk result (text.new ≡ text.old ++ spell (body_pieces (option_map raw_prog body.now))) }
{
    match body {
        Some(prog) => {
            text.append(b" = ")?;
            push_block(text, prog)
        }
        None => Ok(()),
    }
}
