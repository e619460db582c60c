// The tables of words: each row by its name in the product's code, its word, and where the word is found.

use crate::faults::Fault;
use kv_syn::Bytes;
use kv_table::{Names, commands, keywords, reasons, rules, states};
use std::alloc::Global;

/// The rows of these names in a table.
macro_rules! rows {
    ($table:ident; $($name:ident)*) => {
        [$((stringify!($name), kv_table::$table::$name)),*]
    };
}

/// `NAME`: the rows of that table.
pub fn table_answer(alloc: Global, name: &str) -> Result<Bytes, Fault> {
    match name {
        "keywords" => rows_text(
            alloc,
            &keywords(),
            &rows!(keyword; PROJECT UNIT BASIC ENRICH UNION RENAME PARAM USING ACTUALIZE MODULE EXPORT IMPORT BY WITH END SORT DATA FUN PRED PROC GENERATED AXIOM THEOREM PROOF QED SIMP RESTRICT EQUATING MEASURE BELOW FROM TRUE FALSE NOT AND OR ALL EX SKIP ABORT IF THEN ELSE WHILE DO VAR IN OPEN AS),
        ),
        "rules" => rows_text(
            alloc,
            &rules(),
            &rows!(rule; CLOSE FALSE_L TRUE_R NOT_L NOT_R AND_L OR_R AND_R OR_L IMP_L IMP_R IFF_L IFF_R DROP_L DROP_R CUT ALL_R EX_L ALL_L EX_R REFL SWAP SUBST USE INDUCT SKIP ABORT ASSIGN SEQ COND LOCAL UNWIND CALL INV REC DUAL MONO SIMP),
        ),
        "commands" => rows_text(
            alloc,
            &commands(),
            &rows!(command; ADD PUT DROP THEOREM CHANGE FORGET PROOF UNPROOF PRUNE STATUS STATE GOALS NEEDS ABOVE GRAPH FLAT OBLIGATIONS TEXT SEAL SAVE),
        ),
        "states" => rows_text(
            alloc,
            &states(),
            &rows!(state; ILL BROKEN OPEN PROVED WAITING CYCLIC IDLE OK BAD REFINED UNREFINED),
        ),
        "reasons" => rows_text(
            alloc,
            &reasons(),
            &rows!(reason; CYCLE MISSING KIND BELOW CLASH UNKNOWN ARITY SORT DUPLICATE PROGRAM CONSTRUCTOR PARTIAL PROFILE INJECTIVE LOST BODIES EXPORT ABSENT REACH LIMIT UNIT POSITION SHAPE FRESH CAPTURED LABEL BODY GENERATION LARGE SURPLUS),
        ),
        _ => Err(Fault::Unread),
    }
}

fn rows_text<const N: usize>(
    alloc: Global,
    table: &Names<N>,
    rows: &[(&str, u32)],
) -> Result<Bytes, Fault> {
    let mut text = Bytes::new(alloc);
    for (name, row) in rows {
        let line = row_text(alloc, table, name, *row as usize)?;
        text.append(line.as_bytes())?;
    }
    Ok(text)
}

/// The name of a row, the row, its word, and the row where the word is found.
fn row_text<const N: usize>(
    alloc: Global,
    table: &Names<N>,
    name: &str,
    row: usize,
) -> Result<String, Fault> {
    if row >= N {
        return Err(Fault::Unread);
    }
    let word = table.name(row);
    Ok(match table.find(word) {
        Some(found) => format!(in alloc; "{name} {row} {word} {found}\n")?,
        None => format!(in alloc; "{name} {row} {word} nowhere\n")?,
    })
}

/// `NAME WORD`: the row of the word in that table.
pub fn find_answer(alloc: Global, text: &str) -> Result<Bytes, Fault> {
    let (name, word) = text.split_once(' ').ok_or(Fault::Unread)?;
    let found = match name {
        "keywords" => keywords().find(word),
        "rules" => rules().find(word),
        "commands" => commands().find(word),
        "states" => states().find(word),
        "reasons" => reasons().find(word),
        _ => return Err(Fault::Unread),
    };
    let line = match found {
        Some(row) => format!(in alloc; "{row}")?,
        None => String::from_str(alloc, "none")?,
    };
    Ok(Bytes::from_bytes(alloc, line.as_bytes())?)
}
