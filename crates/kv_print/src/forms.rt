// Terms, formulas and programs, as texts spell them.
#![tactic(auto, using(crate::proofs::Spelling::spell_append))]

ghost use Rattle.std.specs.Prelude.{◌≡◌, ◌++◌, OnOk};
ghost use Rattle.kv_raw.specs.RawBridge.{raw_form, raw_prog, raw_term, raw_terms};
ghost use Rattle.kv_print.specs.Forms.{block, first_part, form_pieces, in_brackets, names_pieces, operand, printed_form, printed_prog, refs_pieces, term_pieces, terms_pieces, var_pieces};
ghost use Rattle.kv_print.specs.Pieces.{spell};

use kv_syn::{Bytes, Name, NoMemory, RawForm, RawProg, RawTerm, Var};

/// Names with commas between.
pub fn push_names(text: &mut Bytes, names: &[Name]) -> Result<(), NoMemory>
    ensures { OnOk result (text.new ≡ text.old ++ spell (names_pieces names.now)) }
{
    let Some((first, others)) = names.split_first() else {
        return Ok(());
    };
    text.append(first.bytes())?;
    for name in others {
        text.append(b", ")?;
        text.append(name.bytes())?;
    }
    Ok(())
}

/// A variable with its sort.
pub fn push_var(text: &mut Bytes, var: &Var) -> Result<(), NoMemory>
    ensures { OnOk result (text.new ≡ text.old ++ spell (var_pieces var.now)) }
{
    text.append(var.name.bytes())?;
    text.append(b" : ")?;
    text.append(var.sort.bytes())
}

/// The references of a call, behind a space where there are any.
fn push_refs(text: &mut Bytes, refs: &[Name]) -> Result<(), NoMemory>
    ensures { OnOk result (text.new ≡ text.old ++ spell (refs_pieces refs.now)) }
{
    if refs.is_empty() {
        return Ok(());
    }
    text.append(b" ")?;
    push_names(text, refs)
}

/// A term.
#[cycle(terms)]
pub fn push_term(text: &mut Bytes, term: &RawTerm) -> Result<(), NoMemory>
    ensures { OnOk result (text.new ≡ text.old ++ spell (term_pieces (raw_term term.now))) }
{
    let RawTerm::App(name, args) = term;
    text.append(name.bytes())?;
    push_arguments(text, args.items())
}

/// Terms in brackets, where there are any.
#[cycle(terms)]
fn push_arguments(text: &mut Bytes, args: &[RawTerm]) -> Result<(), NoMemory>
    ensures { OnOk result (text.new ≡ text.old ++ spell (in_brackets (raw_terms args.now) (terms_pieces (raw_terms args.now)))) }
{
    if args.is_empty() {
        return Ok(());
    }
    text.append(b"(")?;
    push_terms(text, args)?;
    text.append(b")")
}

/// Terms with commas between.
#[cycle(terms)]
fn push_terms(text: &mut Bytes, terms: &[RawTerm]) -> Result<(), NoMemory>
    ensures { OnOk result (text.new ≡ text.old ++ spell (terms_pieces (raw_terms terms.now))) }
{
    let Some((first, others)) = terms.split_first() else {
        return Ok(());
    };
    push_term(text, first)?;
    for term in others {
        text.append(b", ")?;
        push_term(text, term)?;
    }
    Ok(())
}

fn is_binary(form: &RawForm) -> bool
    ensures { result ≡ (printed_form (raw_form form.now)).joined }
{
    matches!(
        form,
        RawForm::And(..) | RawForm::Or(..) | RawForm::Imp(..) | RawForm::Iff(..)
    )
}

fn is_sequence(prog: &RawProg) -> bool
    ensures { result ≡ (printed_prog (raw_prog prog.now)).joined }
{
    matches!(prog, RawProg::Seq(..))
}

/// An operand, or the body of a unary formula.
#[cycle(forms)]
fn push_operand(text: &mut Bytes, form: &RawForm) -> Result<(), NoMemory>
    ensures { OnOk result (text.new ≡ text.old ++ spell (operand (printed_form (raw_form form.now)))) }
{
    if !is_binary(form) {
        return push_form(text, form);
    }
    text.append(b"(")?;
    push_form(text, form)?;
    text.append(b")")
}

/// A formula.
#[cycle(forms)]
pub fn push_form(text: &mut Bytes, form: &RawForm) -> Result<(), NoMemory>
    ensures { OnOk result (text.new ≡ text.old ++ spell (form_pieces (raw_form form.now))) }
{
    match form {
        RawForm::True => text.append(b"true"),
        RawForm::False => text.append(b"false"),
        RawForm::Atom(name, args) => {
            text.append(name.bytes())?;
            push_arguments(text, args.items())
        }
        RawForm::Equal(left, right) => {
            push_term(text, left)?;
            text.append(b" = ")?;
            push_term(text, right)
        }
        RawForm::Not(body) => {
            text.append(b"not ")?;
            push_operand(text, body.get())
        }
        RawForm::And(left, right) => {
            push_operand(text, left.get())?;
            text.append(b" and ")?;
            push_operand(text, right.get())
        }
        RawForm::Or(left, right) => {
            push_operand(text, left.get())?;
            text.append(b" or ")?;
            push_operand(text, right.get())
        }
        RawForm::Imp(premise, conclusion) => {
            push_operand(text, premise.get())?;
            text.append(b" -> ")?;
            push_operand(text, conclusion.get())
        }
        RawForm::Iff(left, right) => {
            push_operand(text, left.get())?;
            text.append(b" <-> ")?;
            push_operand(text, right.get())
        }
        RawForm::All(var, body) => {
            text.append(b"all ")?;
            push_var(text, var)?;
            text.append(b" . ")?;
            push_operand(text, body.get())
        }
        RawForm::Ex(var, body) => {
            text.append(b"ex ")?;
            push_var(text, var)?;
            text.append(b" . ")?;
            push_operand(text, body.get())
        }
        RawForm::After(prog, body) => {
            text.append(b"[")?;
            push_prog(text, prog.get())?;
            text.append(b"] ")?;
            push_operand(text, body.get())
        }
        RawForm::Can(prog, body) => {
            text.append(b"<")?;
            push_prog(text, prog.get())?;
            text.append(b"> ")?;
            push_operand(text, body.get())
        }
    }
}

/// A program in braces.
#[cycle(forms)]
pub fn push_block(text: &mut Bytes, prog: &RawProg) -> Result<(), NoMemory>
    ensures { OnOk result (text.new ≡ text.old ++ spell (block (printed_prog (raw_prog prog.now)))) }
{
    text.append(b"{ ")?;
    push_prog(text, prog)?;
    text.append(b" }")
}

/// The first part of a sequence.
#[cycle(forms)]
fn push_first(text: &mut Bytes, prog: &RawProg) -> Result<(), NoMemory>
    ensures { OnOk result (text.new ≡ text.old ++ spell (first_part (printed_prog (raw_prog prog.now)))) }
{
    if is_sequence(prog) {
        push_block(text, prog)
    } else {
        push_prog(text, prog)
    }
}

/// A program.
#[cycle(forms)]
pub fn push_prog(text: &mut Bytes, prog: &RawProg) -> Result<(), NoMemory>
    ensures { OnOk result (text.new ≡ text.old ++ spell (printed_prog (raw_prog prog.now)).pieces) }
{
    match prog {
        RawProg::Skip => text.append(b"skip"),
        RawProg::Abort => text.append(b"abort"),
        RawProg::Assign(name, term) => {
            text.append(name.bytes())?;
            text.append(b" := ")?;
            push_term(text, term)
        }
        RawProg::Seq(first, second) => {
            push_first(text, first.get())?;
            text.append(b"; ")?;
            push_prog(text, second.get())
        }
        RawProg::If(test, then, other) => {
            text.append(b"if ")?;
            push_form(text, test.get())?;
            text.append(b" then ")?;
            push_block(text, then.get())?;
            text.append(b" else ")?;
            push_block(text, other.get())
        }
        RawProg::While(test, body) => {
            text.append(b"while ")?;
            push_form(text, test.get())?;
            text.append(b" do ")?;
            push_block(text, body.get())
        }
        RawProg::Local(var, term, body) => {
            text.append(b"var ")?;
            push_var(text, var)?;
            text.append(b" := ")?;
            push_term(text, term)?;
            text.append(b" in ")?;
            push_block(text, body.get())
        }
        RawProg::Call(name, values, refs) => {
            text.append(name.bytes())?;
            text.append(b"(")?;
            push_terms(text, values.items())?;
            text.append(b";")?;
            push_refs(text, refs.items())?;
            text.append(b")")
        }
        RawProg::Choice(first, second) => {
            push_block(text, first.get())?;
            text.append(b" or ")?;
            push_block(text, second.get())
        }
    }
}
