// What the text of a step asks of the environment.

ghost use Rattle.std.specs.Prelude.{◌≡◌, ◌++◌, map, OnOk};
ghost use Rattle.kv_script.specs.Answers.{text_looks};
ghost use Rattle.kv_syn.specs.ScriptBridge.{plain_text};
ghost use Rattle.kv_syn.specs.declared.outcomes.Look.TheVariants.{Symbol};
ghost use Rattle.kv_elab.specs.Names.{form_names, prog_names, term_names, terms_names, var_names};
ghost use Rattle.kv_raw.specs.RawBridge.{raw_form, raw_prog, raw_term, raw_terms};

use kv_syn::{List, Look, Name, NoMemory, Plain, RawForm, RawProg, RawTerm, StepText, Var};
use std::alloc::Global;

/// Adds each name of the text, be it a symbol or not, and its label, from left to right and as often as they stand
/// there.
pub fn push_looks(alloc: Global, text: &StepText, looks: &mut List<Look>) -> Result<(), NoMemory>
    ensures { OnOk result (looks.new ≡ looks.old ++ text_looks (plain_text text.now)) }
{
    match text {
        StepText::Nothing => Ok(()),
        StepText::Fresh(name) => looks.push(Look::Symbol(name.copy(alloc)?)),
        StepText::OfTerm(term) => {
            let mut names = List::new(alloc);
            push_term_names(alloc, term, &mut names)?;
            push_symbols(alloc, names.items(), looks)
        }
        StepText::OfForm(form) => {
            let mut names = List::new(alloc);
            push_form_names(alloc, form, &mut names)?;
            push_symbols(alloc, names.items(), looks)
        }
        StepText::OfLabel(label) => looks.push(Look::Label(label.copy(alloc)?)),
    }
}

fn push_symbols(alloc: Global, names: &[Name], looks: &mut List<Look>) -> Result<(), NoMemory>
    ensures { OnOk result (looks.new ≡ looks.old ++ map Symbol names.now) }
{
    for name in names {
        looks.push(Look::Symbol(name.copy(alloc)?))?;
    }
    Ok(())
}

fn push_names(alloc: Global, others: &[Name], names: &mut List<Name>) -> Result<(), NoMemory>
    ensures { OnOk result (names.new ≡ names.old ++ others.now) }
{
    for name in others {
        names.push(name.copy(alloc)?)?;
    }
    Ok(())
}

fn push_var_names(alloc: Global, variable: &Var, names: &mut List<Name>) -> Result<(), NoMemory>
    ensures { OnOk result (names.new ≡ names.old ++ var_names variable.now) }
{
    names.push(variable.name.copy(alloc)?)?;
    names.push(variable.sort.copy(alloc)?)
}

/// Adds the names of a term, from left to right and as often as they stand there.
#[cycle(term_names)]
fn push_term_names(alloc: Global, term: &RawTerm, names: &mut List<Name>) -> Result<(), NoMemory>
    ensures { OnOk result (names.new ≡ names.old ++ term_names (raw_term term.now)) }
{
    match term {
        RawTerm::App(f, terms) => {
            names.push(f.copy(alloc)?)?;
            push_terms_names(alloc, terms.items(), names)
        }
    }
}

#[cycle(term_names)]
fn push_terms_names(
    alloc: Global,
    terms: &[RawTerm],
    names: &mut List<Name>,
) -> Result<(), NoMemory>
    ensures { OnOk result (names.new ≡ names.old ++ terms_names (raw_terms terms.now)) }
{
    for term in terms {
        push_term_names(alloc, term, names)?;
    }
    Ok(())
}

/// Adds the names of a formula, those of binders and their sorts among them, from left to right and as often as they
/// stand there.
#[cycle(form_names)]
fn push_form_names(alloc: Global, form: &RawForm, names: &mut List<Name>) -> Result<(), NoMemory>
    ensures { OnOk result (names.new ≡ names.old ++ form_names (raw_form form.now)) }
{
    match form {
        RawForm::True | RawForm::False => Ok(()),
        RawForm::Atom(p, ts) => {
            names.push(p.copy(alloc)?)?;
            push_terms_names(alloc, ts.items(), names)
        }
        RawForm::Equal(s, t) => {
            push_term_names(alloc, s, names)?;
            push_term_names(alloc, t, names)
        }
        RawForm::Not(f) => push_form_names(alloc, f.get(), names),
        RawForm::And(f, g) | RawForm::Or(f, g) | RawForm::Imp(f, g) | RawForm::Iff(f, g) => {
            push_form_names(alloc, f.get(), names)?;
            push_form_names(alloc, g.get(), names)
        }
        RawForm::All(x, f) | RawForm::Ex(x, f) => {
            push_var_names(alloc, x, names)?;
            push_form_names(alloc, f.get(), names)
        }
        RawForm::After(a, f) | RawForm::Can(a, f) => {
            push_prog_names(alloc, a.get(), names)?;
            push_form_names(alloc, f.get(), names)
        }
    }
}

#[cycle(form_names)]
fn push_prog_names(alloc: Global, prog: &RawProg, names: &mut List<Name>) -> Result<(), NoMemory>
    ensures { OnOk result (names.new ≡ names.old ++ prog_names (raw_prog prog.now)) }
{
    match prog {
        RawProg::Skip | RawProg::Abort => Ok(()),
        RawProg::Assign(x, t) => {
            names.push(x.copy(alloc)?)?;
            push_term_names(alloc, t, names)
        }
        RawProg::Seq(a, b) | RawProg::Choice(a, b) => {
            push_prog_names(alloc, a.get(), names)?;
            push_prog_names(alloc, b.get(), names)
        }
        RawProg::If(e, a, b) => {
            push_form_names(alloc, e.get(), names)?;
            push_prog_names(alloc, a.get(), names)?;
            push_prog_names(alloc, b.get(), names)
        }
        RawProg::While(e, a) => {
            push_form_names(alloc, e.get(), names)?;
            push_prog_names(alloc, a.get(), names)
        }
        RawProg::Local(x, t, a) => {
            push_var_names(alloc, x, names)?;
            push_term_names(alloc, t, names)?;
            push_prog_names(alloc, a.get(), names)
        }
        RawProg::Call(p, ts, rs) => {
            names.push(p.copy(alloc)?)?;
            push_terms_names(alloc, ts.items(), names)?;
            push_names(alloc, rs.items(), names)
        }
    }
}
