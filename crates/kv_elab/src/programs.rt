// Boxes and diamonds in raw formulas.

ghost use Rattle.std.specs.Prelude.{◌≡◌};
ghost use Rattle.kv_raw.specs.RawBridge.{raw_form};
ghost use Rattle.kv_elab.specs.Elab.{has_program as has_program_tree};

use kv_syn::RawForm;

/// Whether the formula has a box or a diamond.
pub fn has_program(form: &RawForm) -> bool
    ensures { result ≡ has_program_tree (raw_form form.now) }
{
    match form {
        RawForm::True => false,
        RawForm::False => false,
        RawForm::Atom(_, _) => false,
        RawForm::Equal(_, _) => false,
        RawForm::Not(f) => has_program(f.get()),
        RawForm::And(f, g) => has_program(f.get()) || has_program(g.get()),
        RawForm::Or(f, g) => has_program(f.get()) || has_program(g.get()),
        RawForm::Imp(f, g) => has_program(f.get()) || has_program(g.get()),
        RawForm::Iff(f, g) => has_program(f.get()) || has_program(g.get()),
        RawForm::All(_, f) => has_program(f.get()),
        RawForm::Ex(_, f) => has_program(f.get()),
        RawForm::After(_, _) => true,
        RawForm::Can(_, _) => true,
    }
}
