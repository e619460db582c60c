// What stands round the texts of the lines: a signature, variables, assumed procedures and entries.

ghost use Rattle.std.specs.Prelude.{◌≡◌, true, IfOk};
ghost use Rattle.kv_syn.specs.Readable.{is_readable_unit};

use crate::faults::Fault;
use crate::reading;
use crate::sizes::low;
use kv_elab::{Context, elaborate, elaborate_prog, elaborate_term};
use kv_print::form_text;
use kv_sig::{Env, Flat, Sig};
use kv_subst::open_var;
use kv_syn::{
    Bytes, Entry, Form, Item, Kind, Label, List, Name, NoMemory, Plain, Profile, Prog, RawForm,
    RawTerm, Sequent, Shared, Term, Unit, Var,
};
use std::alloc::Global;

/// What the lines have declared so far.
#[derive(Drop)]
pub struct Setting {
    pub alloc: Global,
    pub flat: Flat,
    pub context: Context,
}

impl Setting {
    /// Nothing is declared.
    pub fn new(alloc: Global) -> Setting {
        Setting {
            alloc,
            flat: Flat {
                sig: Sig::new(alloc),
                entries: List::new(alloc),
                gens: List::new(alloc),
                bodies: List::new(alloc),
            },
            context: Context {
                free: List::new(alloc),
                bound: List::new(alloc),
                assumed: List::new(alloc),
            },
        }
    }

    /// What a step sees.
    pub fn env(&self) -> Env<'_> {
        Env {
            flat: &self.flat,
            before: 0,
        }
    }

    /// The typed formula of a text.
    pub fn formula(&self, text: &str) -> Result<Shared<Form>, Fault> {
        let raw = reading::formula(self.alloc, text)?;
        self.typed(raw.get())
    }

    /// The formula with its types.
    pub fn typed(&self, raw: &RawForm) -> Result<Shared<Form>, Fault> {
        let form = elaborate(self.alloc, &self.flat.sig, &self.context, raw)?;
        Ok(Shared::new(self.alloc, form)?)
    }

    /// The typed program of a text.
    pub fn program(&self, text: &str) -> Result<Shared<Prog>, Fault> {
        let raw = reading::program(self.alloc, text)?;
        let prog = elaborate_prog(self.alloc, &self.flat.sig, &self.context, raw.get())?;
        Ok(Shared::new(self.alloc, prog)?)
    }

    /// The typed term of a text, with its sort.
    pub fn term(&self, text: &str) -> Result<(Shared<Term>, Name), Fault> {
        let raw = reading::term(self.alloc, text)?;
        self.typed_term(raw.get())
    }

    /// The term with its types, and its sort.
    pub fn typed_term(&self, raw: &RawTerm) -> Result<(Shared<Term>, Name), Fault> {
        let (term, sort) = elaborate_term(self.alloc, &self.flat.sig, &self.context, raw)?;
        Ok((Shared::new(self.alloc, term)?, sort))
    }

    /// The sequent of a text `LEFT |- RIGHT`, whose formulas have commas between.
    pub fn sequent(&self, text: &str) -> Result<Sequent, Fault> {
        let (left, right) = text.split_once("|-").ok_or(Fault::Unread)?;
        Ok(Sequent {
            left: self.formulas(left)?,
            right: self.formulas(right)?,
        })
    }

    fn formulas(&self, text: &str) -> Result<List<Form>, Fault> {
        let raws = reading::formulas(self.alloc, text)?;
        let mut forms = List::new(self.alloc);
        for raw in raws.items() {
            let form = elaborate(self.alloc, &self.flat.sig, &self.context, raw.get())?;
            forms.push(form)?;
        }
        Ok(forms)
    }

    /// The free variable of that name.
    pub fn variable(&self, name: &str) -> Result<&Var, Fault> {
        self.context
            .free
            .items()
            .iter()
            .find(|var| var.name.bytes() == name.as_bytes())
            .ok_or(Fault::Unread)
    }

    /// The text of a formula, in which the variables of the binders around it have their names.
    pub fn shown(&self, form: Shared<Form>) -> Result<Bytes, Fault> {
        let mut form = form;
        for var in self.context.bound.items().iter().rev() {
            form = opened(self.alloc, form.get(), var)?;
        }
        Ok(form_text(self.alloc, form.get())?)
    }

    /// Declares the free variables of a text.
    pub fn put_free(&mut self, text: &str) -> Result<(), Fault> {
        put(self.alloc, &mut self.context.free, text)
    }

    /// Declares the binders around, the innermost last.
    pub fn put_binders(&mut self, text: &str) -> Result<(), Fault> {
        put(self.alloc, &mut self.context.bound, text)
    }

    /// Declares the assumed procedures of a text, spelled as items.
    pub fn put_assumed(&mut self, text: &str) -> Result<(), Fault> {
        let unit = unit_of(self.alloc, text)?;
        self.context.assumed = List::new(self.alloc);
        for item in items_of(&unit) {
            if let Item::Proc {
                name,
                values,
                refs,
                ..
            } = item
            {
                let profile = procedure(self.alloc, values.items(), refs.items())?;
                self.context
                    .assumed
                    .push((name.copy(self.alloc)?, profile))?;
            }
        }
        Ok(())
    }

    /// Declares an entry `LABEL : FORMULA`.
    pub fn put_entry(&mut self, text: &str) -> Result<(), Fault> {
        let (label, form) = text.split_once(" : ").ok_or(Fault::Unread)?;
        let form = self.formula(form)?;
        let entry = entry_of(self.alloc, label, form.get())?;
        Ok(self.flat.entries.push(entry)?)
    }
}

/// The body at the variable.
pub fn opened(alloc: Global, body: &Form, at: &Var) -> Result<Shared<Form>, Fault> {
    low(body)?;
    let form = open_var(alloc, body, at)?;
    Ok(Shared::new(alloc, form)?)
}

/// The basic unit of these items.
pub fn unit_of(alloc: Global, items: &str) -> Result<Unit, Fault>
    ensures { IfOk result (λ unit. is_readable_unit unit ≡ true) }
{
    let text = format!(in alloc; "unit A basic {items} end")?;
    Ok(kv_punit::unit(alloc, text.as_bytes())?)
}

fn items_of(unit: &Unit) -> &[Item] {
    match &unit.kind {
        Kind::Basic(items) => items.items(),
        _ => &[],
    }
}

fn put(alloc: Global, list: &mut List<Var>, text: &str) -> Result<(), Fault> {
    *list = variables(alloc, text)?;
    Ok(())
}

/// Variables as the values of a procedure are spelled.
fn variables(alloc: Global, text: &str) -> Result<List<Var>, Fault> {
    let items = format!(in alloc; "proc p({text};);")?;
    let unit = unit_of(alloc, items.as_str())?;
    match items_of(&unit).first() {
        Some(Item::Proc { values, .. }) => Ok(values.copy(alloc)?),
        _ => Err(Fault::Unread),
    }
}

fn procedure(alloc: Global, values: &[Var], refs: &[Var]) -> Result<Profile, NoMemory> {
    Ok(Profile::Proc {
        values: sorts_of(alloc, values)?,
        refs: sorts_of(alloc, refs)?,
    })
}

fn sorts_of(alloc: Global, vars: &[Var]) -> Result<List<Name>, NoMemory> {
    let mut sorts = List::new(alloc);
    for var in vars {
        sorts.push(var.sort.copy(alloc)?)?;
    }
    Ok(sorts)
}

fn entry_of(alloc: Global, label: &str, form: &Form) -> Result<Entry, NoMemory> {
    let label = Label::from_bytes(alloc, label.as_bytes())?;
    Ok(Entry {
        label,
        form: form.copy(alloc)?,
        simp: false,
        axiom: true,
        needs: List::new(alloc),
    })
}
