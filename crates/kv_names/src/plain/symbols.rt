// Copies and comparisons of variables and symbols.

use crate::memory::NoMemory;
use crate::plain::Plain;
use crate::symbols::{Callee, Profile, Symbol, Var};
use std::alloc::Global;

impl Plain for Var {
    fn copy(&self, alloc: Global) -> Result<Var, NoMemory> {
        Ok(Var {
            name: self.name.copy(alloc)?,
            sort: self.sort.copy(alloc)?,
        })
    }

    fn same(&self, other: &Var) -> bool {
        self.name.same(&other.name) && self.sort.same(&other.sort)
    }
}

impl Plain for Profile {
    fn copy(&self, alloc: Global) -> Result<Profile, NoMemory> {
        match self {
            Profile::Sort => Ok(Profile::Sort),
            Profile::Fun { args, result } => Ok(Profile::Fun {
                args: args.copy(alloc)?,
                result: result.copy(alloc)?,
            }),
            Profile::Pred { args } => Ok(Profile::Pred {
                args: args.copy(alloc)?,
            }),
            Profile::Proc { values, refs } => Ok(Profile::Proc {
                values: values.copy(alloc)?,
                refs: refs.copy(alloc)?,
            }),
        }
    }

    fn same(&self, other: &Profile) -> bool {
        match (self, other) {
            (Profile::Sort, Profile::Sort) => true,
            (
                Profile::Fun { args, result },
                Profile::Fun {
                    args: args_2,
                    result: result_2,
                },
            ) => args.same(args_2) && result.same(result_2),
            (Profile::Pred { args }, Profile::Pred { args: args_2 }) => args.same(args_2),
            (
                Profile::Proc { values, refs },
                Profile::Proc {
                    values: values_2,
                    refs: refs_2,
                },
            ) => values.same(values_2) && refs.same(refs_2),
            _ => false,
        }
    }
}

impl Plain for Symbol {
    fn copy(&self, alloc: Global) -> Result<Symbol, NoMemory> {
        Ok(Symbol {
            name: self.name.copy(alloc)?,
            profile: self.profile.copy(alloc)?,
        })
    }

    fn same(&self, other: &Symbol) -> bool {
        self.name.same(&other.name) && self.profile.same(&other.profile)
    }
}

impl Plain for Callee {
    fn copy(&self, alloc: Global) -> Result<Callee, NoMemory> {
        match self {
            Callee::Symbol(name) => Ok(Callee::Symbol(name.copy(alloc)?)),
            Callee::Assumed(name, profile) => Ok(Callee::Assumed(
                name.copy(alloc)?,
                profile.copy(alloc)?,
            )),
        }
    }

    fn same(&self, other: &Callee) -> bool {
        match (self, other) {
            (Callee::Symbol(name), Callee::Symbol(name_2)) => name.same(name_2),
            (Callee::Assumed(name, profile), Callee::Assumed(name_2, profile_2)) => name.same(
                name_2,
            ) && profile.same(profile_2),
            _ => false,
        }
    }
}
