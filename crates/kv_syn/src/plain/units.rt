// Copies and comparisons of units.

use crate::plain::groups::{copy_four, copy_three, copy_two};
use crate::units::{Cons, Data, Datum, Gen, Item, Kind, Map, Mod, Proof, Theorem, Unit};
use kv_names::{NoMemory, Plain};
use std::alloc::Global;

impl Plain for Theorem {
    fn copy(&self, alloc: Global) -> Result<Theorem, NoMemory> {
        let (name, form) = copy_two(alloc, &self.name, &self.form)?;
        Ok(Theorem {
            name,
            simp: self.simp,
            form,
        })
    }

    fn same(&self, other: &Theorem) -> bool {
        self.name.same(&other.name) && self.simp.same(&other.simp) && self.form.same(&other.form)
    }
}

impl Plain for Proof {
    fn copy(&self, alloc: Global) -> Result<Proof, NoMemory> {
        let (name, script) = copy_two(alloc, &self.name, &self.script)?;
        Ok(Proof { name, script })
    }

    fn same(&self, other: &Proof) -> bool {
        self.name.same(&other.name) && self.script.same(&other.script)
    }
}

impl Plain for Cons {
    fn copy(&self, alloc: Global) -> Result<Cons, NoMemory> {
        let (name, args) = copy_two(alloc, &self.name, &self.args)?;
        Ok(Cons { name, args })
    }

    fn same(&self, other: &Cons) -> bool {
        self.name.same(&other.name) && self.args.same(&other.args)
    }
}

impl Plain for Datum {
    fn copy(&self, alloc: Global) -> Result<Datum, NoMemory> {
        let (name, cons) = copy_two(alloc, &self.name, &self.cons)?;
        Ok(Datum { name, cons })
    }

    fn same(&self, other: &Datum) -> bool {
        self.name.same(&other.name) && self.cons.same(&other.cons)
    }
}

impl Plain for Data {
    fn copy(&self, alloc: Global) -> Result<Data, NoMemory> {
        Ok(Data {
            sorts: self.sorts.copy(alloc)?,
        })
    }

    fn same(&self, other: &Data) -> bool {
        self.sorts.same(&other.sorts)
    }
}

impl Plain for Gen {
    fn copy(&self, alloc: Global) -> Result<Gen, NoMemory> {
        let (sorts, constructors) = copy_two(alloc, &self.sorts, &self.constructors)?;
        Ok(Gen {
            sorts,
            constructors,
        })
    }

    fn same(&self, other: &Gen) -> bool {
        self.sorts.same(&other.sorts) && self.constructors.same(&other.constructors)
    }
}

impl Plain for Item {
    fn copy(&self, alloc: Global) -> Result<Item, NoMemory> {
        match self {
            Item::Sort(name) => Ok(Item::Sort(name.copy(alloc)?)),
            Item::Free(data) => Ok(Item::Free(data.copy(alloc)?)),
            Item::Fun { name, args, result } => {
                let (name, args, result) = copy_three(alloc, name, args, result)?;
                Ok(Item::Fun { name, args, result })
            }
            Item::Pred { name, args } => {
                let (name, args) = copy_two(alloc, name, args)?;
                Ok(Item::Pred { name, args })
            }
            Item::Proc {
                name,
                values,
                refs,
                body,
            } => {
                let (name, values, refs, body) = copy_four(alloc, name, values, refs, body)?;
                Ok(Item::Proc {
                    name,
                    values,
                    refs,
                    body,
                })
            }
            Item::Generated(clause) => Ok(Item::Generated(clause.copy(alloc)?)),
            Item::Axiom(axiom) => Ok(Item::Axiom(axiom.copy(alloc)?)),
        }
    }

    fn same(&self, other: &Item) -> bool {
        match (self, other) {
            (Item::Sort(name), Item::Sort(name_2)) => name.same(name_2),
            (Item::Free(data), Item::Free(data_2)) => data.same(data_2),
            (
                Item::Fun { name, args, result },
                Item::Fun {
                    name: name_2,
                    args: args_2,
                    result: result_2,
                },
            ) => name.same(name_2) && args.same(args_2) && result.same(result_2),
            (
                Item::Pred { name, args },
                Item::Pred {
                    name: name_2,
                    args: args_2,
                },
            ) => name.same(name_2) && args.same(args_2),
            (
                Item::Proc {
                    name,
                    values,
                    refs,
                    body,
                },
                Item::Proc {
                    name: name_2,
                    values: values_2,
                    refs: refs_2,
                    body: body_2,
                },
            ) => name.same(name_2)
                && values.same(values_2)
                && refs.same(refs_2)
                && body.same(body_2),
            (Item::Generated(clause), Item::Generated(clause_2)) => clause.same(clause_2),
            (Item::Axiom(axiom), Item::Axiom(axiom_2)) => axiom.same(axiom_2),
            _ => false,
        }
    }
}

impl Plain for Map {
    fn copy(&self, alloc: Global) -> Result<Map, NoMemory> {
        match self {
            Map::Sort(from, to) => {
                let (from, to) = copy_two(alloc, from, to)?;
                Ok(Map::Sort(from, to))
            }
            Map::Proc(from, to) => {
                let (from, to) = copy_two(alloc, from, to)?;
                Ok(Map::Proc(from, to))
            }
            Map::Fun(from, places, term) => {
                let (from, places, term) = copy_three(alloc, from, places, term)?;
                Ok(Map::Fun(from, places, term))
            }
            Map::Pred(from, places, form) => {
                let (from, places, form) = copy_three(alloc, from, places, form)?;
                Ok(Map::Pred(from, places, form))
            }
        }
    }

    fn same(&self, other: &Map) -> bool {
        match (self, other) {
            (Map::Sort(from, to), Map::Sort(from_2, to_2)) => from.same(from_2) && to.same(to_2),
            (Map::Proc(from, to), Map::Proc(from_2, to_2)) => from.same(from_2) && to.same(to_2),
            (Map::Fun(from, places, term), Map::Fun(from_2, places_2, term_2)) => from.same(from_2)
                && places.same(places_2)
                && term.same(term_2),
            (Map::Pred(from, places, form), Map::Pred(from_2, places_2, form_2)) => from.same(
                from_2,
            ) && places.same(places_2)
                && form.same(form_2),
            _ => false,
        }
    }
}

impl Plain for Mod {
    fn copy(&self, alloc: Global) -> Result<Mod, NoMemory> {
        match self {
            Mod::Sort {
                from,
                to,
                place,
                restrict,
                one,
                two,
                equal,
            } => {
                let (from, to, place) = copy_three(alloc, from, to, place)?;
                let (one, two, restrict, equal) = copy_four(alloc, one, two, restrict, equal)?;
                Ok(Mod::Sort {
                    from,
                    to,
                    place,
                    restrict,
                    one,
                    two,
                    equal,
                })
            }
            Mod::Fun(from, to) => {
                let (from, to) = copy_two(alloc, from, to)?;
                Ok(Mod::Fun(from, to))
            }
            Mod::Pred(from, places, form) => {
                let (from, places, form) = copy_three(alloc, from, places, form)?;
                Ok(Mod::Pred(from, places, form))
            }
            Mod::Measure {
                sort,
                place,
                size,
                one,
                two,
                below,
                zero,
                suc,
            } => {
                let (sort, place, one, two) = copy_four(alloc, sort, place, one, two)?;
                let (zero, suc, size, below) = copy_four(alloc, zero, suc, size, below)?;
                Ok(Mod::Measure {
                    sort,
                    place,
                    size,
                    one,
                    two,
                    below,
                    zero,
                    suc,
                })
            }
        }
    }

    fn same(&self, other: &Mod) -> bool {
        match (self, other) {
            (
                Mod::Sort {
                    from,
                    to,
                    place,
                    restrict,
                    one,
                    two,
                    equal,
                },
                Mod::Sort {
                    from: from_2,
                    to: to_2,
                    place: place_2,
                    restrict: restrict_2,
                    one: one_2,
                    two: two_2,
                    equal: equal_2,
                },
            ) => from.same(from_2)
                && to.same(to_2)
                && place.same(place_2)
                && restrict.same(restrict_2)
                && one.same(one_2)
                && two.same(two_2)
                && equal.same(equal_2),
            (Mod::Fun(from, to), Mod::Fun(from_2, to_2)) => from.same(from_2) && to.same(to_2),
            (Mod::Pred(from, places, form), Mod::Pred(from_2, places_2, form_2)) => from.same(
                from_2,
            ) && places.same(places_2)
                && form.same(form_2),
            (
                Mod::Measure {
                    sort,
                    place,
                    size,
                    one,
                    two,
                    below,
                    zero,
                    suc,
                },
                Mod::Measure {
                    sort: sort_2,
                    place: place_2,
                    size: size_2,
                    one: one_2,
                    two: two_2,
                    below: below_2,
                    zero: zero_2,
                    suc: suc_2,
                },
            ) => sort.same(sort_2)
                && place.same(place_2)
                && size.same(size_2)
                && one.same(one_2)
                && two.same(two_2)
                && below.same(below_2)
                && zero.same(zero_2)
                && suc.same(suc_2),
            _ => false,
        }
    }
}

impl Plain for Kind {
    fn copy(&self, alloc: Global) -> Result<Kind, NoMemory> {
        match self {
            Kind::Basic(items) => Ok(Kind::Basic(items.copy(alloc)?)),
            Kind::Enrich(used, items) => {
                let (used, items) = copy_two(alloc, used, items)?;
                Ok(Kind::Enrich(used, items))
            }
            Kind::Union(used) => Ok(Kind::Union(used.copy(alloc)?)),
            Kind::Rename(used, maps) => {
                let (used, maps) = copy_two(alloc, used, maps)?;
                Ok(Kind::Rename(used, maps))
            }
            Kind::Param(parameter, used, items) => {
                let (parameter, used, items) = copy_three(alloc, parameter, used, items)?;
                Ok(Kind::Param(parameter, used, items))
            }
            Kind::Actualize(generic, actual, maps) => {
                let (generic, actual, maps) = copy_three(alloc, generic, actual, maps)?;
                Ok(Kind::Actualize(generic, actual, maps))
            }
            Kind::Module(export, import, parts) => {
                let (export, import, parts) = copy_three(alloc, export, import, parts)?;
                Ok(Kind::Module(export, import, parts))
            }
        }
    }

    fn same(&self, other: &Kind) -> bool {
        match (self, other) {
            (Kind::Basic(items), Kind::Basic(items_2)) => items.same(items_2),
            (Kind::Enrich(used, items), Kind::Enrich(used_2, items_2)) => used.same(used_2)
                && items.same(items_2),
            (Kind::Union(used), Kind::Union(used_2)) => used.same(used_2),
            (Kind::Rename(used, maps), Kind::Rename(used_2, maps_2)) => used.same(used_2)
                && maps.same(maps_2),
            (Kind::Param(parameter, used, items), Kind::Param(parameter_2, used_2, items_2)) =>
                parameter.same(parameter_2) && used.same(used_2) && items.same(items_2),
            (
                Kind::Actualize(generic, actual, maps),
                Kind::Actualize(generic_2, actual_2, maps_2),
            ) => generic.same(generic_2) && actual.same(actual_2) && maps.same(maps_2),
            (Kind::Module(export, import, parts), Kind::Module(export_2, import_2, parts_2)) =>
                export.same(export_2) && import.same(import_2) && parts.same(parts_2),
            _ => false,
        }
    }
}

impl Plain for Unit {
    fn copy(&self, alloc: Global) -> Result<Unit, NoMemory> {
        let (name, kind, theorems, proofs) = copy_four(
            alloc,
            &self.name,
            &self.kind,
            &self.theorems,
            &self.proofs,
        )?;
        Ok(Unit {
            name,
            kind,
            theorems,
            proofs,
        })
    }

    fn same(&self, other: &Unit) -> bool {
        self.name.same(&other.name)
            && self.kind.same(&other.kind)
            && self.theorems.same(&other.theorems)
            && self.proofs.same(&other.proofs)
    }
}
