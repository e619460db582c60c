// Copies and comparisons of what a check answers.

use crate::outcomes::{Entry, Fault, Look, Need, Outcome, Reason, Row, State, Table, UnitState};
use crate::plain::groups::copy_three;
use kv_names::{NoMemory, Plain};
use std::alloc::Global;

impl Plain for Need {
    fn copy(&self, alloc: Global) -> Result<Need, NoMemory> {
        Ok(Need {
            unit: self.unit.copy(alloc)?,
            name: self.name.copy(alloc)?,
        })
    }

    fn same(&self, other: &Need) -> bool {
        self.unit.same(&other.unit) && self.name.same(&other.name)
    }
}

impl Plain for Entry {
    fn copy(&self, alloc: Global) -> Result<Entry, NoMemory> {
        let (label, needs, form) = copy_three(alloc, &self.label, &self.needs, &self.form)?;
        Ok(Entry {
            label,
            form,
            simp: self.simp,
            axiom: self.axiom,
            needs,
        })
    }

    fn same(&self, other: &Entry) -> bool {
        self.label.same(&other.label)
            && self.form.same(&other.form)
            && self.simp.same(&other.simp)
            && self.axiom.same(&other.axiom)
            && self.needs.same(&other.needs)
    }
}

impl Plain for Reason {
    fn copy(&self, alloc: Global) -> Result<Reason, NoMemory> {
        Ok(Reason {
            word: self.word.copy(alloc)?,
            names: self.names.copy(alloc)?,
        })
    }

    fn same(&self, other: &Reason) -> bool {
        self.word.same(&other.word) && self.names.same(&other.names)
    }
}

impl Plain for State {
    fn copy(&self, alloc: Global) -> Result<State, NoMemory> {
        match self {
            State::Ill(reason) => Ok(State::Ill(reason.copy(alloc)?)),
            State::Broken(path, rule, reason) => Ok(State::Broken(
                path.copy(alloc)?,
                rule.copy(alloc)?,
                reason.copy(alloc)?,
            )),
            State::Open(goals) => Ok(State::Open(goals.copy(alloc)?)),
            State::Proved => Ok(State::Proved),
            State::Waiting(need) => Ok(State::Waiting(need.copy(alloc)?)),
            State::Cyclic => Ok(State::Cyclic),
            State::Idle => Ok(State::Idle),
        }
    }

    fn same(&self, other: &State) -> bool {
        match (self, other) {
            (State::Ill(reason), State::Ill(reason_2)) => reason.same(reason_2),
            (State::Broken(path, rule, reason), State::Broken(path_2, rule_2, reason_2)) =>
                path.same(path_2) && rule.same(rule_2) && reason.same(reason_2),
            (State::Open(goals), State::Open(goals_2)) => goals.same(goals_2),
            (State::Proved, State::Proved) => true,
            (State::Waiting(need), State::Waiting(need_2)) => need.same(need_2),
            (State::Cyclic, State::Cyclic) => true,
            (State::Idle, State::Idle) => true,
            _ => false,
        }
    }
}

impl Plain for UnitState {
    fn copy(&self, alloc: Global) -> Result<UnitState, NoMemory> {
        match self {
            UnitState::Good => Ok(UnitState::Good),
            UnitState::Refined => Ok(UnitState::Refined),
            UnitState::Unrefined => Ok(UnitState::Unrefined),
            UnitState::Bad(reason) => Ok(UnitState::Bad(reason.copy(alloc)?)),
        }
    }

    fn same(&self, other: &UnitState) -> bool {
        match (self, other) {
            (UnitState::Good, UnitState::Good) => true,
            (UnitState::Refined, UnitState::Refined) => true,
            (UnitState::Unrefined, UnitState::Unrefined) => true,
            (UnitState::Bad(reason), UnitState::Bad(reason_2)) => reason.same(reason_2),
            _ => false,
        }
    }
}

impl Plain for Look {
    fn copy(&self, alloc: Global) -> Result<Look, NoMemory> {
        match self {
            Look::Symbol(name) => Ok(Look::Symbol(name.copy(alloc)?)),
            Look::Label(label) => Ok(Look::Label(label.copy(alloc)?)),
            Look::Generation(sort) => Ok(Look::Generation(sort.copy(alloc)?)),
            Look::Body(name) => Ok(Look::Body(name.copy(alloc)?)),
            Look::Rules => Ok(Look::Rules),
        }
    }

    fn same(&self, other: &Look) -> bool {
        match (self, other) {
            (Look::Symbol(name), Look::Symbol(name_2)) => name.same(name_2),
            (Look::Label(label), Look::Label(label_2)) => label.same(label_2),
            (Look::Generation(sort), Look::Generation(sort_2)) => sort.same(sort_2),
            (Look::Body(name), Look::Body(name_2)) => name.same(name_2),
            (Look::Rules, Look::Rules) => true,
            _ => false,
        }
    }
}

impl Plain for Fault {
    fn copy(&self, alloc: Global) -> Result<Fault, NoMemory> {
        Ok(Fault {
            path: self.path.copy(alloc)?,
            rule: self.rule.copy(alloc)?,
            reason: self.reason.copy(alloc)?,
        })
    }

    fn same(&self, other: &Fault) -> bool {
        self.path.same(&other.path)
            && self.rule.same(&other.rule)
            && self.reason.same(&other.reason)
    }
}

impl Plain for Outcome {
    fn copy(&self, alloc: Global) -> Result<Outcome, NoMemory> {
        Ok(Outcome {
            closed: self.closed.copy(alloc)?,
            goals: self.goals.copy(alloc)?,
            broken: self.broken.copy(alloc)?,
            uses: self.uses.copy(alloc)?,
            looks: self.looks.copy(alloc)?,
        })
    }

    fn same(&self, other: &Outcome) -> bool {
        self.closed.same(&other.closed)
            && self.goals.same(&other.goals)
            && self.broken.same(&other.broken)
            && self.uses.same(&other.uses)
            && self.looks.same(&other.looks)
    }
}

impl Plain for Row {
    fn copy(&self, alloc: Global) -> Result<Row, NoMemory> {
        Ok(Row {
            unit: self.unit.copy(alloc)?,
            name: self.name.copy(alloc)?,
            state: self.state.copy(alloc)?,
            outcome: self.outcome.copy(alloc)?,
        })
    }

    fn same(&self, other: &Row) -> bool {
        self.unit.same(&other.unit)
            && self.name.same(&other.name)
            && self.state.same(&other.state)
            && self.outcome.same(&other.outcome)
    }
}

impl Plain for Table {
    fn copy(&self, alloc: Global) -> Result<Table, NoMemory> {
        Ok(Table {
            units: self.units.copy(alloc)?,
            rows: self.rows.copy(alloc)?,
        })
    }

    fn same(&self, other: &Table) -> bool {
        self.units.same(&other.units) && self.rows.same(&other.rows)
    }
}
