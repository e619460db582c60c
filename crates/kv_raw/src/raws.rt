// Terms, formulas and programs as texts spell them, before typing.

use kv_names::{List, Name, Shared, Var};

/// A name with arguments. A variable or a constant has none.
#[derive(Drop)]
pub enum RawTerm {
    App(Name, Shared<List<RawTerm>>),
}

/// A formula by names. A quantifier holds its variable with its sort.
#[cycle(raw)]
#[derive(Drop)]
pub enum RawForm {
    True,
    False,
    Atom(Name, Shared<List<RawTerm>>),
    Equal(RawTerm, RawTerm),
    Not(Shared<RawForm>),
    And(Shared<RawForm>, Shared<RawForm>),
    Or(Shared<RawForm>, Shared<RawForm>),
    Imp(Shared<RawForm>, Shared<RawForm>),
    Iff(Shared<RawForm>, Shared<RawForm>),
    All(Var, Shared<RawForm>),
    Ex(Var, Shared<RawForm>),
    After(Shared<RawProg>, Shared<RawForm>),
    Can(Shared<RawProg>, Shared<RawForm>),
}

/// A program by names.
#[cycle(raw)]
#[derive(Drop)]
pub enum RawProg {
    Skip,
    Abort,
    Assign(Name, RawTerm),
    Seq(Shared<RawProg>, Shared<RawProg>),
    If(Shared<RawForm>, Shared<RawProg>, Shared<RawProg>),
    While(Shared<RawForm>, Shared<RawProg>),
    Local(Var, RawTerm, Shared<RawProg>),
    Call(Name, Shared<List<RawTerm>>, Shared<List<Name>>),
    Choice(Shared<RawProg>, Shared<RawProg>),
}
