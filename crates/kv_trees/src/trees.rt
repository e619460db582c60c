// Terms, formulas and programs after typing, and sequents.

use kv_names::{Callee, List, Name, Shared, Var};

/// A place for a variable: free, with its name and sort, or bound, by the number of binders between the place
/// and its own binder (0 for the innermost).
#[derive(Drop)]
pub enum Ref {
    Free(Var),
    Bound(u32),
}

/// A term: a variable, or a function applied to terms (a constant to none).
#[derive(Drop)]
pub enum Term {
    Place(Ref),
    App(Name, Shared<List<Term>>),
}

/// A formula of Dynamic Logic. The name in a quantifier is the sort of its variable, which its body reaches by
/// number.
#[cycle(form)]
#[derive(Drop)]
pub enum Form {
    True,
    False,
    Atom(Name, Shared<List<Term>>),
    Equal(Term, Term),
    Not(Shared<Form>),
    And(Shared<Form>, Shared<Form>),
    Or(Shared<Form>, Shared<Form>),
    Imp(Shared<Form>, Shared<Form>),
    Iff(Shared<Form>, Shared<Form>),
    All(Name, Shared<Form>),
    Ex(Name, Shared<Form>),
    /// The box: after every run of the program that ends, the formula holds.
    After(Shared<Prog>, Shared<Form>),
    /// The diamond: the program can end in a state where the formula holds.
    Can(Shared<Prog>, Shared<Form>),
}

/// A program.
#[cycle(form)]
#[derive(Drop)]
pub enum Prog {
    Skip,
    Abort,
    Assign(Ref, Term),
    Seq(Shared<Prog>, Shared<Prog>),
    If(Shared<Form>, Shared<Prog>, Shared<Prog>),
    While(Shared<Form>, Shared<Prog>),
    /// A block with a variable of its own, of that sort and with that first value, which its body reaches by number.
    Local(Name, Term, Shared<Prog>),
    /// A call: the values, and the variables for the references.
    Call(Callee, Shared<List<Term>>, Shared<List<Ref>>),
    /// Either of the two.
    Choice(Shared<Prog>, Shared<Prog>),
}

/// What is to be shown: if all of the left holds, some of the right does.
#[derive(Drop)]
pub struct Sequent {
    pub left: List<Form>,
    pub right: List<Form>,
}
