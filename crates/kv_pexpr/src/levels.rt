// The rules, the operators and the quantifiers, by name.

/// The rules of formulas.
#[derive(Clone, Copy, Debug, PartialEq, Eq)]
pub enum Level {
    /// `form = imp ["<->" imp]`
    Form,
    /// `imp = dis ["->" imp]`
    Imp,
    /// `dis = con { "or" con }`
    Dis,
    /// `con = una { "and" una }`
    Con,
    /// `una = "not" una | ("all" | "ex") name ":" name "." una | prim`
    Una,
}

/// What stands between two formulas.
#[derive(Clone, Copy, Debug, PartialEq, Eq)]
pub enum Operator {
    And,
    Or,
    Imp,
    Iff,
}

/// What binds a variable in a formula.
#[derive(Clone, Copy, Debug, PartialEq, Eq)]
pub enum Quantifier {
    All,
    Ex,
}
