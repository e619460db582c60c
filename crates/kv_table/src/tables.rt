// The five tables of words.

ghost use Rattle.std.specs.Prelude.{◌≡◌};
ghost use Rattle.kv_table.specs.Commands.{command_rows};
ghost use Rattle.kv_table.specs.Keywords.{keyword_rows};
ghost use Rattle.kv_table.specs.Reasons.{reason_rows};
ghost use Rattle.kv_table.specs.Rules.{rule_rows};
ghost use Rattle.kv_table.specs.States.{state_rows};

use crate::names::Names;

/// The keywords, which no name is.
#[tactic(auto, unfolding(crate::specs::Keywords::keyword_rows))]
pub fn keywords() -> Names<49>
    ensures { result ≡ keyword_rows }
{
    Names::new(&[
        "project",
        "unit",
        "basic",
        "enrich",
        "union",
        "rename",
        "param",
        "using",
        "actualize",
        "module",
        "export",
        "import",
        "by",
        "with",
        "end",
        "sort",
        "data",
        "fun",
        "pred",
        "proc",
        "generated",
        "axiom",
        "theorem",
        "proof",
        "qed",
        "simp",
        "restrict",
        "equating",
        "measure",
        "below",
        "from",
        "true",
        "false",
        "not",
        "and",
        "or",
        "all",
        "ex",
        "skip",
        "abort",
        "if",
        "then",
        "else",
        "while",
        "do",
        "var",
        "in",
        "open",
        "as",
    ])
}

/// The words of the rules, in the order of the rule table.
#[tactic(auto, unfolding(crate::specs::Rules::rule_rows))]
pub fn rules() -> Names<38>
    ensures { result ≡ rule_rows }
{
    Names::new(&[
        "close", "falseL", "trueR", "notL", "notR", "andL", "orR", "andR", "orL", "impL", "impR",
        "iffL", "iffR", "dropL", "dropR", "cut", "allR", "exL", "allL", "exR", "refl", "swap",
        "subst", "use", "induct", "skip", "abort", "assign", "seq", "cond", "local", "unwind",
        "call", "inv", "rec", "dual", "mono", "simp",
    ])
}

/// The words of the commands: the edits, then the queries.
#[tactic(auto, unfolding(crate::specs::Commands::command_rows))]
pub fn commands() -> Names<20>
    ensures { result ≡ command_rows }
{
    Names::new(&[
        "add",
        "put",
        "drop",
        "theorem",
        "change",
        "forget",
        "proof",
        "unproof",
        "prune",
        "status",
        "state",
        "goals",
        "needs",
        "above",
        "graph",
        "flat",
        "obligations",
        "text",
        "seal",
        "save",
    ])
}

/// The words of the states of rows and of units.
#[tactic(auto, unfolding(crate::specs::States::state_rows))]
pub fn states() -> Names<11>
    ensures { result ≡ state_rows }
{
    Names::new(&[
        "ill",
        "broken",
        "open",
        "proved",
        "waiting",
        "cyclic",
        "idle",
        "ok",
        "bad",
        "refined",
        "unrefined",
    ])
}

/// The words of the reasons.
#[tactic(auto, unfolding(crate::specs::Reasons::reason_rows))]
pub fn reasons() -> Names<30>
    ensures { result ≡ reason_rows }
{
    Names::new(&[
        "cycle",
        "missing",
        "kind",
        "below",
        "clash",
        "unknown",
        "arity",
        "sort",
        "duplicate",
        "program",
        "constructor",
        "partial",
        "profile",
        "injective",
        "lost",
        "bodies",
        "export",
        "absent",
        "reach",
        "limit",
        "unit",
        "position",
        "shape",
        "fresh",
        "captured",
        "label",
        "body",
        "generation",
        "large",
        "surplus",
    ])
}
