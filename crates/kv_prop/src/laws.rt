// A law of premises.

ghost use Rattle.kv_prop.specs.Laws.{SamePremises};

/// Where two environments answer alike what a step needs, its premises are the same.
pub fn equal_answers_equal_premises()
    ensures { SamePremises }
{}
