// A law of replays.

ghost use Rattle.kv_script.specs.Laws.{SameReplays};

/// Where two environments answer alike each look that the outcome of a replay in one of them lists, the replay is the
/// same in both. So an outcome that was kept tells whether its replay may have become another one.
pub fn equal_answers_equal_replays()
    ensures { SameReplays }
{}
