// What a call is asked to do.

ghost use Rattle.std.specs.Prelude.{◌≡◌};
ghost use Rattle.kv_top.specs.Words as spec;

/// What the first word of a command line asks for.
#[derive(Clone, Copy, Debug, PartialEq, Eq)]
pub enum Mode {
    /// `check`: the answer to `status` at the project of the file.
    Check,
    /// `run`: the answers to the commands of the input, from the project of the file on.
    Run,
}

/// The mode of a word, if it is one.
#[tactic(auto, unfolding(crate::specs::Words::mode_of))]
pub fn mode_of(word: &str) -> Option<Mode>
    ensures { result ≡ spec.mode_of word.now }
{
    if word == "check" {
        return Some(Mode::Check);
    }
    if word == "run" {
        return Some(Mode::Run);
    }
    None
}
