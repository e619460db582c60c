// How a call of the program ends.

ghost use Rattle.std.specs.Prelude.{◌≡◌};
ghost use Rattle.kv_top.specs.Statuses.{code_of, message_of};

/// How a call of the program ends.
#[derive(Clone, Copy, Debug, PartialEq, Eq)]
pub enum Status {
    /// All was done.
    Done,
    /// The words aren't well formed.
    Usage,
    /// The input couldn't be read.
    ReadFault,
    /// The output couldn't be written.
    WriteFault,
    NoMemory,
    /// The project couldn't be loaded or saved.
    StoreFault,
    /// The stored bytes aren't a project.
    Refused,
    /// The input ended inside a command.
    Cut,
    /// The stored file, a command or the input is too long.
    TooLong,
    /// There is no stored file.
    NoProject,
}

/// The words for a status.
pub fn message(status: Status) -> &'static str
    ensures { result.now ≡ message_of status }
{
    match status {
        Status::Done => "done",
        Status::Usage => "usage",
        Status::ReadFault => "read fault",
        Status::WriteFault => "write fault",
        Status::NoMemory => "no memory",
        Status::StoreFault => "store fault",
        Status::Refused => "project refused",
        Status::Cut => "cut",
        Status::TooLong => "too long",
        Status::NoProject => "no project",
    }
}

/// The exit code for a status.
pub fn code(status: Status) -> u8
    ensures { result ≡ code_of status }
{
    match status {
        Status::Done => 0,
        Status::Usage => 2,
        Status::ReadFault => 3,
        Status::WriteFault => 4,
        Status::NoMemory => 5,
        Status::StoreFault => 6,
        Status::Refused => 7,
        Status::Cut => 8,
        Status::TooLong => 9,
        Status::NoProject => 10,
    }
}
