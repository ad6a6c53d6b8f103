//! How a command ended.

ghost use Rattle.std.specs.Prelude.{◌≡◌};
ghost use Rattle.command_base.specs.Statuses.{status_code};

/// A table of a program that may be refused by itself.
#[derive(Clone, Copy)]
pub enum RefusedTable {
    /// `.debug_aranges`.
    Addresses,
    /// The line table of a unit.
    Lines,
}

/// How a command ended. Its number is the status of the program.
#[derive(Clone, Copy)]
pub enum Status {
    /// The answer was written.
    Answered,
    /// The file has a fault.
    Refused,
    /// The words aren't in the grammar.
    Usage,
    /// A read of the shelf failed.
    ReadFault,
    /// A store of the shelf failed.
    StoreFault,
    /// A write to the sink failed.
    WriteFault,
    /// A read of the input failed.
    InputFault,
    /// Memory was refused.
    NoMemory,
    /// The bytes of an index have a fault.
    IndexRefused,
    /// A table of the program, which has no fault otherwise, has one.
    TableRefused(RefusedTable),
    /// The format can't hold the index.
    IndexTooLarge,
    /// A file is longer than its limit.
    FileTooBig,
    /// The program has a section for such an index.
    AlreadyIndexed,
    /// The program has no room for one more section.
    TooManySections,
    /// A line, or the whole input, is longer than a session takes.
    InputTooLong,
    /// Memory was refused while sessions were answered: nothing is written behind their text.
    Stopped,
}

impl Status {
    /// The number.
    pub fn code(self) -> u8
        ensures { result ≡ status_code self }
    {
        match self {
            Status::Answered => 0,
            Status::Refused => 1,
            Status::Usage => 2,
            Status::ReadFault => 3,
            Status::StoreFault => 4,
            Status::WriteFault => 5,
            Status::InputFault => 6,
            Status::NoMemory => 7,
            Status::IndexRefused => 8,
            Status::IndexTooLarge => 9,
            Status::FileTooBig => 10,
            Status::InputTooLong => 11,
            Status::AlreadyIndexed => 12,
            Status::TooManySections => 13,
            Status::TableRefused(RefusedTable::Addresses) => 14,
            Status::TableRefused(RefusedTable::Lines) => 15,
            Status::Stopped => 7,
        }
    }
}
