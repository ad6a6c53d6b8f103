//! What an index answers.

use crate::entry::Entry;
use crate::text::Text;
use ix_base::Fault;

/// Entries of a list, by their ascending places in it.
#[derive(Clone, Copy)]
pub struct Hits<'r> {
    pub entries: &'r [Entry<'r>],
    /// Places in `entries`, counted from 0.
    pub places: &'r [u32],
}

/// The main program: the language code of its unit, and its qualified name (DWARF 5, section 3.3.1).
#[derive(Drop)]
pub struct Main<'f> {
    pub language: u16,
    pub name: Text<'f>,
}

/// The main program, its name borrowed.
#[derive(Clone, Copy)]
pub struct MainName<'r> {
    pub language: u16,
    pub name: &'r [u8],
}

/// The length of the index in bytes, of `.debug_names` without the strings that it adds, or that its format can't hold it.
#[derive(Clone, Copy)]
pub enum CacheSize {
    Bytes(u64),
    TooLarge,
}

/// The answer to a query.
#[derive(Clone, Copy)]
pub enum Answer<'r> {
    /// To `Name` and `Simple`.
    Entries(Hits<'r>),
    /// To `Addr`: the unit's number, if a unit contains the address.
    Unit(Option<u32>),
    /// To `Main`, if the program has one.
    Main(Option<MainName<'r>>),
    /// To `Cache`.
    Cache(CacheSize),
}

/// What is replied to a query at a stage.
#[derive(Clone, Copy)]
pub enum Reply<'r> {
    Answer(Answer<'r>),
    /// The stage is below the one that the query needs.
    Pending,
    /// The file has this first fault.
    Refused(Fault),
    /// The build stopped for want of memory.
    Stopped,
}

/// A reply, and the stage at which it was given.
#[derive(Clone, Copy)]
pub struct Look<'r> {
    /// 0 to 5.
    pub stage: u8,
    pub reply: Reply<'r>,
}
