//! The table of statuses: what is said of a run that ended otherwise than with an answer.

/// Which words of the command line a sentence speaks of.
#[derive(Clone, Copy)]
pub enum FilesMeant {
    Nothing,
    /// The files that are read.
    Read,
    /// The file that is stored.
    Stored,
}

/// An end of the program: its status, and what is said of it where no fault with a code says more.
#[derive(Clone, Copy)]
pub struct StatusText {
    pub status: u8,
    pub about: FilesMeant,
    pub sentence: &'static str,
    pub remedy: &'static str,
}

// Rows of the table: the status, what it speaks of, the sentence and the remedy.
macro_rules! ends {
    ($($status:literal $about:ident $sentence:literal $remedy:literal;)+) => {
        [$(StatusText { status: $status, about: FilesMeant::$about, sentence: $sentence, remedy: $remedy }),+]
    };
}

/// All statuses but 0 and 2. The first stands for a status that isn't in the table.
pub static ENDS: [StatusText; 15] = ends! {
    255 Nothing "the program ended with an unknown status" "please report it";
    1 Read "the debug information is refused" "gdbix ask FILE main says why";
    3 Read "can't be read" "see that it is there, is a file, and that you may read it";
    4 Stored "can't be stored" "see that its folder is there, that you may write it, and that the disk has room";
    5 Nothing "standard output can't be written" "see that the disk has room and that nobody closed the pipe";
    6 Nothing "standard input can't be read" "see what it is connected to";
    7 Nothing "out of memory" "programs that were measured took 4 to 6 times the length of .debug_info; the replies of race have 1 GiB, and so do texts that entries share";
    8 Read "the index is refused" "make the index again with gdbix index";
    9 Nothing "the index is too large for its format" "no remedy: an index has at most 4 GiB";
    10 Read "too big: a file has at most 1,073,741,824 bytes, a script 1,048,576" "strip what isn't debug information with objcopy --only-keep-debug";
    11 Nothing "a line has more than 65,536 bytes, or the input 4,294,967,296" "split the input";
    12 Read "already has such an index" "remove it with objcopy --remove-section .gdb_index or .debug_names";
    13 Read "no room for one more section: a program has at most 65,279" "store the index beside it with gdbix index";
    14 Read "the address table is refused" "see readelf --debug-dump=aranges";
    15 Read "a line table is refused" "see readelf --debug-dump=rawline";
};

/// What is said of a status.
pub(crate) fn end_of(status: u8) -> &'static StatusText {
    ENDS.iter()
        .find(|end| end.status == status)
        .unwrap_or(&ENDS[0])
}
