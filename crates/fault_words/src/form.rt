//! The grammar of the command line, as data.

/// What stands for a value.
#[derive(Clone, Copy)]
pub(crate) enum ArgumentKind {
    /// A word that isn't empty and doesn't begin with `--`.
    File,
    /// A decimal number without a sign or a leading zero.
    Number { low: u32, high: u32 },
    /// The kind of an index.
    Index,
    /// The rules by which its entries are listed.
    Rules,
    /// Nothing: the option is there or isn't.
    Flag,
}

/// An option or an operand.
#[derive(Clone, Copy)]
pub struct Argument {
    pub name: &'static str,
    pub(crate) kind: ArgumentKind,
    /// The kind in words.
    pub takes: &'static str,
    /// Whether it has to be there, of an option.
    pub is_needed: bool,
}

/// The words of a command, in their order: its options, its operands and its query.
#[derive(Clone, Copy)]
pub struct Form {
    pub command: &'static str,
    /// The second word of the command, empty where it has none.
    pub second: &'static str,
    pub(crate) options: &'static [Argument],
    pub(crate) operands: &'static [Argument],
    /// The first words of its queries.
    pub(crate) queries: &'static [&'static str],
}

const FILE: &str = "the name of a file, which doesn't begin with --";

// The name of a file.
macro_rules! file {
    ($name:literal) => {
        Argument { name: $name, kind: ArgumentKind::File, takes: FILE, is_needed: true }
    };
}

// A number within bounds.
macro_rules! number {
    ($name:literal $low:literal $high:literal $takes:literal) => {
        Argument { name: $name, kind: ArgumentKind::Number { low: $low, high: $high }, takes: $takes, is_needed: false }
    };
}

const KIND: Argument = Argument {
    name: "--as",
    kind: ArgumentKind::Index,
    takes: "gdb8, gdb9 or names",
    is_needed: true,
};

const RULES: Argument = Argument {
    name: "--rules",
    kind: ArgumentKind::Rules,
    takes: "gdb",
    is_needed: false,
};

const QUOTE: Argument = Argument {
    name: "--quote",
    kind: ArgumentKind::Flag,
    takes: "",
    is_needed: false,
};

const WORKERS: Argument = number!("--workers" 1 64 "a number from 1 to 64");

const READERS: Argument = number!("--readers" 1 16 "a number from 1 to 16");

const WAIT: Argument = number!("--wait" 0 3 "a number from 0 to 3");

const BASE: Argument = number!("--base" 0 4294967295 "a number from 0 to 4294967295");

const SEED: Argument = number!("SEED" 0 4294967295 "a number from 0 to 4294967295");

const UNITS: Argument = number!("UNITS" 1 100000 "a number from 1 to 100000");

const N: Argument = number!("N" 1 64 "a number from 1 to 64");

// Rows of the table: the command, its second word, its options, operands and queries.
macro_rules! forms {
    ($($command:literal $second:literal $options:expr; $operands:expr; $queries:expr;)+) => {
        [$(Form { command: $command, second: $second, options: $options, operands: $operands, queries: $queries }),+]
    };
}

/// All commands but `--help` and `--version`.
pub(crate) static FORMS: [Form; 11] = forms! {
    "ask" "" &[WORKERS, QUOTE]; &[file!("FILE")]; &["name", "simple", "addr", "main", "cache"];
    "index" "" &[KIND, RULES, WORKERS]; &[file!("FILE"), file!("OUT")]; &[];
    "add" "" &[KIND, RULES, WORKERS]; &[file!("FILE"), file!("OUT")]; &[];
    "aranges" "" &[WORKERS]; &[file!("FILE")]; &[];
    "files" "" &[WORKERS]; &[file!("FILE"), file!("NAME")]; &[];
    "cached" "" &[WORKERS, QUOTE]; &[file!("FILE"), file!("STORE")]; &["name", "addr", "main"];
    "look" "gdb" &[QUOTE]; &[file!("INDEX")]; &["name", "addr", "main"];
    "look" "names" &[BASE, QUOTE]; &[file!("INDEX"), file!("STRINGS")]; &["name"];
    "serve" "" &[WORKERS, WAIT, QUOTE]; &[file!("FILE")]; &[];
    "race" "" &[WORKERS, READERS, QUOTE]; &[file!("FILE"), file!("SCRIPT")]; &[];
    "drill" "" &[]; &[SEED, UNITS, N]; &[];
};
