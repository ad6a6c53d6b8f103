//! The help of each command.

/// The help of a command.
#[derive(Clone, Copy)]
struct Help {
    command: &'static str,
    text: &'static str,
}

const ASK: &str = "\
usage: gdbix ask [--workers N] [--quote] FILE QUERY

Builds the symbol index of FILE and answers QUERY from it:
  name NAME    the entries with this name: scopes before it in C++ and Ada
  simple NAME  the entries with this name, whatever their scope
  addr HEX     the unit that the address lies in
  main         the language and the name of the main program
  cache        the length of the .gdb_index
An entry is a line UNIT OFFSET TAG KIND SCOPE WAY NAME; readelf -wi shows the
entry at <OFFSET>. 'found 0' and 'none' are answers, with status 0.
With --quote a control byte or a backslash of a name is written as \\xHH.
N is the number of workers, 1 to 64, by default 4; no answer depends on it.

  gdbix ask app name main
  gdbix ask app addr 401136
";

const INDEX: &str = "\
usage: gdbix index --as KIND [--rules gdb] [--workers N] FILE OUT

Stores the symbol index of FILE in OUT: a .gdb_index section of version 8 or 9
where KIND is gdb8 or gdb9, a .debug_names section where it is names, with the
strings to be appended to .debug_str in OUT.debug_str.
With --rules gdb a .gdb_index lists what gdb itself lists in one, so that gdb
finds with it what it finds without: inlined functions, Ada's names and more.
N is the number of workers, 1 to 64, by default 4; no answer depends on it.

  gdbix index --as gdb8 app app.idx
";

const ADD: &str = "\
usage: gdbix add --as KIND [--rules gdb] [--workers N] FILE OUT

Stores FILE in OUT with its symbol index as a section of it, as gdb-add-index
does: .gdb_index where KIND is gdb8 or gdb9, .debug_names where it is names.
OUT may be FILE itself. gdb 13 uses gdb8; it doesn't know gdb9.
With --rules gdb a .gdb_index lists what gdb itself lists in one.
N is the number of workers, 1 to 64, by default 4; no answer depends on it.

  gdbix add --as gdb8 app app
";

const ARANGES: &str = "\
usage: gdbix aranges [--workers N] FILE

Says whether .debug_aranges of FILE agrees with the ranges of its units:
'agrees', or 'differs ADDRESS A B', the least address with two answers, the
unit A by the table and the unit B by its own ranges, each a number or none.
N is the number of workers, 1 to 64, by default 4; no answer depends on it.

  gdbix aranges app
";

const FILES: &str = "\
usage: gdbix files [--workers N] FILE NAME

Lists the units of FILE whose line tables name the source file NAME, the whole
path or what follows its last slash. A line is UNIT INDEX DIR FILE: the unit,
the file's index in its table, the number of its directory, and its path.
N is the number of workers, 1 to 64, by default 4; no answer depends on it.

  gdbix files app stdio.h
";

const CACHED: &str = "\
usage: gdbix cached [--workers N] [--quote] FILE STORE QUERY

Answers QUERY (name NAME, addr HEX or main) as look gdb does, from the index
that is kept for FILE by its build-id, in the file named STORE, the build-id
and .gdb-index, all joined: end STORE with a slash to name a folder, which has
to be there. Where none is kept, or what is kept isn't FILE's, it builds one
and keeps it. The first line says which: hit, stale CODE PLACE, stored,
unsaved.
With --quote a control byte or a backslash of a name is written as \\xHH.
N is the number of workers, 1 to 64, by default 4; no answer depends on it.

  gdbix cached app idx/ name main
";

const LOOK: &str = "\
usage: gdbix look gdb [--quote] INDEX QUERY
       gdbix look names [--base B] [--quote] INDEX STRINGS QUERY

look gdb answers from the .gdb_index section in INDEX, of version 8 or 9.
QUERY is name NAME, addr HEX or main. An element is a line UNIT KIND SCOPE NAME.

look names answers from the .debug_names section in INDEX, whose names stand
in STRINGS, the .debug_str section from its byte B on, by default from 0; of
what 'index --as names' stored B is the length of the program's .debug_str.
QUERY is name NAME. An entry is a line SORT UNIT OFFSET TAG NAME.

With --quote a control byte or a backslash of a name is written as \\xHH.

  objcopy -O binary --only-section=.gdb_index \\
    --set-section-flags .gdb_index=alloc app app.idx
  gdbix look gdb app.idx name main
";

const SERVE: &str = "\
usage: gdbix serve [--workers N] [--wait S] [--quote] FILE

Answers the queries on the lines of standard input while the index of FILE is
built. Before each answer stands the stage: 0 begun, 1 main and addresses,
2 names, 3 all, 4 refused, 5 out of memory; before its stage a query is
answered 'pending'. The first answer waits for stage S, 0 to 3, by default 0.
With --quote a control byte or a backslash of a name is written as \\xHH.
N is the number of workers, 1 to 64, by default 4; no answer depends on it.

  printf 'main\\nname main\\n' | gdbix serve --wait 3 app
";

const RACE: &str = "\
usage: gdbix race [--workers N] [--readers M] [--quote] FILE SCRIPT

Answers the lines of SCRIPT as serve does, for M readers at once, M being 1 to
16, by default 2, while the index of FILE is built, and once more for each of
them when it is built.
With --quote a control byte or a backslash of a name is written as \\xHH.
N is the number of workers, 1 to 64, by default 4; no answer depends on it.

  gdbix race app lines
";

const DRILL: &str = "\
usage: gdbix drill SEED UNITS N

Makes a program of UNITS units, 1 to 100000, whose references SEED decides,
indexes it with N workers, 1 to 64, and writes how many units, entries and
names it has, and how many bytes its indexes.

  gdbix drill 7 1000 4
";

// Rows of the table: a command and its text.
macro_rules! helps {
    ($($command:literal $text:expr;)+) => {
        [$(Help { command: $command, text: $text }),+]
    };
}

static HELPS: [Help; 10] = helps! {
    "ask" ASK;
    "index" INDEX;
    "add" ADD;
    "aranges" ARANGES;
    "files" FILES;
    "cached" CACHED;
    "look" LOOK;
    "serve" SERVE;
    "race" RACE;
    "drill" DRILL;
};

/// The text that the words ask for, where they ask for the help of a command: of the one before `--help` or `-h`.
pub fn help_for(words: &[String]) -> Option<&'static str> {
    match words {
        [command, word] if asks(word.as_str()) => help_of(command.as_str()),
        [command, _, word] if command.as_str() == "look" && asks(word.as_str()) => Some(LOOK),
        _ => None,
    }
}

fn asks(word: &str) -> bool {
    word == "--help" || word == "-h"
}

fn help_of(command: &str) -> Option<&'static str> {
    let help = HELPS.iter().find(|help| help.command == command)?;
    Some(help.text)
}

/// The name of a command that has a help; empty for another word.
pub(crate) fn help_name(command: &str) -> &'static str {
    match HELPS.iter().find(|help| help.command == command) {
        Some(help) => help.command,
        None => "",
    }
}
