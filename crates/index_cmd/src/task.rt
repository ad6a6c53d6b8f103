//! What a command line asks for, once the query of its words is read.

ghost use Rattle.std.specs.Prelude.{◌≡◌, ◌<◌, ◌≤◌, Some, option_map};
ghost use Rattle.std.specs.Option.{ForSome};
ghost use Rattle.command_words.specs.SeenWords.{seen_ask, seen_cached, seen_command, seen_look, seen_names, words_of, HasWorkers};
ghost use Rattle.command_words.specs.Words.{query_text};
ghost use Rattle.index_cmd.specs.Requests.{asked, kept, looked, looked_names, requested};
ghost use Rattle.index_cmd.specs.Tasks.{query_words, request_on, request_seen, IsActionInBounds, IsInBounds};

use crate::line::{offered_gdb, offered_name};
use command_words::{Ask, Cached, Command, LookGdb, LookNames};
use index_commands::NamesLook;
use index_forms::IndexForm;
use name_quotes::Spelling;
use query_text::{Question, parse};

/// What is asked for, but for the number of workers.
#[derive(Clone, Copy)]
pub(crate) enum Requested<'w> {
    Help,
    Version,
    /// What is asked of the bytes of a file.
    OnFile(OnFile<'w>),
    /// The sizes of the program that a seed makes of so many units.
    Drill { seed: u32, units: u32 },
}

/// What is asked of the bytes of a file.
#[derive(Clone, Copy)]
pub(crate) struct OnFile<'w> {
    pub file: &'w str,
    pub action: Action<'w>,
}

/// How a session is held.
#[derive(Clone, Copy)]
pub(crate) struct Serving {
    /// It begins after a mark of at least this stage, 0 to 3.
    pub wait: u8,
    /// How names are written.
    pub spelling: Spelling,
}

/// How sessions over a script are held.
#[derive(Clone, Copy)]
pub(crate) struct Racing {
    pub readers: u32,
    /// How names are written.
    pub spelling: Spelling,
}

/// What is done with the bytes of a file, a program's or an index's.
#[derive(Clone, Copy)]
pub(crate) enum Action<'w> {
    Ask(Question<'w>),
    Index {
        form: IndexForm,
        /// The name under which the index is stored.
        out: &'w str,
    },
    Add {
        form: IndexForm,
        /// The name under which the program with its index is stored.
        out: &'w str,
    },
    LookGdb(Question<'w>),
    LookNames {
        look: NamesLook,
        strings: &'w str,
        name: &'w [u8],
    },
    Serve(Serving),
    Race {
        how: Racing,
        script: &'w str,
    },
    Aranges,
    /// The source files with this name.
    Files(&'w str),
    Cached {
        /// What stands before the names of kept indexes.
        store: &'w str,
        question: Question<'w>,
    },
}

/// The words of the query of a command. There are none where it has no query.
pub(crate) fn query_words<'w>(command: &Command<'w>) -> &'w [String]
    ensures { words_of result.now ≡ query_words (seen_command command.now) }
{
    match command {
        Command::Ask(words) => words.query,
        Command::LookGdb(words) => words.query,
        Command::LookNames(words) => words.query,
        Command::Cached(words) => words.query,
        Command::Help
        | Command::Version
        | Command::Index(_)
        | Command::Add(_)
        | Command::Serve(_)
        | Command::Race(_)
        | Command::Drill(_)
        | Command::Aranges(_)
        | Command::Files(_) => &[],
    }
}

/// How many workers a command asks for; 1 where it builds nothing.
pub(crate) fn workers(command: &Command<'_>) -> u32
    requires { HasWorkers command.now }
    ensures some { 0 < result }
    ensures few { result ≤ 64 }
{
    match command {
        Command::Ask(words) => words.workers,
        Command::Index(words) => words.workers,
        Command::Add(words) => words.workers,
        Command::Serve(words) => words.workers,
        Command::Race(words) => words.workers,
        Command::Drill(words) => words.workers,
        Command::Aranges(words) => words.workers,
        Command::Files(words) => words.workers,
        Command::Cached(words) => words.workers,
        Command::Help | Command::Version | Command::LookGdb(_) | Command::LookNames(_) => 1,
    }
}

/// What a command asks for, by the line of its query. None where the command doesn't answer that.
pub(crate) fn task_for<'w>(command: &Command<'w>, line: &'w [u8]) -> Option<Requested<'w>>
    requires line { line.now ≡ query_text (query_words (seen_command command.now)) }
    requires bounds { HasWorkers command.now }
    ensures request { option_map request_seen result ≡ requested (seen_command command.now) }
    ensures bounds { ForSome result IsInBounds }
{
    match command {
        Command::Help => Some(Requested::Help),
        Command::Version => Some(Requested::Version),
        Command::Ask(words) => asked(words, line),
        Command::Index(words) => {
            let (form, out) = (words.form, words.out);
            on_file(words.file, Action::Index { form, out })
        }
        Command::Add(words) => {
            let (form, out) = (words.form, words.out);
            on_file(words.file, Action::Add { form, out })
        }
        Command::LookGdb(words) => looked(words, line),
        Command::LookNames(words) => looked_names(words, line),
        Command::Serve(words) => {
            let (wait, spelling) = (words.wait, words.spelling);
            on_file(words.file, Action::Serve(Serving { wait, spelling }))
        }
        Command::Race(words) => {
            let how = Racing {
                readers: words.readers,
                spelling: words.spelling,
            };
            let script = words.script;
            on_file(words.file, Action::Race { how, script })
        }
        Command::Aranges(words) => on_file(words.file, Action::Aranges),
        Command::Files(words) => on_file(words.file, Action::Files(words.name)),
        Command::Cached(words) => cached(words, line),
        Command::Drill(words) => Some(Requested::Drill {
            seed: words.seed,
            units: words.units,
        }),
    }
}

// What is asked of the bytes of a file.
fn on_file<'w>(file: &'w str, action: Action<'w>) -> Option<Requested<'w>>
    requires { IsActionInBounds action }
    ensures request { option_map request_seen result ≡ Some (request_on file.now action.entry) }
    ensures bounds { ForSome result IsInBounds }
{
    Some(Requested::OnFile(OnFile { file, action }))
}

// A query of a program file.
fn asked<'w>(words: &Ask<'w>, line: &'w [u8]) -> Option<Requested<'w>>
    requires { line.now ≡ query_text (seen_ask words.now).query }
    ensures request { option_map request_seen result ≡ asked (seen_ask words.now) }
    ensures bounds { ForSome result IsInBounds }
{
    let query = parse(line)?;
    let spelling = words.spelling;
    on_file(words.file, Action::Ask(Question { query, spelling }))
}

// A query of a `.gdb_index`.
fn looked<'w>(words: &LookGdb<'w>, line: &'w [u8]) -> Option<Requested<'w>>
    requires { line.now ≡ query_text (seen_look words.now).query }
    ensures request { option_map request_seen result ≡ looked (seen_look words.now) }
    ensures bounds { ForSome result IsInBounds }
{
    let query = offered_gdb(line)?;
    let spelling = words.spelling;
    on_file(words.index, Action::LookGdb(Question { query, spelling }))
}

// A query of an index that may be kept.
fn cached<'w>(words: &Cached<'w>, line: &'w [u8]) -> Option<Requested<'w>>
    requires { line.now ≡ query_text (seen_cached words.now).query }
    ensures request { option_map request_seen result ≡ kept (seen_cached words.now) }
    ensures bounds { ForSome result IsInBounds }
{
    let query = offered_gdb(line)?;
    let (store, spelling) = (words.store, words.spelling);
    let question = Question { query, spelling };
    on_file(words.file, Action::Cached { store, question })
}

// A query of a `.debug_names`.
fn looked_names<'w>(words: &LookNames<'w>, line: &'w [u8]) -> Option<Requested<'w>>
    requires { line.now ≡ query_text (seen_names words.now).query }
    ensures request { option_map request_seen result ≡ looked_names (seen_names words.now) }
    ensures bounds { ForSome result IsInBounds }
{
    let name = offered_name(line)?;
    Some(Requested::OnFile(OnFile {
        file: words.index,
        action: Action::LookNames {
            look: NamesLook {
                base: words.base,
                spelling: words.spelling,
            },
            strings: words.strings,
            name,
        },
    }))
}
