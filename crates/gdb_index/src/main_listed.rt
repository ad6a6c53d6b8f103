//! Main in an index of the entries that gdb lists.

ghost use Rattle.std.specs.Prelude.{◌≡◌, option_map};
ghost use Rattle.std.specs.List.{list_any};
ghost use Rattle.index_model.specs.Answers.{is_named};
ghost use Rattle.index_model.specs.Seen.{main_seen};
ghost use Rattle.gdb_index.specs.Indexes.{main_listed};

use index_model::{Entry, Main, MainName};

/// Main, where one of the entries has its name.
pub(crate) fn main_listed<'r>(
    main: &'r Option<Main<'_>>,
    entries: &[Entry<'_>],
) -> Option<MainName<'r>>
    ensures { option_map main_seen result ≡ main_listed entries.now main.now }
{
    match main {
        Some(main) => {
            let name = main.name.bytes();
            is_listed(name, entries).then_some(MainName {
                language: main.language,
                name,
            })
        }
        None => None,
    }
}

// Whether an entry has this name.
fn is_listed(name: &[u8], entries: &[Entry<'_>]) -> bool
    ensures { result ≡ list_any (is_named name.now) entries.now }
{
    entries.iter().any(|entry| entry.name.bytes() == name)
}
