//! The words of the command that tries the index of a generated program.

ghost use Rattle.std.specs.Prelude.{◌≡◌, option_map};
ghost use Rattle.std.specs.Option.{ForSome};
ghost use Rattle.command_words.specs.DrillWords.{drill_numbers, drill_of};
ghost use Rattle.command_words.specs.SeenWords.{seen_drill, words_of, IsDrill};

use crate::number::number;
use crate::options::WORKERS;

/// `drill SEED UNITS N`.
#[derive(Clone, Copy)]
pub struct Drill {
    pub seed: u32,
    /// How many units the program has, 1 to 100,000.
    pub units: u32,
    pub workers: u32,
}

const MAX_UNITS: u32 = 100_000;

pub(crate) fn parse_drill(words: &[String]) -> Option<Drill>
    ensures value { option_map seen_drill result ≡ drill_of (words_of words.now) }
    ensures range { ForSome result IsDrill }
{
    let (seed, words) = words.split_first()?;
    let (units, words) = words.split_first()?;
    let (workers, words) = words.split_first()?;
    if !words.is_empty() {
        return None;
    }
    drill_numbers(seed.as_str(), units.as_str(), workers.as_str())
}

// A seed, a number of units and one of workers.
fn drill_numbers(seed: &str, units: &str, workers: &str) -> Option<Drill>
    ensures value { option_map seen_drill result ≡ drill_numbers seed.now units.now workers.now }
    ensures range { ForSome result IsDrill }
{
    let seed = number(seed.as_bytes(), 0, u32::MAX)?;
    let units = number(units.as_bytes(), 1, MAX_UNITS)?;
    let workers = number(workers.as_bytes(), WORKERS.low, WORKERS.high)?;
    Some(Drill {
        seed,
        units,
        workers,
    })
}
