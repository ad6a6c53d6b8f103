//! Which word of a command line isn't in the grammar.

use crate::form::{Argument, ArgumentKind, FORMS, Form};
use std::fmt;

/// What is wrong with the words of a command line, the first thing from the left.
#[derive(Clone, Copy)]
pub enum Usage<'w> {
    NoCommand,
    UnknownCommand(&'w str),
    /// What a command, an option or a query lacks.
    Missing(&'static str, &'static str),
    BadValue(Argument, &'w str),
    /// A word like an option that isn't one here.
    Misplaced(&'static str, &'w str),
    /// A word behind the last.
    Extra(&'w str),
    UnknownQuery(&'w str),
    BadAddress(&'w str),
    /// gdb's rules for a `.debug_names`.
    RulesOfNames,
    /// Nothing of these.
    Other,
}

/// The first word from the left that keeps the words out of the grammar.
pub fn usage_of(words: &[String]) -> Usage<'_> {
    match check(words) {
        Ok(()) => Usage::Other,
        Err(usage) => usage,
    }
}

fn check(words: &[String]) -> Result<(), Usage<'_>> {
    let (form, others) = form_of(words)?;
    check_rules(others)?;
    let others = skip_options(form, others)?;
    let others = skip_operands(form, others)?;
    check_query(form, others)
}

// gdb's rules are of the `.gdb_index` alone.
fn check_rules(words: &[String]) -> Result<(), Usage<'_>> {
    match words {
        [option, kind, rules, ..]
            if option.as_str() == "--as"
                && kind.as_str() == "names"
                && rules.as_str() == "--rules" => { Err(Usage::RulesOfNames) }
        _ => Ok(()),
    }
}

fn skip_options<'w>(form: &'static Form, words: &'w [String]) -> Result<&'w [String], Usage<'w>> {
    let mut others = words;
    for value in form.options {
        others = skip_option(form, *value, others)?;
    }
    Ok(others)
}

fn skip_operands<'w>(form: &'static Form, words: &'w [String]) -> Result<&'w [String], Usage<'w>> {
    let mut others = words;
    for value in form.operands {
        others = skip_operand(form, *value, others)?;
    }
    Ok(others)
}

// The form of the command, and the words behind it.
fn form_of(words: &[String]) -> Result<(&'static Form, &[String]), Usage<'_>> {
    let (word, others) = words.split_first().ok_or(Usage::NoCommand)?;
    let command = word.as_str();
    if command == "look" {
        let (second, others) = others.split_first().ok_or(NO_SECOND)?;
        let form = form_named(command, second.as_str()).ok_or(NO_SECOND)?;
        return Ok((form, others));
    }
    let form = form_named(command, "").ok_or(Usage::UnknownCommand(command))?;
    Ok((form, others))
}

const NO_SECOND: Usage<'static> = Usage::Missing("look", "gdb or names");

pub(crate) fn form_named(command: &str, second: &str) -> Option<&'static Form> {
    FORMS
        .iter()
        .find(|form| form.command == command && form.second == second)
}

fn skip_option<'w>(
    form: &'static Form,
    value: Argument,
    words: &'w [String],
) -> Result<&'w [String], Usage<'w>> {
    match words.split_first() {
        Some((word, others)) if word.as_str() == value.name => skip_value(value, others),
        _ if value.is_needed => Err(Usage::Missing(form.command, value.name)),
        _ => Ok(words),
    }
}

fn skip_value(value: Argument, words: &[String]) -> Result<&[String], Usage<'_>> {
    if matches!(value.kind, ArgumentKind::Flag) {
        return Ok(words);
    }
    let (word, others) = words
        .split_first()
        .ok_or(Usage::Missing(value.name, value.takes))?;
    if !fits(value.kind, word.as_str()) {
        return Err(Usage::BadValue(value, word.as_str()));
    }
    Ok(others)
}

fn skip_operand<'w>(
    form: &'static Form,
    value: Argument,
    words: &'w [String],
) -> Result<&'w [String], Usage<'w>> {
    let (word, others) = words
        .split_first()
        .ok_or(Usage::Missing(form.command, value.name))?;
    if word.as_str().starts_with("--") {
        return Err(Usage::Misplaced(form.command, word.as_str()));
    }
    if !fits(value.kind, word.as_str()) {
        return Err(Usage::BadValue(value, word.as_str()));
    }
    Ok(others)
}

fn fits(kind: ArgumentKind, word: &str) -> bool {
    match kind {
        ArgumentKind::File => !word.is_empty() && !word.starts_with("--"),
        ArgumentKind::Number { low, high } => is_number(word, low, high),
        ArgumentKind::Index => word == "gdb8" || word == "gdb9" || word == "names",
        ArgumentKind::Rules => word == "gdb",
        ArgumentKind::Flag => false,
    }
}

fn is_number(word: &str, low: u32, high: u32) -> bool {
    let is_plain = !word.starts_with('+') && (word == "0" || !word.starts_with('0'));
    match word.parse::<u32>() {
        Ok(number) => is_plain && low <= number && number <= high,
        Err(_) => false,
    }
}

fn check_query<'w>(form: &'static Form, words: &'w [String]) -> Result<(), Usage<'w>> {
    match words.split_first() {
        None if form.queries.is_empty() => Ok(()),
        None => Err(Usage::Missing(form.command, "QUERY")),
        Some(_) if form.queries.is_empty() => check_end(words),
        Some((word, others)) => check_offered(form, word.as_str(), others),
    }
}

fn check_offered<'w>(
    form: &'static Form,
    word: &'w str,
    others: &'w [String],
) -> Result<(), Usage<'w>> {
    let query = form
        .queries
        .iter()
        .find(|query| **query == word)
        .ok_or(Usage::UnknownQuery(word))?;
    match *query {
        "main" | "cache" => check_end(others),
        "addr" => check_address(others),
        _ => check_name(query, others),
    }
}

fn check_end(words: &[String]) -> Result<(), Usage<'_>> {
    match words.first() {
        Some(word) => Err(Usage::Extra(word.as_str())),
        None => Ok(()),
    }
}

// The words behind `addr`, of which something is wrong.
fn check_address(words: &[String]) -> Result<(), Usage<'_>> {
    match words {
        [] => Err(Usage::Missing("addr", "HEX")),
        [word] => Err(Usage::BadAddress(word.as_str())),
        [_, word, ..] => Err(Usage::Extra(word.as_str())),
    }
}

// The words of a name, of which there is at least one byte.
fn check_name<'w>(query: &'static str, words: &'w [String]) -> Result<(), Usage<'w>> {
    match words {
        [] => Err(Usage::Missing(query, "NAME")),
        [word] if word.is_empty() => Err(Usage::Missing(query, "NAME")),
        _ => Ok(()),
    }
}

impl fmt::Display for Usage<'_> {
    fn fmt<W: fmt::Write>(&self, f: &mut fmt::Formatter<W>) -> fmt::Result {
        match *self {
            Usage::NoCommand => write!(f, "no command"),
            Usage::UnknownCommand(word) => write!(f, "unknown command '{word}'"),
            Usage::Missing(what, lacks) => write!(f, "{what} lacks {lacks}"),
            Usage::BadValue(value, word) => {
                let name = value.name;
                let takes = value.takes;
                write!(f, "{name} is {takes}, not '{word}'")
            }
            Usage::Misplaced(command, word) => {
                write!(
                    f,
                    "'{word}' isn't an option of {command}, or stands in another place"
                )
            }
            Usage::Extra(word) => write!(f, "'{word}' is a word too many"),
            Usage::UnknownQuery(word) => write!(f, "unknown query '{word}'"),
            Usage::BadAddress(word) => {
                write!(
                    f,
                    "an address is 1 to 16 hexadecimal digits without 0x, not '{word}'"
                )
            }
            Usage::RulesOfNames => write!(f, "with --rules gdb, --as is gdb8 or gdb9, not 'names'"),
            Usage::Other => write!(f, "the words aren't in the grammar"),
        }
    }
}
