//! A name that is being read and written anew.

ghost use Rattle.std.specs.Prelude.{◌≡◌, [], IfOk, option_map, Some, None, Ok, if◌then◌else◌};
ghost use Rattle.cxx_spelling.specs.Seen.{seen, Reaches, Runs, stacked};
ghost use Rattle.cxx_spelling.specs.Rules.{rule};
ghost use Rattle.std.specs.List.{filter};
ghost use Rattle.cxx_spelling.specs.Translation.{is_written, begun, expanded, closed, performed, step, finished, run, translation};

use crate::integers::{IntegerWords, NO_WORDS};
use crate::kind::Kind;
use crate::qualifiers::{NO_QUALIFIERS, Qualifiers};
use crate::release::Release;
use crate::rules::rule;
use crate::symbol::{Action, FunctionSymbol, Nonterminal, Symbol};
use crate::token::{Token, first_token};
use std::alloc::{AllocError, Global};

/// How far a step has come.
#[derive(Clone, Copy)]
pub(crate) enum Progress {
    /// Something is still to be done.
    Going,
    /// Nothing is left to be done.
    Finished,
    /// No rule takes the next token.
    Refused,
}

/// A name that is being read and written anew.
#[derive(Drop)]
pub(crate) struct Translation<'n> {
    /// Whose spelling it becomes.
    pub(crate) release: Release,
    /// The next token, and what stands behind it.
    pub(crate) token: Token<'n>,
    /// What has been written.
    pub(crate) out: Vec<u8>,
    /// The set of qualifiers that is open, and those around it, the outermost first.
    pub(crate) qualifiers: Qualifiers,
    pub(crate) outer: Vec<Qualifiers>,
    /// The words of an integer type.
    pub(crate) words: IntegerWords,
    /// The places of what has been written where a byte may still come, the last one behind.
    pub(crate) gaps: Vec<usize>,
    /// What is still to come of the rule that was begun last, and of the rules before it, the first one first.
    pub(crate) current: &'static [Symbol],
    pub(crate) pending: Vec<&'static [Symbol]>,
}

/// The longest name that is read, in bytes.
const MAX_LENGTH: usize = 1_048_576;

/// What a whole name is.
const WHOLE: &[Symbol] = &[Symbol::Expand(Nonterminal::Functions(FunctionSymbol::Start))];

impl<'n> Translation<'n> {
    fn begin(alloc: Global, release: Release, name: &'n [u8]) -> Result<Translation<'n>, AllocError>
        ensures { IfOk result (λ translation. seen translation ≡ begun release name.now) }
    {
        Ok(Translation {
            release,
            token: first_token(name),
            out: Vec::with_capacity(alloc, name.len())?,
            qualifiers: NO_QUALIFIERS,
            outer: Vec::new(alloc),
            words: NO_WORDS,
            gaps: Vec::new(alloc),
            current: WHOLE,
            pending: Vec::new(alloc),
        })
    }

    // A rule has come to its end: the one before it goes on.
    #[tactic(auto, using(crate::proofs::StackLaws::stacked_push))]
    fn close(&mut self) -> Progress
        requires { self.old.current.now ≡ [] }
        ensures { Reaches (seen self.new) (Ok result) (closed (stacked (λ symbols. symbols.now) self.old.pending.items) (seen self.old)) }
    {
        match self.pending.pop() {
            None => Progress::Finished,
            Some(symbols) => {
                self.current = symbols;
                Progress::Going
            }
        }
    }

    // A symbol becomes what its rule says.
    #[tactic(auto, using(crate::proofs::StackLaws::stacked_push))]
    fn expand(&mut self, symbol: Nonterminal) -> Result<Progress, AllocError>
        ensures { Reaches (seen self.new) result (expanded (rule self.old.release symbol self.old.token.kind) (seen self.old)) }
    {
        match rule(self.release, symbol, self.token.kind) {
            None => Ok(Progress::Refused),
            Some(symbols) => {
                self.pending.push(self.current)?;
                self.current = symbols;
                Ok(Progress::Going)
            }
        }
    }

    // What a symbol stands for is done.
    fn perform(&mut self, symbol: Symbol) -> Result<Progress, AllocError>
        ensures { Reaches (seen self.new) result (performed symbol (seen self.old)) }
    {
        match symbol {
            Symbol::Do(action) => self.act(action),
            Symbol::Expand(symbol) => self.expand(symbol),
        }
    }

    // The next step.
    fn step(&mut self) -> Result<Progress, AllocError>
        ensures { Reaches (seen self.new) result (step (seen self.old)) }
    {
        match self.current.split_first() {
            None => Ok(self.close()),
            Some((symbol, symbols)) => {
                self.current = symbols;
                self.perform(*symbol)
            }
        }
    }

    // Whether the whole name was taken.
    fn is_whole(&self) -> bool
        ensures { finished (seen self.now) ≡ (if result then Some (filter is_written self.now.out.items) else None) }
    {
        match self.token.kind {
            Kind::End => true,
            _ => false,
        }
    }

    // Steps are made until nothing is left, or the name is refused, or as many as any name needs are made.
    #[tactic(auto, using(crate::proofs::RunLaws::run_going, crate::proofs::RunLaws::run_refused, crate::proofs::RunLaws::run_whole))]
    fn run(&mut self, steps: usize) -> Result<bool, AllocError>
        ensures { Runs (seen self.new) result (run steps (seen self.old)) }
    {
        for _made in 0..steps {
            match self.step()? {
                Progress::Going => {}
                Progress::Finished => return Ok(self.is_whole()),
                Progress::Refused => return Ok(false),
            }
        }
        Ok(false)
    }
}

// What was written, without the gaps that stayed.
fn without_gaps(text: Vec<u8>) -> Vec<u8>
    ensures { result.items ≡ filter is_written text.items }
{
    let mut text = text;
    text.retain(|b| *b != 0);
    text
}

/// A name written anew. None where it stands as it is.
#[tactic(auto, unfolding(crate::specs::Translation::translation))]
pub(crate) fn translated(
    alloc: Global,
    release: Release,
    name: &[u8],
) -> Result<Option<Vec<u8>>, AllocError>
    ensures { IfOk result (λ text. option_map (λ bytes. bytes.items) text ≡ translation release name.now) }
{
    if name.len() > MAX_LENGTH {
        return Ok(None);
    }
    let mut name_anew = Translation::begin(alloc, release, name)?;
    if name_anew.run(32 * name.len() + 64)? {
        Ok(Some(without_gaps(name_anew.out)))
    } else {
        Ok(None)
    }
}
