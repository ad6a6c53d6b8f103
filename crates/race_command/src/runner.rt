//! A reader of a race, and its sessions.

ghost use Rattle.std.specs.Prelude.{◌≡◌, ◌<◌, ◌≤◌, ◌+◌, ◌-◌, ◌^◌, ◌++◌, [], length, min, codes, IfOk, OnOk};
ghost use Rattle.race_command.specs.Runners.{head_of, round_word, session_in, Answered, IsHeld};
ghost use Rattle.race_command.specs.declared.script.TheConstants.{MAX_SCRIPT_BYTES};

use crate::script::Script;
use crate::transcript::Transcript;
use index_board::Reader;
use ix_base::NoMemory;
use name_quotes::Spelling;
use outside::{Failed, Gate, write_all};
use query_text::{LineBuf, SessionFault, session};
use std::alloc::Global;
use std::sync::Wait;

/// Which session of a reader.
#[derive(Clone, Copy)]
pub(crate) enum Round {
    /// The one during the build.
    During,
    /// The one after it.
    After,
}

/// What a session wrote, behind the line of its reader's number, and how it ended.
#[derive(Drop)]
pub(crate) struct Session {
    pub text: Transcript,
    pub ended: Result<(), SessionFault>,
}

/// A reader, the most bytes of each of its sessions, the room for its lines, and both sessions.
#[derive(Drop)]
pub(crate) struct Runner<'b, 'f> {
    pub alloc: Global,
    pub share: usize,
    pub reader: Reader<'b, 'f>,
    pub line: LineBuf,
    pub during: Session,
    pub after: Session,
}

impl<'b, 'f> Runner<'b, 'f> {
    /// A reader whose sessions are still to come.
    pub(crate) fn new(alloc: Global, share: usize, reader: Reader<'b, 'f>) -> Result<Self, NoMemory>
        ensures reader { IfOk result (λ runner. runner.reader ≡ reader.entry) }
        ensures share { IfOk result (λ runner. runner.share ≡ share) }
    {
        Ok(Runner {
            alloc,
            share,
            reader,
            line: LineBuf::new(alloc)?,
            during: nothing(alloc),
            after: nothing(alloc),
        })
    }

    /// Answers the lines of the script, as the session of a round. May wait. The number is that of the reader.
    pub(crate) fn answer<R: Wait, G: Gate>(
        &mut self,
        rt: &R,
        round: Round,
        number: usize,
        spelling: Spelling,
        script: &[u8],
        gate: &G,
    )
        requires script { length script.now ≤ MAX_SCRIPT_BYTES }
        requires few { number < 16 }
        ensures { Answered spelling round number script.now self.old self.new }
    {
        let session = self.hold(rt, round, number, spelling, script, gate);
        match round {
            Round::During => self.during = session,
            Round::After => self.after = session,
        }
    }

    // A session over the script, behind the line of its reader's number.
    fn hold<R: Wait, G: Gate>(
        &mut self,
        rt: &R,
        round: Round,
        number: usize,
        spelling: Spelling,
        script: &[u8],
        gate: &G,
    ) -> Session
        requires script { length script.now ≤ MAX_SCRIPT_BYTES }
        requires few { number < 16 }
        ensures board { self.new.reader.board ≡ self.old.reader.board }
        ensures during { self.new.during ≡ self.old.during }
        ensures held { IsHeld spelling self.old.reader.board.subject script.now (head_of round number) self.old.reader.pass.floor self.new.reader.pass.floor result }
    {
        let mut text = Transcript::new(self.alloc, self.share);
        if begin(self.alloc, &mut text, round, number).is_err() {
            return Session {
                text,
                ended: Err(SessionFault::NoMemory),
            };
        }
        let mut input = Script::new(script);
        let ended = session(
            rt,
            number as u32,
            spelling,
            &mut self.reader,
            &mut input,
            &mut text,
            &mut self.line,
            gate,
        );
        Session { text, ended }
    }

    /// How many bytes both sessions hold.
    pub(crate) fn held(&self) -> u64
        ensures { result ≡ min (length self.now.during.text.bytes + length self.now.after.text.bytes) (2 ^ 64 - 1) }
    {
        let during = self.during.text.bytes().len() as u64;
        during.saturating_add(self.after.text.bytes().len() as u64)
    }

    /// The session of a round.
    pub(crate) fn session(&self, round: Round) -> &Session
        ensures { result.now ≡ session_in round self.now }
    {
        match round {
            Round::During => &self.during,
            Round::After => &self.after,
        }
    }
}

// A session that was not held.
fn nothing(alloc: Global) -> Session {
    Session {
        text: Transcript::new(alloc, 0),
        ended: Ok(()),
    }
}

// Writes the word of the round and the number of the reader on a line.
//
// # Errors
//
// `NoMemory` where memory was refused, or the transcript may not hold it.
fn begin(alloc: Global, text: &mut Transcript, round: Round, number: usize) -> Result<(), NoMemory>
    requires { text.old.bytes ≡ [] }
    ensures { OnOk result (text.new.bytes ≡ head_of round number) }
{
    let number = number.to_string(alloc)?;
    put(text, word(round))?;
    put(text, number.as_bytes())?;
    put(text, b"\n")
}

// Appends the bytes. To a session a limit that is reached is want of memory.
fn put(text: &mut Transcript, bytes: &[u8]) -> Result<(), NoMemory>
    ensures { OnOk result (text.new.bytes ≡ text.old.bytes ++ bytes.now) }
{
    match write_all(text, bytes) {
        Ok(()) => Ok(()),
        Err(Failed) => Err(NoMemory),
    }
}

// The word of the round, and a space.
fn word(round: Round) -> &'static [u8]
    ensures { result.now ≡ round_word round ++ codes " " }
{
    match round {
        Round::During => b"during ",
        Round::After => b"after ",
    }
}
