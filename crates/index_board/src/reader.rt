//! A reader of a board.

ghost use Rattle.std.specs.Prelude.{◌≡◌, false};
ghost use Rattle.stage_lock.specs.Seen.{IsPassOf};
ghost use Rattle.index_board.specs.Kept.{no_parts};

use crate::board::{Board, Pass};
use crate::kept::{fill, nothing};
use crate::poll::Poll;
use crate::reply::{answers, reply};
use index_model::{Look, Query};
use ix_base::NoMemory;
use stage_core::{Cache, Parts};
use std::marker::Model;
use std::sync::Wait;
use std::thread::yield_now;

/// One thread's reader: a pass, and the published parts that it keeps. Contracts see both, and the board.
#[derive(Drop)]
pub struct Reader<'b, 'f> {
    board: &'b Board<'f>,
    pass: Pass<'f>,
    kept: Parts<'f>,
}

impl<'b, 'f> Model for Reader<'b, 'f> {
    ghost use Rattle.index_board.specs.Readers.{Reader, IsWell};
    ghost use Rattle.index_board.specs.Seen.{reader_seen};

    ghost Value = { Reader };

    ghost view = { reader_seen };

    ghost invariant = { λ r. IsWell (reader_seen r) };
}

impl<'b, 'f> Reader<'b, 'f> {
    ghost use Rattle.std.specs.Prelude.{◌≡◌, ◌≤◌, ◌⊎◌, ◌∷◌, ◌++◌, [], ℕ, List, max, false, true, Bool, IsSome, OnOk, OnErr, IfOk, option_map, is_ok};
    ghost use Rattle.std.specs.Borrow.{sem};
    ghost use Rattle.index_model.specs.Parts.{parts, reply_by};
    ghost use Rattle.index_model.specs.Seen.{query_seen};
    ghost use Rattle.index_model.specs.Stages.{IsReachable};
    ghost use Rattle.stage_core.specs.Machines.{FitsFile, Machine, stage_of};
    ghost use Rattle.stage_core.specs.Outputs.{cache_seen, parts_seen};
    ghost use Rattle.stage_lock.specs.Seen.{IsPassOf};
    ghost use Rattle.stage_lock.specs.Shares.{sum_of};
    ghost use Rattle.index_board.specs.Kept.{AreOf, HasPublished, filled};
    ghost use Rattle.index_board.specs.Loans.{Leaves};
    ghost use Rattle.index_board.specs.LookUps.{ByKept, InTurn, IsAsked, OneMark};
    ghost use Rattle.index_board.specs.Marks.{AreMarks, IsLook, IsMark, IsPoll, IsPolled, IsReady, marked};
    ghost use Rattle.index_board.specs.Turns.{Turn};

    /// A reader with this pass, which keeps no parts.
    pub(crate) fn new(board: &'b Board<'f>, pass: Pass<'f>) -> Reader<'b, 'f>
        requires own { IsPassOf board.now pass }
        requires idle { pass.holding ≡ false }
        ensures { result ≡ record { board = board.now; pass = pass.entry; kept = no_parts } }
    {
        Reader {
            board,
            pass,
            kept: nothing(),
        }
    }

    // One mark.
    fn mark(&mut self) -> u8
        ensures reader { self.new ≡ marked self.old result }
        ensures mark { IsMark self.old result }
    {
        let board = self.board;
        board.mark(&mut self.pass)
    }

    /// Answers by what is kept, at one mark. Waits for nobody and takes no memory. `Fetch` comes exactly where the build has
    /// published what the query needs at the mark, or the fault at stage 4, and it isn't kept yet.
    pub fn poll(&mut self, query: &Query<'_>) -> Poll<'_>
        ensures* polled { sem 𝓛 (Leaves self.entry (λ new. IsPolled self.old (query_seen query.now) result new)) }
    {
        let stage = self.mark();
        self.answer(query, stage)
    }

    // The answer at a mark, by what is kept.
    fn answer(&self, query: &Query<'_>, stage: u8) -> Poll<'_>
        requires fits { FitsFile self.now.board.subject stage }
        ensures { IsPoll self.now (query_seen query.now) stage result }
    {
        match reply(&self.kept, query, stage) {
            Some(reply) => Poll::Done(Look { stage, reply }),
            None => Poll::Fetch(stage),
        }
    }

    /// Keeps what has been published, in one turn. May wait for the turn. The parts that are kept stay, and no mark is made.
    ///
    /// # Errors
    ///
    /// `NoMemory` where a part has as many owners as can be counted. The kept parts stay.
    pub fn fetch<R: Wait>(&mut self, rt: &R) -> Result<(), NoMemory>
        ensures board { self.new.board ≡ self.old.board }
        ensures turn { (m : Machine) × Turn self.old.board self.old.pass self.new.pass m m × OnOk result (self.new.kept ≡ filled self.old.kept (parts m.state)) }
        ensures ready { OnOk result (IsReady self.new) }
        ensures lost { OnErr result (self.new.kept ≡ self.old.kept) }
    {
        let board = self.board;
        let shared = board.share(rt, &mut self.pass);
        fill(&mut self.kept, shared?);
        Ok(())
    }

    /// Answers a query at one mark. Where the kept parts can't answer it, may wait for the turn: the mark is made within one turn
    /// then, and what has been published is kept.
    ///
    /// # Errors
    ///
    /// `NoMemory` where a part has as many owners as can be counted. The mark is made, and the kept parts stay.
    pub fn query<R: Wait>(&mut self, rt: &R, query: &Query<'_>) -> Result<Look<'_>, NoMemory>
        ensures* asked { sem 𝓛 (Leaves self.entry (λ new. IsAsked self.old (query_seen query.now) result new)) }
    {
        let (stage, shared) = self.advance(rt, query);
        shared?;
        Ok(self.look(query, stage))
    }

    // One mark, at which the kept parts answer the query.
    fn advance<R: Wait>(&mut self, rt: &R, query: &Query<'_>) -> (u8, Result<(), NoMemory>)
        ensures ok { OnOk result.1 (OneMark self.old result.0 self.new (ByKept self.old (query_seen query.now) result.0 self.new ⊎ InTurn self.old (query_seen query.now) result.0 true self.new)) }
        ensures err { OnErr result.1 (OneMark self.old result.0 self.new (InTurn self.old (query_seen query.now) result.0 false self.new)) }
        ensures board { self.new.board ≡ self.old.board }
        ensures fits { FitsFile self.old.board.subject result.0 }
        ensures ready { OnOk result.1 (IsSome (reply_by self.new.kept (query_seen query.now) result.0)) }
    {
        if answers(&self.kept, query) {
            return (self.mark(), Ok(()));
        }
        self.mark_in_turn(rt)
    }

    // One mark within a turn, in which what has been published is kept.
    fn mark_in_turn<R: Wait>(&mut self, rt: &R) -> (u8, Result<(), NoMemory>)
        ensures board { self.new.board ≡ self.old.board }
        ensures mark { IsMark self.old result.0 }
        ensures turn { (m : Machine) × (result.0 ≡ stage_of m) × Turn self.old.board (record self.old.pass { marks = self.old.pass.marks ++ result.0 ∷ [] }) self.new.pass m m × OnOk result.1 (self.new.kept ≡ filled self.old.kept (parts m.state)) }
        ensures published { OnOk result.1 (HasPublished result.0 self.new.kept) }
        ensures lost { OnErr result.1 (self.new.kept ≡ self.old.kept) }
    {
        let board = self.board;
        let (stage, shared) = board.share_at_mark(rt, &mut self.pass);
        match shared {
            Ok(parts) => {
                fill(&mut self.kept, parts);
                (stage, Ok(()))
            }
            Err(error) => (stage, Err(error)),
        }
    }

    // The look at a mark at which the kept parts have a reply.
    fn look(&self, query: &Query<'_>, stage: u8) -> Look<'_>
        requires fits { FitsFile self.now.board.subject stage }
        requires has { IsSome (reply_by self.now.kept (query_seen query.now) stage) }
        ensures { IsLook self.now.board.subject (query_seen query.now) stage result }
    {
        match self.answer(query, stage) {
            Poll::Done(look) => look,
            Poll::Fetch(_) => unreachable!(),
        }
    }

    /// Marks until the stage is at least this one, and answers the last mark. May wait. The stage is 0 to 3. Makes no turn.
    pub fn wait<R: Wait>(&mut self, rt: &R, stage: u8) -> u8
        requires { stage ≤ 3 }
        ensures least { stage ≤ result }
        ensures marks { (gained : List ℕ) × AreMarks self.old.board.subject self.old.pass.floor (gained ++ result ∷ []) × (self.new ≡ record self.old { pass = record self.old.pass { marks = self.old.pass.marks ++ (gained ++ result ∷ []); floor = result } }) }
        ensures last { IsMark self.old result }
    {
        for _ in rt.forever() {
            let seen = self.mark();
            if seen >= stage {
                return seen;
            }
            yield_now();
        }
        unreachable!()
    }

    /// Takes another pass in: the floor becomes the greater of both, and the shares are added. What is kept stays.
    pub fn told(&mut self, other: Pass<'f>)
        requires own { IsPassOf self.old.board other }
        requires idle { other.holding ≡ false }
        ensures reader { self.new ≡ record self.old { pass = record self.old.pass { floor = max self.old.pass.floor other.entry.floor; share = sum_of self.old.pass.share other.entry.share } } }
        ensures reach { IsReachable self.old.pass.floor self.new.pass.floor }
        ensures other_reach { IsReachable other.entry.floor self.new.pass.floor }
    {
        let board = self.board;
        board.join(&mut self.pass, other);
    }

    /// The kept parts. Each is what the file means.
    pub fn parts(&self) -> &Parts<'f>
        ensures parts { parts_seen result.now ≡ self.now.kept }
        ensures right { AreOf self.now.board.subject self.now.kept }
    {
        &self.kept
    }

    /// The kept index.
    pub fn cache(&self) -> Option<&Cache>
        ensures value { option_map (λ c. cache_seen c.now) result ≡ self.now.kept.cache }
        ensures right { AreOf self.now.board.subject self.now.kept }
    {
        match &self.kept.cache {
            Some(cache) => Some(&**cache),
            None => None,
        }
    }

    /// The reader's pass.
    pub fn end(self) -> Pass<'f>
        ensures pass { result ≡ self.entry.pass }
        ensures own { IsPassOf self.entry.board result }
        ensures idle { result.holding ≡ false }
    {
        let Reader { pass, .. } = self;
        pass
    }
}
