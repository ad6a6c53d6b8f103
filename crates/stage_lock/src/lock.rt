//! The lock.

ghost use Rattle.std.specs.Prelude.{◌≡◌, ◌+◌, ◌≤◌, [], ◌∷◌, ◌++◌, max, Some, true, false, IsTrue, IsSome, IfOk, IfSome};
ghost use Rattle.index_model.specs.Stages.{stopped, IsReachable};
ghost use Rattle.stage_lock.specs.Closing.{ClosesWith};
ghost use Rattle.stage_lock.specs.Seen.{IsPassOf, first_pass, parted_pass, split_pass};
ghost use Rattle.stage_lock.specs.Shares.{sum_of, IsWhole};

use crate::known::{Known, LockRule};
use crate::moves::{JoinPass, Mark, Note, Publish, Settle, SplitPass, Unlock, Win};
use crate::pass::Pass;
use atomic_table::Table;
use index_model::Staged;
use ix_base::NoMemory;
use std::alloc::Global;
use std::marker::Model;
use std::snapshot::Snapshot;
use std::sync::Wait;
use std::time::Duration;

// The words of the lock: 0 where nobody has the turn and 1 where somebody has it; and the stage of the value.
const TURN: usize = 0;

const STAGE: usize = 1;

const FREE: u64 = 0;

const TAKEN: u64 = 1;

// The slot of the value.
const VALUE: usize = 0;

/// A lock over one value, whose stage anyone with a pass reads without waiting. Contracts see its subject, which is that of the
/// value and which no event changes.
#[derive(Drop)]
pub struct StageLock<V: Staged> {
    table: Table<Option<V>, Known<V, V::Subject>, Snapshot<V>, LockRule, Global>,
}

impl<V: Staged> Model for StageLock<V> {
    ghost use Rattle.std.specs.Prelude.{◌≡◌};
    ghost use Rattle.stage_lock.specs.Seen.{Lock};

    ghost Value = { Lock V.Subject };

    ghost view = { λ l. record { id = l.table.shared.table_id; subject = V.subject l.table.shared.key.value } };

    ghost invariant = { λ l. (l.table.shared.table_id.words ≡ 2) × (l.table.shared.table_id.slots ≡ 1) };
}

impl<V: Staged> StageLock<V> {
    /// A lock over the value, and its first pass.
    ///
    /// # Errors
    ///
    /// `NoMemory` where memory was refused. The value is gone then.
    pub fn new(alloc: Global, value: V) -> Result<(StageLock<V>, Pass<V>), NoMemory>
    where
        V: Drop,
        ensures lock { IfOk result (λ made. made.0.subject ≡ V.subject value) }
        ensures pass { IfOk result (λ made. made.1 ≡ first_pass made.0 (V.stage_of value)) }
    {
        let first = Snapshot::of(&value);
        let words = [FREE, u64::from(value.stage())];
        let mut slots = Vec::with_capacity(alloc, 1)?;
        slots.push_reserved(Some(value));
        match Table::new(alloc, &words, slots, &first) {
            Ok((table, seat)) => Ok((StageLock { table }, Pass { seat })),
            Err(_) => Err(NoMemory),
        }
    }

    /// Waits for the turn, and takes the value out.
    pub fn enter<R: Wait>(&self, rt: &R, pass: &mut Pass<V>) -> V
        requires own { IsPassOf self.now pass.old }
        requires idle { pass.old.holding ≡ false }
        ensures pass { pass.new ≡ record pass.old { holding = true; turns = pass.old.turns + 1; floor = V.stage_of result; value_out = Some result } }
        ensures reach { IsReachable pass.old.floor (V.stage_of result) }
        ensures subject { V.subject result ≡ self.now.subject }
    {
        let shared = &self.table.shared;
        let seat = &mut pass.seat;
        for _ in rt.forever() {
            if shared.compare_exchange::<Win>(seat, TURN, FREE, TAKEN) == FREE {
                shared.load::<Note>(seat, STAGE);
                return shared.exchange(seat, VALUE, None).unwrap();
            }
            shared.park(rt, TURN, TAKEN as u32);
        }
        unreachable!()
    }

    /// Gives the value back, publishes its stage and gives up the turn. The value follows the one that was taken out by one
    /// event, or is that one.
    pub fn leave(&self, pass: &mut Pass<V>, value: V)
        requires own { IsPassOf self.now pass.old }
        requires holding { pass.old.holding ≡ true }
        requires follows { IfSome pass.old.value_out (λ taken. V.follows taken value) }
        ensures pass { pass.new ≡ record pass.old { holding = false; floor = V.stage_of value; value_back = Some value } }
        ensures reach { IsReachable pass.old.floor (V.stage_of value) }
    {
        let shared = &self.table.shared;
        let stage = u64::from(value.stage());
        let before = shared.peek(STAGE);
        let was = shared.exchange(&mut pass.seat, VALUE, Some(value));
        let None = was else { unreachable!() };
        shared.store::<Publish>(&mut pass.seat, STAGE, stage);
        shared.store::<Unlock>(&mut pass.seat, TURN, FREE);
        shared.wake_one(TURN);
        if stage != before {
            shared.wake_all(STAGE);
        }
    }

    /// Rests while the stage is this one, for so long at most. A change of the stage ends it, and it may also end for no reason.
    /// It makes no step of any pass.
    pub fn rest<R: Wait>(&self, rt: &R, stage: u8, most: Duration) {
        self.table
            .shared
            .park_timeout(rt, STAGE, u32::from(stage), most);
    }

    /// The stage, by one load. It waits for nobody and takes no memory. While the pass holds the value, it is the stage of the
    /// value that was taken out.
    pub fn mark(&self, pass: &mut Pass<V>) -> u8
        requires own { IsPassOf self.now pass.old }
        ensures pass { pass.new ≡ record pass.old { marks = pass.old.marks ++ result ∷ []; floor = result } }
        ensures reach { IsReachable pass.old.floor result }
        ensures range { result ≤ stopped }
        ensures fits { V.fits self.now.subject result }
        ensures holding { IsTrue pass.old.holding → IfSome pass.old.value_out (λ taken. V.stage_of taken ≡ result) }
    {
        self.table.shared.load::<Mark>(&mut pass.seat, STAGE) as u8
    }

    /// A new pass, which begins where this one is. Each has half of the share that this one had.
    pub fn split(&self, pass: &mut Pass<V>) -> Pass<V>
        requires own { IsPassOf self.now pass.old }
        ensures parted { pass.new ≡ parted_pass pass.old }
        ensures new { result ≡ split_pass pass.old }
    {
        let seat = self.table.shared.split_seat::<SplitPass>(&mut pass.seat);
        Pass { seat }
    }

    /// Takes another pass in: its marks, turns and values go, the floor becomes the greater of both, and the shares are added.
    pub fn join(&self, pass: &mut Pass<V>, other: Pass<V>)
        requires own { IsPassOf self.now pass.old }
        requires other { IsPassOf self.now other }
        requires idle { other.holding ≡ false }
        ensures pass { pass.new ≡ record pass.old { floor = max pass.old.floor other.floor; share = sum_of pass.old.share other.share } }
        ensures reach { IsReachable pass.old.floor pass.new.floor }
        ensures other_reach { IsReachable other.floor pass.new.floor }
    {
        let shared = &self.table.shared;
        let Pass { seat } = other;
        shared.join_seat::<JoinPass>(&mut pass.seat, seat);
        shared.load::<Settle>(&mut pass.seat, STAGE);
    }

    /// The value. None exactly where the turn is taken, because another pass entered and didn't leave. So a pass with the whole
    /// share, which all others were joined to, gives the value.
    pub fn close(self, pass: Pass<V>) -> Option<V>
    where
        V: Drop,
        requires own { IsPassOf self pass }
        requires idle { pass.holding ≡ false }
        ensures reach { IfSome result (λ value. IsReachable pass.floor (V.stage_of value)) }
        ensures subject { IfSome result (λ value. V.subject value ≡ self.subject) }
        ensures whole { IsWhole pass.share → IsSome result }
        ensures last { ClosesWith V.stage_of V.subject V.fits self pass result }
    {
        let StageLock { table } = self;
        let Pass { seat } = pass;
        let mut closed = table.close_with(seat);
        let turn = closed.word(TURN);
        let value = closed.take(VALUE);
        closed.free();
        if turn == FREE { value } else { None }
    }
}
