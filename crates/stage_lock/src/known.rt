//! What a pass knows, and the rule of the lock.

use atomic_table::{Seat, TableRule};
use index_model::{List, Staged};
use std::snapshot::Snapshot;

/// How far a pass is with its turn.
pub enum Turn {
    /// It hasn't the turn.
    Without,
    /// It has won the turn, and the value is home.
    Won,
    /// It has taken the value out.
    Out,
    /// It has put a value back, and has yet to give up the turn.
    Back,
}

/// A pass's share in the lock: so many of `2 ^ halvings` equal parts. The shares of all passes make up the whole.
pub struct Share {
    pub part: u64,
    pub halvings: u64,
}

/// What a pass knows, its seat's view. Only steps of the pass itself change it. No value of it is made.
pub struct Known<V, X> {
    /// The subject of the lock. `None` where another pass took this one in.
    pub about: Option<X>,
    /// Its share in the lock, none where another pass took this one in.
    pub share: Share,
    /// The stages that its own marks loaded, in order.
    pub marks: List<u64>,
    /// The highest stage that it has seen or was told.
    pub floor: u64,
    /// Between the two steps of a join: the floors of both passes before it.
    pub old_floors: List<u64>,
    pub turn: Turn,
    /// How often it won the turn.
    pub turns: u64,
    /// The value that it took out last.
    pub value_out: Option<V>,
    /// The value that it put back last.
    pub value_back: Option<V>,
}

/// The facts that hold between any two steps, whoever makes them. The key is the lock's first value.
pub struct LockRule;

impl<V: Staged> TableRule<Option<V>, Known<V, V::Subject>, Snapshot<V>> for LockRule {
    ghost use Rattle.stage_lock.specs.Rule.{Holds, starting};

    ghost holds = { λ key. Holds V.stage_of V.subject V.fits (V.subject key.value) };

    ghost first = { λ key. starting (V.subject key.value) (V.stage_of key.value) };
}

/// A pass's place at the lock's table.
pub type LockSeat<V> = Seat<Option<V>, Known<V, <V as Staged>::Subject>>;
