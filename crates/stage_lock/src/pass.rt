//! What one thread steps with.

use crate::known::LockSeat;
use index_model::Staged;
use std::marker::Model;

/// The right to step on a lock, which one thread has at a time. It has no bytes. Contracts see its marks, its floor, whether it
/// holds the value, how often it entered, and the values that it took out and put back last.
#[derive(Drop)]
pub struct Pass<V: Staged> {
    pub(crate) seat: LockSeat<V>,
}

impl<V: Staged> Model for Pass<V> {
    ghost use Rattle.stage_lock.specs.Seen.{Seen, seen, IsWell};

    ghost Value = { Seen V V.Subject };

    ghost view = { λ p. seen p.seat.table_id p.seat.me.0 };

    ghost invariant = { λ p. IsWell p.seat.me };
}
