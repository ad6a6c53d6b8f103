//! Why a call has no answer, where memory may be refused.

ghost use Rattle.std.specs.Prelude.{◌≡◌};
ghost use Rattle.ix_base.specs.declared.or_memory.OrMemory.TheVariants as stops;

use crate::fault::{Fault, NoMemory};
use std::alloc::{AllocError, AllocFailed};

/// Why there is no answer: a cause of its own, or memory was refused.
#[derive(Clone, Copy, Debug, PartialEq, Eq)]
pub enum OrMemory<E> {
    Cause(E),
    Memory,
}

/// Why a file gives no answer: it has a fault, or memory was refused.
pub type Stop = OrMemory<Fault>;

impl From<Fault> for OrMemory<Fault> {
    ghost from_gives = { λ f e. e ≡ stops.Cause f };

    fn from(fault: Fault) -> OrMemory<Fault> {
        OrMemory::Cause(fault)
    }
}

// A code of `code`, where the place of a fault isn't known yet.
impl From<u8> for OrMemory<u8> {
    ghost from_gives = { λ code e. e ≡ stops.Cause code };

    fn from(code: u8) -> OrMemory<u8> {
        OrMemory::Cause(code)
    }
}

impl<E> From<NoMemory> for OrMemory<E> {
    ghost from_gives = { λ _ e. e ≡ stops.Memory };

    fn from(_error: NoMemory) -> OrMemory<E> {
        OrMemory::Memory
    }
}

impl<E> From<AllocError> for OrMemory<E> {
    ghost from_gives = { λ _ e. e ≡ stops.Memory };

    fn from(_error: AllocError) -> OrMemory<E> {
        OrMemory::Memory
    }
}

impl<E, T: Drop> From<AllocFailed<T>> for OrMemory<E> {
    ghost from_gives = { λ _ e. e ≡ stops.Memory };

    fn from(_error: AllocFailed<T>) -> OrMemory<E> {
        OrMemory::Memory
    }
}
