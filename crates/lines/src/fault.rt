// Why a line gives no form: a fault of the line, or want of memory.
ghost use Rattle.std.specs.Prelude.{◌≡◌, ◌+◌, ◌^◌, ◌<◌};
ghost use Rattle.lines.specs.declared.fault.Stop.TheVariants.{Memory, Refusal};
ghost use Rattle.lines.specs.Form.{fault_at};
ghost use Rattle.lines.specs.Said.{OfFault, Retells};

use refusals::Refusal;
use std::alloc::{AllocError, AllocFailed};

// What is wrong with a line: the cause, and at which byte, counted from 1.
#[derive(Clone, Copy, PartialEq, Eq, Debug)]
pub struct LineFault {
    pub refusal: Refusal,
    pub byte: usize,
}

impl LineFault {
    // A fault at a place counted from 0.
    pub fn at(refusal: Refusal, at: usize) -> LineFault
        requires { at + 1 < 2 ^ 64 }
        ensures { result ≡ fault_at refusal at }
    {
        LineFault {
            refusal,
            byte: at + 1,
        }
    }
}

// Why there is no answer: no memory, or a fault of what was read.
#[derive(Drop, Debug)]
pub enum Stop<F> {
    Memory,
    Refusal(F),
}

impl<F> Stop<F> {
    // The same, with the fault told by `tell`.
    pub fn map<G, T: FnOnce(F) -> G>(self, tell: T) -> Stop<G>
        requires { OfFault self (T.pre tell) }
        ensures { Retells (T.post tell) self result }
    {
        match self {
            Stop::Memory => Stop::Memory,
            Stop::Refusal(fault) => Stop::Refusal(tell(fault)),
        }
    }
}

impl<F> From<AllocError> for Stop<F> {
    ghost from_gives = { λ _ r. r ≡ Memory };

    fn from(_e: AllocError) -> Stop<F> {
        Stop::Memory
    }
}

impl<F, T: Drop> From<AllocFailed<T>> for Stop<F> {
    ghost from_gives = { λ _ r. r ≡ Memory };

    fn from(_e: AllocFailed<T>) -> Stop<F> {
        Stop::Memory
    }
}

impl From<LineFault> for Stop<LineFault> {
    ghost from_gives = { λ e r. r ≡ Refusal e };

    fn from(e: LineFault) -> Stop<LineFault> {
        Stop::Refusal(e)
    }
}
