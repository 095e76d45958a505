// How a run ends.
ghost use Rattle.std.specs.Prelude.{◌≡◌};
ghost use Rattle.xc_top.specs.Status.{number};
ghost use Rattle.xc_top.specs.declared.status.Stop.TheVariants as stop;

use std::alloc::{AllocError, AllocFailed};
use xc_lists::{Items, Memory};

/// How a run ends. `number` gives what the program ends with.
#[derive(Clone, Copy, Debug, PartialEq, Eq)]
pub enum Status {
    /// Nothing that was asked disagrees; a certificate is accepted.
    Sound,
    /// A total disagrees with its contributors, a data point is empty, no assignment satisfies all, or a certificate misses
    /// something.
    Findings,
    /// The words are not accepted.
    Usage,
    /// A document is refused.
    Refused,
    /// Nothing disagrees, and something passes the widths in which this program computes.
    TooWide,
    /// A file could not be read.
    ReadFault,
    /// The answer could not be written.
    WriteFault,
    /// Memory was wanting. Nothing was written.
    Memory,
}

/// What a run writes, and how it ends.
#[derive(Debug, Drop)]
pub struct Answer {
    pub status: Status,
    /// The bytes of its lines.
    pub text: Items<u8>,
}

impl Status {
    /// The number with which the program ends, from 0 to 7.
    pub fn number(self) -> u8
        ensures { result ≡ number self }
    {
        match self {
            Status::Sound => 0,
            Status::Findings => 1,
            Status::Usage => 2,
            Status::Refused => 3,
            Status::TooWide => 4,
            Status::ReadFault => 5,
            Status::WriteFault => 6,
            Status::Memory => 7,
        }
    }
}

/// Why a run ends before its findings.
#[derive(Debug, Drop)]
pub enum Stop {
    /// Want of memory.
    Memory,
    /// A document that is refused, or a file that could not be read.
    Named(Answer),
}

impl From<Memory> for Stop {
    ghost from_gives = { λ _ e. e ≡ stop.Memory };

    fn from(_memory: Memory) -> Stop {
        Stop::Memory
    }
}

impl From<AllocError> for Stop {
    ghost from_gives = { λ _ e. e ≡ stop.Memory };

    fn from(_error: AllocError) -> Stop {
        Stop::Memory
    }
}

impl<T: Drop> From<AllocFailed<T>> for Stop {
    ghost from_gives = { λ _ e. e ≡ stop.Memory };

    fn from(_error: AllocFailed<T>) -> Stop {
        Stop::Memory
    }
}
