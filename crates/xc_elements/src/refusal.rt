// Why an item is refused.
ghost use Rattle.std.specs.Prelude.{◌≡◌};
ghost use Rattle.xc_elements.specs.Steps.Refusals.{fault_at};

use crate::fault::TreeFault;
use std::alloc::{AllocError, AllocFailed};

/// Why an item is refused.
#[derive(Clone, Copy, Debug, PartialEq, Eq)]
pub(crate) enum Refusal {
    Memory,
    Unbalanced,
    TooDeep,
    NoSpace,
    SameAttribute,
}

impl Refusal {
    /// The fault of an item at this place.
    pub(crate) fn fault_at(self, place: u64) -> TreeFault
        ensures { result ≡ fault_at self place }
    {
        match self {
            Refusal::Memory => TreeFault::Memory,
            Refusal::Unbalanced => TreeFault::Unbalanced(place),
            Refusal::TooDeep => TreeFault::TooDeep(place),
            Refusal::NoSpace => TreeFault::NoSpace(place),
            Refusal::SameAttribute => TreeFault::SameAttribute(place),
        }
    }
}

impl From<AllocError> for Refusal {
    ghost use Rattle.std.specs.Prelude.{◌≡◌};
    ghost use Rattle.xc_elements.specs.declared.refusal.Refusal.TheVariants.{Memory};

    ghost from_gives = { λ _ refusal. refusal ≡ Memory };

    fn from(_: AllocError) -> Self {
        Refusal::Memory
    }
}

impl<T: Drop> From<AllocFailed<T>> for Refusal {
    ghost use Rattle.std.specs.Prelude.{◌≡◌};
    ghost use Rattle.xc_elements.specs.declared.refusal.Refusal.TheVariants.{Memory};

    ghost from_gives = { λ _ refusal. refusal ≡ Memory };

    fn from(_: AllocFailed<T>) -> Self {
        Refusal::Memory
    }
}

impl From<xc_lists::Memory> for Refusal {
    ghost use Rattle.std.specs.Prelude.{◌≡◌};
    ghost use Rattle.xc_elements.specs.declared.refusal.Refusal.TheVariants.{Memory};

    ghost from_gives = { λ _ refusal. refusal ≡ Memory };

    fn from(_: xc_lists::Memory) -> Self {
        Refusal::Memory
    }
}
