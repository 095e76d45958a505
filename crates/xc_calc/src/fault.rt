ghost use Rattle.std.specs.Prelude.{◌≡◌, option_map};
ghost use Rattle.xc_calc.specs.Codes.{code_of, place_of};
ghost use Rattle.xc_calc.specs.declared.fault.LinkFault.TheVariants.{Memory};

use std::alloc::AllocFailed;

/// Why a linkbase is refused. A number is that of the node at which a rule is broken: the arc element,
/// and for the last three a locator.
#[derive(Clone, Copy, Debug, PartialEq, Eq)]
pub enum LinkFault {
    /// Want of memory.
    Memory,
    /// The arc element has no `weight`, or one that is no decimal number or is too wide.
    BadWeight(u32),
    /// Its `weight` is 0.
    ZeroWeight(u32),
    /// Its `order` is no decimal number or is too wide.
    BadOrder(u32),
    /// Its `priority` is no whole number of 64 bits.
    BadPriority(u32),
    /// Its `use` is neither `optional` nor `prohibited`.
    BadUse(u32),
    /// It has no `from` or `to` of XLink, or no locator of its extended link has that label.
    NoLocator(u32),
    /// The locator's `href` names no concept of the schemas.
    Unresolved(u32),
    /// The type of its concept is not found, or leads back to itself.
    UnknownType(u32),
    /// Its concept is not decimal.
    NodeNotDecimal(u32),
}

impl LinkFault {
    /// The code that is printed; None for want of memory alone.
    pub fn code(self) -> Option<&'static str>
        ensures { option_map (λ code. code.now) result ≡ code_of self }
    {
        match self {
            LinkFault::Memory => None,
            LinkFault::BadWeight(_) => Some("xc:badWeight"),
            LinkFault::ZeroWeight(_) => Some("xc:zeroWeight"),
            LinkFault::BadOrder(_) => Some("xc:badOrder"),
            LinkFault::BadPriority(_) => Some("xc:badPriority"),
            LinkFault::BadUse(_) => Some("xc:badUse"),
            LinkFault::NoLocator(_) => Some("xc:noLocator"),
            LinkFault::Unresolved(_) => Some("xc:unresolved"),
            LinkFault::UnknownType(_) => Some("xc:unknownType"),
            LinkFault::NodeNotDecimal(_) => Some("xc:nodeNotDecimal"),
        }
    }

    /// The number of the node at which a rule is broken; None for want of memory alone.
    pub fn place(self) -> Option<u32>
        ensures { result ≡ place_of self }
    {
        match self {
            LinkFault::Memory => None,
            LinkFault::BadWeight(at)
            | LinkFault::ZeroWeight(at)
            | LinkFault::BadOrder(at)
            | LinkFault::BadPriority(at)
            | LinkFault::BadUse(at)
            | LinkFault::NoLocator(at)
            | LinkFault::Unresolved(at)
            | LinkFault::UnknownType(at)
            | LinkFault::NodeNotDecimal(at) => Some(at),
        }
    }
}

impl From<xc_lists::Memory> for LinkFault {
    ghost from_gives = { λ _ e. e ≡ Memory };

    fn from(_memory: xc_lists::Memory) -> LinkFault {
        LinkFault::Memory
    }
}

impl<T: Drop> From<AllocFailed<T>> for LinkFault {
    ghost from_gives = { λ _ e. e ≡ Memory };

    fn from(_error: AllocFailed<T>) -> LinkFault {
        LinkFault::Memory
    }
}
