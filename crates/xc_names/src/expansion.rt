// The numbers of texts of two plain names joined by a colon.
ghost use Rattle.std.specs.Prelude.{◌≡◌, ◌↔◌, IfOk, OnErr, IsNone, IsErrOf};
ghost use Rattle.xc_names.specs.Expansion.{HasUnboundPrefix, Expands};
ghost use Rattle.xc_names.specs.Names.{KeepsNumbers};
ghost use Rattle.xc_chars.specs.PlainNames.{split};
ghost use Rattle.xc_names.specs.declared.expansion.NameFault.TheVariants.{Memory};

use crate::expanded::NameId;
use crate::names::Names;
use crate::prefixes::Prefixes;
use xc_chars::split;
use xc_lists::Memory;

/// Why a text has no number.
#[derive(Clone, Copy, Debug, PartialEq, Eq)]
pub enum NameFault {
    /// Want of memory.
    Memory,
    /// It is not two plain names joined by one colon.
    NotName,
    /// Its prefix is not set.
    NoPrefix,
}

impl NameFault {
    ghost use Rattle.std.specs.Prelude.{◌≡◌, option_map};
    ghost use Rattle.xc_names.specs.Codes.{code_of};

    /// The code with which the fault of a name that `sum` is given is printed; None for want of memory alone.
    pub fn code(self) -> Option<&'static str>
        ensures { option_map (λ code. code.now) result ≡ code_of self }
    {
        match self {
            NameFault::Memory => None,
            NameFault::NotName | NameFault::NoPrefix => Some("xc:badSumName"),
        }
    }
}

impl From<Memory> for NameFault {
    ghost from_gives = { λ _ e. e ≡ Memory };

    fn from(_memory: Memory) -> NameFault {
        NameFault::Memory
    }
}

/// The number of the expanded name that the text spells: the namespace that its prefix stands
/// for, and its local part (Namespaces in XML 1.0, section 4). A name that is not there yet goes
/// last.
///
/// `NotName` comes exactly where `split` gives None, and `NoPrefix` exactly where it gives a
/// prefix that is not set.
pub fn expand(names: &mut Names, prefixes: &Prefixes, text: &str) -> Result<NameId, NameFault>
    ensures name { IfOk result (λ id. Expands prefixes.now text.now names.old names.new id.0) }
    ensures not_name { IsErrOf result NameFault.NotName ↔ IsNone (split text.now) }
    ensures no_prefix { IsErrOf result NameFault.NoPrefix ↔ HasUnboundPrefix prefixes.now text.now }
    ensures kept { KeepsNumbers names.old names.new }
    ensures err { OnErr result (names.new ≡ names.old) }
{
    let Some((prefix, local)) = split(text) else {
        return Err(NameFault::NotName);
    };
    let Some(uri) = prefixes.get(prefix) else {
        return Err(NameFault::NoPrefix);
    };
    Ok(names.number(uri, local)?)
}
