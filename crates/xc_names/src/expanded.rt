ghost use Rattle.std.specs.Prelude.{◌≡◌, IfOk};
ghost use Rattle.xc_names.specs.Names.{name_of, is_named};

use std::alloc::Global;
use xc_lists::{Memory, Text};

/// An expanded name: the URI of a namespace, empty where the name has none, and a local part
/// (Namespaces in XML 1.0, section 2.1).
#[derive(Clone, Debug, Drop, PartialEq, Eq)]
pub struct Expanded {
    pub space: Text,
    pub local: Text,
}

impl Expanded {
    /// The name of these two parts, in memory of its own.
    pub fn of(alloc: Global, space: &str, local: &str) -> Result<Expanded, Memory>
        ensures { IfOk result (λ name. name ≡ name_of space.now local.now) }
    {
        Ok(Expanded {
            space: Text::of(String::from_str(alloc, space)?),
            local: Text::of(String::from_str(alloc, local)?),
        })
    }

    /// Whether the name has these two parts.
    pub fn is(&self, space: &str, local: &str) -> bool
        ensures { result ≡ is_named space.now local.now self.now }
    {
        self.local.as_str() == local && self.space.as_str() == space
    }
}

/// The number of a name: its place among the names of one `Names`, from 0.
#[derive(Clone, Copy, Debug, PartialEq, Eq, PartialOrd, Ord, Hash)]
pub struct NameId(pub u64);
