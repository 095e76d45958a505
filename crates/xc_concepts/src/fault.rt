ghost use Rattle.std.specs.Prelude.{◌≡◌, option_map};
ghost use Rattle.xc_concepts.specs.Codes.{code_of, place_of};
ghost use Rattle.xc_concepts.specs.declared.fault.SchemaFault.TheVariants.{Memory};

use std::alloc::AllocError;

/// Why a schema is refused. A number is that of the node at which a rule is broken.
#[derive(Clone, Copy, Debug, PartialEq, Eq)]
pub enum SchemaFault {
    /// Want of memory.
    Memory,
    /// A file of this name was added before.
    SameFile,
    /// The node has a `type` or `base` that is judged, and that is neither a plain name nor two of
    /// them joined by a colon of which the first is a prefix in scope.
    BadPrefix(u32),
    /// An earlier element of the document has the same `id`.
    SameId(u32),
    /// The concept's name was declared before.
    SameConcept(u32),
}

impl SchemaFault {
    /// The code that is printed; None for want of memory alone.
    pub fn code(self) -> Option<&'static str>
        ensures { option_map (λ code. code.now) result ≡ code_of self }
    {
        match self {
            SchemaFault::Memory => None,
            SchemaFault::SameFile => Some("xc:sameFile"),
            SchemaFault::BadPrefix(_) => Some("xc:badPrefix"),
            SchemaFault::SameId(_) => Some("xc:sameId"),
            SchemaFault::SameConcept(_) => Some("xc:sameConcept"),
        }
    }

    /// The number of the node at which a rule is broken, where the fault has one.
    pub fn place(self) -> Option<u32>
        ensures { result ≡ place_of self }
    {
        match self {
            SchemaFault::Memory | SchemaFault::SameFile => None,
            SchemaFault::BadPrefix(at) | SchemaFault::SameId(at) | SchemaFault::SameConcept(at) => {
                Some(at)
            }
        }
    }
}

impl From<AllocError> for SchemaFault {
    ghost from_gives = { λ _ e. e ≡ Memory };

    fn from(_error: AllocError) -> SchemaFault {
        SchemaFault::Memory
    }
}

impl From<xc_lists::Memory> for SchemaFault {
    ghost from_gives = { λ _ e. e ≡ Memory };

    fn from(_memory: xc_lists::Memory) -> SchemaFault {
        SchemaFault::Memory
    }
}
