/// Why a document has no tree, each with the byte at which that shows.
#[derive(Clone, Copy, Debug, PartialEq, Eq)]
pub enum TreeFault {
    /// Memory ran out.
    Memory,
    /// The byte here is no part of a character of UTF-8.
    NotUtf8(u64),
    /// No item begins here.
    NotItem(u64),
    /// A document type begins here, which is not read.
    Doctype(u64),
    /// The item here does not fit the elements that are open, or the document ends here without its root's end.
    Unbalanced(u64),
    /// The tag here stands inside 127 open elements, which is the limit.
    TooDeep(u64),
    /// The tag here has a prefix that is not declared, or declares an empty namespace for a prefix.
    NoSpace(u64),
    /// Two attributes of the tag here have one expanded name.
    SameAttribute(u64),
}

impl TreeFault {
    ghost use Rattle.std.specs.Prelude.{◌≡◌, option_map};
    ghost use Rattle.xc_elements.specs.Codes.{code_of, place_of};

    /// The code with which the fault is printed; None for want of memory alone.
    pub fn code(self) -> Option<&'static str>
        ensures { option_map (λ code. code.now) result ≡ code_of self }
    {
        match self {
            TreeFault::Memory => None,
            TreeFault::NotUtf8(_) => Some("xc:notUtf8"),
            TreeFault::NotItem(_) => Some("xc:notItem"),
            TreeFault::Doctype(_) => Some("xc:doctype"),
            TreeFault::Unbalanced(_) => Some("xc:unbalanced"),
            TreeFault::TooDeep(_) => Some("xc:tooDeep"),
            TreeFault::NoSpace(_) => Some("xc:noSpace"),
            TreeFault::SameAttribute(_) => Some("xc:sameAttribute"),
        }
    }

    /// The byte at which the fault stands; None for want of memory alone.
    pub fn place(self) -> Option<u64>
        ensures { result ≡ place_of self }
    {
        match self {
            TreeFault::Memory => None,
            TreeFault::NotUtf8(byte)
            | TreeFault::NotItem(byte)
            | TreeFault::Doctype(byte)
            | TreeFault::Unbalanced(byte)
            | TreeFault::TooDeep(byte)
            | TreeFault::NoSpace(byte)
            | TreeFault::SameAttribute(byte) => Some(byte),
        }
    }
}
