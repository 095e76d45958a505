//! What the definitions of this crate say, in the words of schemas.
//!
//! Each function has an empty body: its contract is the law.
ghost use Rattle.xc_concepts.specs.Laws.{OneKind, KindsCompute};

/// A name has one kind in the schemas that were added.
pub fn one_kind()
    ensures { OneKind }
{}

/// The kind that computes from the number of a concept is the one by its chain of type names.
pub fn kinds_compute()
    ensures { KindsCompute }
{}
