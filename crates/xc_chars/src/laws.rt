//! What the definitions of this crate say, in the words of names.
//!
//! Each function has an empty body: its contract is the law.
ghost use Rattle.xc_chars.specs.Laws.{SplitsWhereJoined};

/// A text splits exactly where it is two plain names joined by a colon, so in one way at most.
pub fn splits_where_joined()
    ensures { SplitsWhereJoined }
{}
