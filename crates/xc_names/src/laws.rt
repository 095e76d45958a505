//! What the definitions of this crate say, in the words of names.
//!
//! Each function has an empty body: its contract is the law.
ghost use Rattle.xc_names.specs.Laws.{NumbersTellNames, NumbersArePlaces, NamesStandAtNumbers};

/// Two names, one of which is in a list, have one number exactly where they are equal.
pub fn numbers_tell_names()
    ensures { NumbersTellNames }
{}

/// In a list without doubles, a name's number is the place at which it stands.
pub fn numbers_are_places()
    ensures { NumbersArePlaces }
{}

/// A name that has a number in a list stands there at the place with this number, doubles or not.
pub fn names_stand_at_numbers()
    ensures { NamesStandAtNumbers }
{}
