//! What follows from the definitions for all texts and numbers. The functions do nothing: code calls
//! one where its proof needs the clauses.
ghost use Rattle.xc_decimal.specs.Laws.{IsReadAsSpelled, SpellsItsNumber, HasOneShortest, HasOneSpelling};

/// A text spells a decimal number exactly where it is read from it, so it spells one at most.
pub fn read_as_spelled()
    ensures { IsReadAsSpelled }
{}

/// What a decimal text spells is the number of all its digits, zeros included.
pub fn spells_its_number()
    ensures { SpellsItsNumber }
{}

/// Decimal numbers are the same number exactly where they are equal.
pub fn one_shortest()
    ensures { HasOneShortest }
{}

/// Different fractions have different spellings.
pub fn one_spelling()
    ensures { HasOneSpelling }
{}
