//! What the definitions of this crate say, in the words of reports.
//!
//! The functions do nothing: the contract of each is the law, and one may call a law below it.
ghost use Rattle.xc_report.specs.Laws.{KeysTellValues, ComparisonTellsValues, OneNumberAKey, OrderKeepsValues, KeysAreOfNames, StatedIsRenamed, ReportIsRenamed, NamesAreSaid, EntitiesAreSaid, PeriodsAreSaid, DaysAreMoments, UnitsAreSaid, FactsAreSaid, FaultsAreFirst, KeysSayWhatIsStated};

use xc_names::laws::numbers_tell_names;

/// Keys are equal exactly where they have the same dimensions with equal values.
pub fn keys_tell_values()
    ensures { KeysTellValues }
{}

/// `==` answers that keys are equal exactly where they have the same dimensions with equal values.
pub fn comparison_tells_values()
    ensures { ComparisonTellsValues }
{}

/// Two of a report's keys have one number exactly where they are equal.
pub fn one_number_a_key()
    ensures { OneNumberAKey }
{}

/// To put dimensions in order keeps the value of each, where none stands twice.
pub fn order_keeps_values()
    ensures { OrderKeepsValues }
{}

/// Whether two keys are equal is told by what the facts state: it does not depend on the numbers that names have.
pub fn keys_are_of_names()
    ensures { KeysAreOfNames }
{
    numbers_tell_names();
}

/// Where names have other numbers, facts state the same and have the same faults, and a report has the same facts: the
/// numbers of their concepts are exchanged, and those of their keys stay.
pub fn numbers_are_free()
    ensures stated { StatedIsRenamed }
    ensures facts { ReportIsRenamed }
{
    keys_are_of_names();
}

/// A name is read of a text exactly where the text is two plain names joined by a colon, the first of them a prefix that
/// is declared, and it is the name that these stand for. An entity is read exactly where there is a declared prefix before
/// the first colon.
pub fn names_are_said()
    ensures names { NamesAreSaid }
    ensures entities { EntitiesAreSaid }
{}

/// The normal form of a period is that of the moment, or of the start and the end, that its text says, and of a text with
/// more slashes the text. The start of a day is said by its date, by the date with `T00:00:00`, and by no other text.
pub fn periods_are_said()
    ensures periods { PeriodsAreSaid }
    ensures days { DaysAreMoments }
{}

/// Measures are read of a unit text exactly where it is their product, or the quotient of two sides: joined by `*`, a
/// product beside a `/` in parentheses, each measure a name.
pub fn units_are_said()
    ensures { UnitsAreSaid }
{}

/// Facts are answered exactly where each member of `facts` is left out or readable, each with what the rules say of it,
/// and a fault exactly where it is that of the first member that breaks a rule.
pub fn facts_are_said()
    ensures facts { FactsAreSaid }
    ensures faults { FaultsAreFirst }
{}

/// The key of a fact that was read has a value at a dimension exactly where the fact states this value of this dimension.
pub fn keys_say_what_is_stated()
    ensures { KeysSayWhatIsStated }
{
    numbers_tell_names();
}
