//! What the definitions of this crate say, in the words of lines and reports.
//!
//! Each function does nothing: its contract is the law.
ghost use Rattle.xc_lines.specs.Laws.{PrintsOneWord, PrintsApart, PointsCarryFacts, FindingsArePassed, FindingsArePlain, HasOneJointPart, SettledIsText};

use xc_cert::laws::{passed_texts_join, written_is_text};

/// A printed text is one word of its line: spaces and line feeds stand only where a line has them.
pub fn prints_one_word()
    ensures { PrintsOneWord }
{}

/// Texts that are printed alike are one text, so that a role or an id can be read back from its line.
pub fn prints_apart()
    ensures { PrintsApart }
{}

/// The data points of a report meet what `findings` asks of their facts.
pub fn points_carry_facts()
    ensures { PointsCarryFacts }
{}

/// Findings are lines of which none is `certificate 1`, so that a certificate may stand behind them.
pub fn findings_are_passed()
    ensures { FindingsArePassed }
{}

/// No line of findings begins a joint part, so that it begins behind them.
pub fn findings_are_plain()
    ensures { FindingsArePlain }
{}

/// A text has one joint part at most: what stands from the first line on that begins with `joint `.
pub fn one_joint_part()
    ensures { HasOneJointPart }
{}

/// What is written where the joint question is settled is a text of its certificate, also behind findings.
pub fn settled_is_text()
    ensures { SettledIsText }
{
    passed_texts_join();
    written_is_text();
}
