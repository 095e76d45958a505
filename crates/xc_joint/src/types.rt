// What is answered of a system, as plain data.
use xc_corners::Corner;
use xc_frac::{Frac, Wide};
use xc_lists::Items;
use xc_system::Certificate;

/// Why a component is not settled.
#[derive(Debug, Drop)]
pub enum Cause {
    /// The component has a wide fact, this one first.
    Fact(u32),
    /// No value satisfies all facts of a point, by the low end of the first fact and the high end of the
    /// second; but an operation on these ends passes 128 bits.
    Ends(u32, u32, Wide),
    /// At this corner of the component's problem an operation passes 128 bits: on the way to an answer, or where the
    /// checker sums the answer.
    Corner(Corner, Wide),
}

/// What is found of one component.
#[derive(Debug, Drop)]
pub enum Part {
    /// A value for each of its points in order, by which it is solved.
    Values(Items<Frac>),
    /// Why there is no answer.
    Wide(Cause),
}

/// The answer to the question whether one value for each point satisfies all facts and equations.
#[derive(Debug, Drop)]
pub enum Joint {
    /// Values for all points, or multipliers that contradict a component.
    Settled(Certificate),
    /// No component was contradicted, and some have no answer: what was found of each, in order.
    TooWide(Items<Part>),
}
