//! What follows from the definitions for all systems. The functions do nothing: code calls one where its
//! proof needs the clauses.
ghost use Rattle.xc_system.specs.Laws.{ExcludesPassing, ExcludesSolutions, SolvingMaySolve, JoinedSolve, PartsSolved, PartContradicts, PointsAreInside, EquationsAreInside, OwnsPoints, LinksAreEquivalences, HasWithin, PointsWithin};

/// A contradiction excludes every assignment that the listed facts admit and that meets the listed
/// equations. So none solves the system, whatever a wide fact might stand for.
pub fn contradictions_exclude()
    ensures listed { ExcludesPassing }
    ensures solutions { ExcludesSolutions }
    ensures solving { SolvingMaySolve }
{}

/// Solutions of all components, joined, solve the system, and a contradiction of one component is one of
/// the system.
pub fn components_decide()
    ensures joined { JoinedSolve }
    ensures parts { PartsSolved }
    ensures contradiction { PartContradicts }
{}

/// What a component has is the system's, and the points of its equations are its own.
pub fn components_are_closed()
    ensures points { PointsAreInside }
    ensures equations { EquationsAreInside }
    ensures own { OwnsPoints }
{}

/// Links lead both ways, and one after another.
pub fn links_are_equivalences()
    ensures { LinksAreEquivalences }
{}

/// Where an equation has a point, both are the system's.
pub fn equations_name_points()
    ensures equations { HasWithin }
    ensures points { PointsWithin }
{}
