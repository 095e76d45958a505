// Points that are found by concept and key, and by concept alone.
ghost use Rattle.std.specs.Prelude.{◌≡◌, ◌<◌, ◌^◌, length, map, IfOk};
ghost use Rattle.xc_bind.specs.Bindings.{number_of};
ghost use Rattle.xc_bind.specs.Steps.Numbered.{AreNumbered, numbers_of};
ghost use Rattle.xc_bind.specs.Steps.Places.{place_at};
ghost use Rattle.xc_points.specs.Places.{place_of};

use std::alloc::Global;
use std::collections::BTreeMap;
use std::marker::Model;
use xc_lists::{Firsts, Memory};
use xc_names::NameId;
use xc_points::{Place, Point};

/// Points, of which one is found by its concept and key, and those of a concept by the concept, without going
/// through the others.
#[derive(Drop)]
pub(crate) struct PointIndex<'a> {
    points: &'a [Point],
    places: Firsts<Place>,
    numbers: BTreeMap<u64, Vec<usize>>,
}

impl<'a> Model for PointIndex<'a> {
    ghost use Rattle.std.specs.Prelude.{◌≡◌, List, map};
    ghost use Rattle.xc_bind.specs.Steps.Numbered.{AreNumbered};
    ghost use Rattle.xc_points.specs.Places.{place_of};
    ghost use Rattle.xc_points.specs.declared.types.Point.{Point};

    ghost Value = { List Point };

    ghost view = { λ index. index.points.now };

    ghost invariant = { λ index. (index.places ≡ map place_of index.points.now)
        × AreNumbered index.numbers index.points.now };
}

impl<'a> PointIndex<'a> {
    /// The index of these points.
    pub(crate) fn of(alloc: Global, points: &'a [Point]) -> Result<PointIndex<'a>, Memory>
        ensures { IfOk result (λ index. index ≡ points.now) }
    {
        let places = Firsts::of(alloc, places_of(alloc, points)?)?;
        let numbers = numbers_by_concept(alloc, points)?;
        Ok(PointIndex {
            points,
            places,
            numbers,
        })
    }

    /// The points.
    pub(crate) fn points(&self) -> &'a [Point]
        ensures { result.now ≡ self.now }
    {
        self.points
    }

    /// The number of the point of this concept with this key.
    pub(crate) fn number_of(&self, concept: NameId, key: u64) -> Option<u32>
        requires { length self.now < 2 ^ 32 }
        ensures { result ≡ number_of self.now concept key }
    {
        match self.places.first(&place_at(concept, key)) {
            Some(place) => Some(place as u32),
            None => None,
        }
    }

    /// The numbers of the points of this concept, ascending.
    pub(crate) fn numbers_of(&self, concept: NameId) -> &[usize]
        ensures { result.now ≡ numbers_of self.now concept }
    {
        match self.numbers.get(&concept.0) {
            Some(numbers) => numbers.as_slice(),
            None => &[],
        }
    }
}

// A concept and a key.
fn place_at(concept: NameId, key: u64) -> Place
    ensures { result ≡ place_at concept key }
{
    Place { concept, key }
}

// The concept and the key of each point.
fn places_of(alloc: Global, points: &[Point]) -> Result<Vec<Place>, Memory>
    ensures { IfOk result (λ places. places.items ≡ map place_of points.now) }
{
    let mut places = Vec::new(alloc);
    for point in points {
        places.push(point.place())?;
    }
    Ok(places)
}

// The numbers of the points by their concepts.
fn numbers_by_concept(alloc: Global, points: &[Point]) -> Result<BTreeMap<u64, Vec<usize>>, Memory>
    ensures { IfOk result (λ numbers. AreNumbered numbers points.now) }
{
    let mut numbers: BTreeMap<u64, Vec<usize>> = BTreeMap::new(alloc);
    for (number, point) in points.iter().enumerate() {
        numbers
            .entry(point.concept.0)?
            .or_insert(Vec::new(alloc))
            .push(number)?;
    }
    Ok(numbers)
}
