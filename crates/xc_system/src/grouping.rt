// Places of a list, by what stands there.
ghost use Rattle.std.specs.Prelude.{◌≡◌, ◌<◌, ◌^◌, length, map, IfOk};
ghost use Rattle.xc_lists.specs.Places.{before};
ghost use Rattle.xc_lists.specs.Members.{places_with};

use std::alloc::Global;
use xc_lists::{Items, Memory};

/// For each number below the count, the places at which it stands, ascending.
pub fn places_by_number(
    alloc: Global,
    numbers: &[u32],
    count: u32,
) -> Result<Vec<Items<u32>>, Memory>
    requires { length numbers.now < 2 ^ 32 }
    ensures { IfOk result (λ groups. groups.items ≡ map (places_with numbers.now) (before count)) }
{
    as_items(alloc, places_as_vectors(alloc, numbers, count)?)
}

// The same as lists that can grow.
fn places_as_vectors(alloc: Global, numbers: &[u32], count: u32) -> Result<Vec<Vec<u32>>, Memory>
    requires { length numbers.now < 2 ^ 32 }
    ensures { IfOk result (λ groups. map (λ group. group.items) groups.items ≡ map (places_with numbers.now) (before count)) }
{
    let mut groups = Vec::new(alloc);
    for _number in 0..count {
        groups.push(Vec::new(alloc))?;
    }
    for i in 0..numbers.len() {
        let number = numbers[i];
        if number < count {
            groups[number as usize].push(i as u32)?;
        }
    }
    Ok(groups)
}

// The lists as they are lent.
fn as_items(alloc: Global, groups: Vec<Vec<u32>>) -> Result<Vec<Items<u32>>, Memory>
    ensures { IfOk result (λ lent. lent.items ≡ map (λ group. group.items) groups.items) }
{
    let mut lent = Vec::new(alloc);
    for group in groups {
        lent.push(Items::of(group))?;
    }
    Ok(lent)
}
