// Which points are linked by equations. Each points to a lesser one that is linked with it or to itself, which
// is then the root of all that lead to it. Ways are halved as they are gone, so that all together take about
// as many steps as there are entries.
ghost use Rattle.std.specs.Prelude.{◌≡◌, ◌+◌, ◌<◌, ◌^◌, ℕ, length, slice_index, All, IfOk};
ghost use Rattle.xc_system.specs.Steps.Roots.{Descends, IsRoots, IsJoined, roots_after_join, rank};
ghost use Rattle.xc_system.specs.Systems.{equation_at};

use crate::types::Equation;
use std::alloc::Global;
use xc_lists::Memory;

/// For each point a lesser one that is linked with it, or itself, such that linked points lead to one root.
pub fn roots(alloc: Global, points: u32, equations: &[Equation]) -> Result<Vec<u32>, Memory>
    requires { All (λ equation. All (λ entry. entry.point < points) equation.entries) equations.now }
    ensures length { IfOk result (λ up. length up.items ≡ points) }
    ensures joined { IfOk result (λ up. IsJoined equations.now (length equations.now) up.items) }
{
    let mut up = Vec::new(alloc);
    for p in 0..points {
        up.push(p)?;
    }
    let all = up.as_mut_slice();
    for i in 0..equations.len() {
        join_equation(all, equations, i);
    }
    Ok(up)
}

// Joins the points of one equation, each with the first.
fn join_equation(up: &mut [u32], equations: &[Equation], i: usize)
    requires there { i < length equations.now }
    requires named { All (λ entry. entry.point < length up.old) (equation_at equations.now i).entries }
    requires joined { IsJoined equations.now i up.old }
    ensures { IsJoined equations.now (i + 1) up.new }
{
    let entries = equations[i].entries.as_slice();
    for entry in entries {
        join(up, entries[0].point, entry.point);
    }
}

// Joins the numbers that have the roots of a and b.
fn join(up: &mut [u32], a: u32, b: u32)
    requires left { a < length up.old }
    requires right { b < length up.old }
    requires descends { Descends up.old }
    ensures descends { Descends up.new }
    ensures roots { (root : ℕ → ℕ) → IsRoots up.old root → IsRoots up.new (roots_after_join root a b) }
{
    let left = root_of(up, a);
    let right = root_of(up, b);
    if left < right {
        up[right as usize] = left;
    } else {
        up[left as usize] = right;
    }
}

// The root of p. On the way each number that is passed is pointed to the one after the next.
fn root_of(up: &mut [u32], p: u32) -> u32
    requires there { p < length up.old }
    requires descends { Descends up.old }
    ensures descends { Descends up.new }
    ensures there { result < length up.new }
    ensures top { slice_index up.new result ≡ result }
    ensures same { (root : ℕ → ℕ) → IsRoots up.old root → IsRoots up.new root }
    ensures root { (root : ℕ → ℕ) → IsRoots up.old root → result ≡ root p }
{
    let mut q = p;
    let mut above = up[q as usize];
    while above != q {
        let next = up[above as usize];
        up[q as usize] = next;
        q = next;
        above = up[q as usize];
    }
    q
}

/// The number of each one's root among the roots, and how many roots there are.
pub fn numbers(alloc: Global, up: &[u32]) -> Result<(Vec<u32>, u32), Memory>
    requires descends { Descends up.now }
    requires few { length up.now < 2 ^ 32 }
    ensures length { IfOk result (λ r. length r.0.items ≡ length up.now) }
    ensures count { IfOk result (λ r. r.1 ≡ rank up.now (length up.now)) }
    ensures numbers { IfOk result (λ r. (root : ℕ → ℕ) → IsRoots up.now root → (q : ℕ) → q < length up.now
        → slice_index r.0.items q ≡ rank up.now (root q)) }
{
    let mut numbers = Vec::new(alloc);
    let mut count = 0;
    for p in 0..up.len() {
        let above = up[p] as usize;
        if above == p {
            numbers.push(count)?;
            count += 1;
        } else {
            let number = numbers[above];
            numbers.push(number)?;
        }
    }
    Ok((numbers, count))
}
