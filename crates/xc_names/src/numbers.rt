// Numbers of names in a map from namespaces to maps from local parts: a look-up by two texts
// makes no key.
ghost use Rattle.std.specs.Prelude.{◌≡◌, ℕ, List, Some, cond, is_some, true, OnOk, OnErr};
ghost use Rattle.std.specs.HashMap.{get_by_text};
ghost use Rattle.std.specs.Str.{bytes_eq};
ghost use Rattle.xc_names.specs.Names.{name_of, is_named};
ghost use Rattle.xc_names.specs.Steps.Numbers.{number_in};

use indexmap::IndexMap;
use std::alloc::Global;
use xc_lists::Memory;

pub(crate) type Locals = IndexMap<String, u64>;

pub(crate) type Spaces = IndexMap<String, Locals>;

/// The number of a local part under a namespace.
pub(crate) fn number_in(spaces: &Spaces, space: &str, local: &str) -> Option<u64>
    ensures { result ≡ number_in spaces.now space.now local.now }
{
    match spaces.get(space) {
        Some(locals) => locals.get(local).copied(),
        None => None,
    }
}

/// Notes the number of a local part under a namespace. A namespace without local parts may stay
/// behind where memory is wanting, which no look-up sees.
pub(crate) fn note(
    spaces: &mut Spaces,
    alloc: Global,
    space: &str,
    local: &str,
    number: u64,
) -> Result<(), Memory>
    ensures ok { OnOk result ((s l : List ℕ) → number_in spaces.new s l ≡ cond (is_named s l (name_of space.now local.now)) (Some number) (number_in spaces.old s l)) }
    ensures err { OnErr result ((s l : List ℕ) → number_in spaces.new s l ≡ number_in spaces.old s l) }
{
    open_space(spaces, alloc, space)?;
    match spaces.get_mut(space) {
        Some(locals) => note_local(locals, alloc, local, number),
        None => Err(Memory),
    }
}

// Sees to it that the map has the namespace.
fn open_space(spaces: &mut Spaces, alloc: Global, space: &str) -> Result<(), Memory>
    ensures there { OnOk result (is_some (get_by_text spaces.new space.now) ≡ true) }
    ensures same { (s l : List ℕ) → number_in spaces.new s l ≡ number_in spaces.old s l }
{
    if spaces.contains_key(space) {
        return Ok(());
    }
    let key = String::from_str(alloc, space)?;
    match spaces.insert(key, IndexMap::new(alloc)) {
        Ok(_) => Ok(()),
        Err(_) => Err(Memory),
    }
}

fn note_local(locals: &mut Locals, alloc: Global, local: &str, number: u64) -> Result<(), Memory>
    ensures ok { OnOk result ((l : List ℕ) → get_by_text locals.new l ≡ cond (bytes_eq local.now l) (Some number) (get_by_text locals.old l)) }
    ensures err { OnErr result (locals.new.entries ≡ locals.old.entries) }
{
    let key = String::from_str(alloc, local)?;
    match locals.insert(key, number) {
        Ok(_) => Ok(()),
        Err(_) => Err(Memory),
    }
}
