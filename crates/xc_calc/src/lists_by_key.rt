// Values that are kept in lists, one for each key.
ghost use Rattle.std.specs.Prelude.{◌≡◌, ◌++◌, ◌∷◌, [], if◌then◌else◌, OnOk};
ghost use Rattle.std.specs.Ordering.{is_eq};
ghost use Rattle.xc_calc.specs.Steps.{list_of};

use std::alloc::Global;
use std::collections::BTreeMap;
use xc_lists::Memory;

/// Puts a value at the end of the list of a key.
pub(crate) fn put_last<K: Ord + Copy, T: Copy>(
    alloc: Global,
    lists: &mut BTreeMap<K, Vec<T>>,
    key: K,
    value: T,
) -> Result<(), Memory>
    ensures { OnOk result ((q : K) → list_of K.cmp lists.new q ≡ list_of K.cmp lists.old q ++ (if is_eq (K.cmp q key) then value ∷ [] else [])) }
{
    if let Some(list) = lists.get_mut(&key) {
        list.push(value)?;
        return Ok(());
    }
    let mut list = Vec::new(alloc);
    list.push(value)?;
    lists.insert(key, list)?;
    Ok(())
}

/// The list of a key, which is empty where nothing was put into it.
pub(crate) fn list_of<'a, K: Ord, T>(lists: &'a BTreeMap<K, Vec<T>>, key: &K) -> &'a [T]
    ensures { result.now ≡ list_of K.cmp lists.now key.now }
{
    match lists.get(key) {
        Some(list) => list.as_slice(),
        None => &[],
    }
}
