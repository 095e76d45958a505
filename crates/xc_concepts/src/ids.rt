// The numbers of concepts in a map from files to maps from ids: a look-up by two texts makes no key.
ghost use Rattle.std.specs.Prelude.{◌≡◌, ℕ, List, Some, cond, IfOk, OnOk, OnErr};
ghost use Rattle.std.specs.BTreeMap.{get_by_text};
ghost use Rattle.std.specs.Option.{option_or};
ghost use Rattle.std.specs.Str.{bytes_eq};
ghost use Rattle.xc_concepts.specs.Steps.Ids.{number_at, number_with_id, own_number};

use crate::schema::Concept;
use std::alloc::Global;
use std::collections::BTreeMap;
use xc_lists::Memory;

pub(crate) type Numbers = BTreeMap<String, u64>;

pub(crate) type Files = BTreeMap<String, Numbers>;

/// The number of the concept that an id names in a file.
pub(crate) fn number_at(files: &Files, file: &str, id: &str) -> Option<u64>
    ensures { result ≡ number_at files.now file.now id.now }
{
    match files.get(file) {
        Some(numbers) => numbers.get(id).copied(),
        None => None,
    }
}

/// The numbers of the concepts of one file by their ids; of several with one id, the first.
pub(crate) fn numbers_by_id(alloc: Global, concepts: &[Concept]) -> Result<Numbers, Memory>
    ensures { IfOk result (λ numbers. (id : List ℕ) → get_by_text numbers id ≡ number_with_id concepts.now id) }
{
    let mut numbers = BTreeMap::new(alloc);
    for concept in concepts {
        note_id(&mut numbers, alloc, concept)?;
    }
    Ok(numbers)
}

// Notes the number of a concept under its id, where it has one that is not there.
fn note_id(numbers: &mut Numbers, alloc: Global, concept: &Concept) -> Result<(), Memory>
    ensures { OnOk result ((id : List ℕ) → get_by_text numbers.new id ≡ option_or (get_by_text numbers.old id) (own_number id concept.now)) }
{
    let Some(id) = &concept.declared.id else {
        return Ok(());
    };
    if numbers.contains_key(id.as_str()) {
        return Ok(());
    }
    insert_number(numbers, alloc, id.as_str(), concept.number.0)
}

fn insert_number(numbers: &mut Numbers, alloc: Global, id: &str, number: u64) -> Result<(), Memory>
    ensures { OnOk result ((i : List ℕ) → get_by_text numbers.new i ≡ cond (bytes_eq id.now i) (Some number) (get_by_text numbers.old i)) }
{
    let key = String::from_str(alloc, id)?;
    match numbers.insert(key, number) {
        Ok(_) => Ok(()),
        Err(_) => Err(Memory),
    }
}

/// Notes the numbers of a file.
pub(crate) fn note_file(
    files: &mut Files,
    alloc: Global,
    file: &str,
    numbers: Numbers,
) -> Result<(), Memory>
    ensures ok { OnOk result ((f id : List ℕ) → number_at files.new f id ≡ cond (bytes_eq file.now f) (get_by_text numbers id) (number_at files.old f id)) }
    ensures err { OnErr result ((f id : List ℕ) → number_at files.new f id ≡ number_at files.old f id) }
{
    let key = String::from_str(alloc, file)?;
    match files.insert(key, numbers) {
        Ok(_) => Ok(()),
        Err(_) => Err(Memory),
    }
}
