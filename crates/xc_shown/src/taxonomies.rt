// The names and the concepts of a case, as schemas are added.
ghost use Rattle.xc_concepts.specs.Held.{AreHeld};

use std::alloc::{AllocError, Global};
use xc_concepts::{Concepts, SchemaFault, is_schema};
use xc_elements::{Tree, read_tree};
use xc_names::{NameId, Names};

/// The concepts of schemas, and the numbers of their names.
#[derive(Drop)]
pub struct Taxonomy {
    pub names: Names,
    pub concepts: Concepts,
    /// The text of the schema that was tried last.
    pub last: String,
    ghost held: { AreHeld concepts names },
}

impl Taxonomy {
    /// No schemas.
    pub fn new(alloc: Global) -> Taxonomy {
        Taxonomy {
            names: Names::new(alloc),
            concepts: Concepts::new(alloc),
            last: String::new(alloc),
        }
    }

    /// No schemas, and a name that has the number 0.
    pub fn with_name(alloc: Global, space: &str, local: &str) -> Result<Taxonomy, AllocError> {
        let mut names = Names::new(alloc);
        if names.number(space, local).is_err() {
            return Err(AllocError);
        }
        Ok(Taxonomy {
            names,
            concepts: Concepts::new(alloc),
            last: String::new(alloc),
        })
    }

    fn add(&mut self, file: &str, tree: &Tree) -> Option<SchemaFault> {
        if !is_schema(tree) {
            return Some(SchemaFault::Memory);
        }
        match self.concepts.add_schema(&mut self.names, file, tree) {
            Ok(()) => None,
            Err(fault) => Some(fault),
        }
    }
}

/// The tree of a document, where it is one.
pub fn tree_of(alloc: Global, text: &str) -> Option<Tree> {
    if text.len() >= 1_000_000 {
        return None;
    }
    read_tree(alloc, text.as_bytes()).ok()
}

/// Adds a schema, and says whether it was added.
pub fn add_schema(
    alloc: Global,
    out: &mut String,
    taxonomy: &mut Taxonomy,
    file: &str,
    text: &str,
) -> Result<(), AllocError> {
    taxonomy.last = String::from_str(alloc, text)?;
    out.push_str("schema ")?;
    out.push_str(file)?;
    let Some(tree) = tree_of(alloc, text) else {
        return out.push_str(" is no document\n");
    };
    match taxonomy.add(file, &tree) {
        Some(fault) => push_refusal(alloc, out, fault.code(), fault.place()),
        None => out.push_str(" added\n"),
    }
}

/// Says why a document is refused, by the code of the fault and the number of a node.
pub fn push_refusal(
    alloc: Global,
    out: &mut String,
    code: Option<&str>,
    place: Option<u32>,
) -> Result<(), AllocError> {
    out.push_str(" refused ")?;
    out.push_str(code.unwrap_or("no memory"))?;
    if let Some(place) = place {
        out.push_str(format!(in alloc; " {place}")?.as_str())?;
    }
    out.push_str("\n")
}

/// Numbers of names, with a space before each.
pub fn push_ids(alloc: Global, out: &mut String, ids: &[NameId]) -> Result<(), AllocError> {
    for id in ids {
        out.push_str(format!(in alloc; " {}", id.0)?.as_str())?;
    }
    Ok(())
}

/// What stands before the first space of words, and behind it.
pub fn around_space(words: &str) -> (&str, &str) {
    match words.split_once(' ') {
        Some((head, rest)) => (head, rest),
        None => (words, ""),
    }
}
