// What an element declares, by prefix.
ghost use Rattle.std.specs.BTreeMap.{get_by_text};
ghost use Rattle.std.specs.Prelude.{◌≡◌, ◌∷◌, [], ℕ, List, Some, cond, OnOk, OnErr, option_map, encode_utf8_all};
ghost use Rattle.std.specs.Str.{bytes_eq, chars};
ghost use Rattle.xc_elements.specs.Declarations.{set_by};

use crate::nodes::NamespaceDeclaration;
use crate::texts::copy_of;
use std::alloc::{AllocError, Global};
use std::collections::BTreeMap;
use std::marker::Model;
use xc_lists::Text;

/// The namespaces that an element declares itself, the last first: Namespaces in XML 1.0, section 3.
///
/// An ordered map goes with them, so a prefix is looked up in time in the logarithm of their number.
#[derive(Debug, Drop)]
pub struct Declared {
    declarations: Vec<NamespaceDeclaration>,
    spaces: BTreeMap<String, Text>,
}

impl Model for Declared {
    ghost use Rattle.std.specs.BTreeMap.{get_by_text};
    ghost use Rattle.std.specs.Prelude.{◌≡◌, ℕ, List, reverse};
    ghost use Rattle.xc_elements.specs.Declarations.{set_by};
    ghost use Rattle.xc_elements.specs.declared.nodes.NamespaceDeclaration.{NamespaceDeclaration};

    ghost Value = { List NamespaceDeclaration };

    ghost view = { λ d. reverse d.declarations.items };

    ghost invariant = { λ d. (prefix : List ℕ) → get_by_text d.spaces prefix ≡ set_by (reverse d.declarations.items) prefix };
}

impl Declared {
    /// No declarations.
    pub(crate) fn new(alloc: Global) -> Declared
        ensures { result ≡ [] }
    {
        Declared {
            declarations: Vec::new(alloc),
            spaces: BTreeMap::new(alloc),
        }
    }

    /// Adds a declaration.
    pub(crate) fn add(&mut self, alloc: Global, prefix: &str, space: Text) -> Result<(), AllocError>
        ensures bytes { OnOk result (self.new ≡ record { prefix = prefix.now; space = space } ∷ self.old) }
        ensures characters { OnOk result (self.new ≡ record { prefix = encode_utf8_all (chars prefix.now); space = space } ∷ self.old) }
    {
        let declaration = NamespaceDeclaration {
            prefix: copy_of(alloc, prefix)?,
            space: space.copy()?,
        };
        self.declarations.reserve(1)?;
        note(&mut self.spaces, alloc, prefix, space)?;
        self.declarations.push_reserved(declaration);
        Ok(())
    }

    /// What a prefix is set to, or with the empty one the default namespace, where that is declared here. An empty URI
    /// clears what is declared further out.
    pub fn get(&self, prefix: &str) -> Option<&str>
        ensures { option_map (λ space. space.now) result ≡ set_by self.now prefix.now }
    {
        match self.spaces.get(prefix) {
            Some(space) => Some(space.as_str()),
            None => None,
        }
    }
}

/// Notes what a prefix is set to.
fn note(
    spaces: &mut BTreeMap<String, Text>,
    alloc: Global,
    prefix: &str,
    space: Text,
) -> Result<(), AllocError>
    ensures ok { OnOk result ((other : List ℕ) → get_by_text spaces.new other ≡ cond (bytes_eq prefix.now other) (Some space) (get_by_text spaces.old other)) }
    ensures err { OnErr result ((other : List ℕ) → get_by_text spaces.new other ≡ get_by_text spaces.old other) }
{
    let key = String::from_str(alloc, prefix)?;
    match spaces.insert(key, space) {
        Ok(_) => Ok(()),
        Err(_) => Err(AllocError),
    }
}
