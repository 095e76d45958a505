// The declarations of namespaces that are in scope.
ghost use Rattle.std.specs.Prelude.{◌≡◌, ◌≤◌, ◌-◌, ◌∷◌, [], ℕ, List, IfOk, IsSome, cond, length, drop, option_map, option_and_then};
ghost use Rattle.std.specs.Str.{bytes_eq, chars};
ghost use Rattle.xc_elements.specs.Steps.Bindings.{place_in};
ghost use Rattle.xc_elements.specs.Namespaces.{Binding, declares_prefix, declares_default, declared_prefix, nearest, space_under, element_space, attribute_space};
ghost use Rattle.xc_elements.specs.Scopes.{not_empty};
ghost use Rattle.xc_elements.specs.Steps.Views.{lent_text, name_view};

use crate::names::QualifiedName;
use crate::texts::{is_nothing, spells};
use crate::trees::{DECLARATIONS_SPACE, XML_SPACE, not_empty};
use std::alloc::{AllocError, Global};
use std::collections::BTreeMap;
use std::marker::Model;
use xc_lists::Text;

/// A prefix, or the empty one for the default, and the namespace that it is set to.
#[derive(Drop)]
pub(crate) struct BoundPrefix<'a> {
    prefix: &'a str,
    space: Text,
    /// The place of the nearest declaration of this prefix outside it.
    shadowed: Option<usize>,
}

/// All that is declared by the tags that are open, the nearest last.
///
/// An ordered map has the place of the nearest declaration of each prefix, so a look-up takes time
/// in the logarithm of their number, however many a document declares.
#[derive(Drop)]
pub(crate) struct Scope<'a> {
    bindings: Vec<BoundPrefix<'a>>,
    places: BTreeMap<&'a str, usize>,
}

impl<'a> Model for Scope<'a> {
    ghost use Rattle.std.specs.Prelude.{List, map, reverse};
    ghost use Rattle.xc_elements.specs.Namespaces.{Binding};
    ghost use Rattle.xc_elements.specs.Steps.Bindings.{binding_view, IsIndexed};

    ghost Value = { List Binding };

    ghost view = { λ s. reverse (map binding_view s.bindings.items) };

    ghost invariant = { λ s. IsIndexed s.places s.bindings.items };
}

impl<'a> Scope<'a> {
    pub(crate) fn new(alloc: Global) -> Scope<'a>
        ensures { result ≡ [] }
    {
        Scope {
            bindings: Vec::new(alloc),
            places: BTreeMap::new(alloc),
        }
    }

    /// How many declarations there are.
    pub(crate) fn len(&self) -> usize
        ensures { result ≡ length self.now }
    {
        self.bindings.len()
    }

    /// Sets a prefix to a namespace.
    pub(crate) fn bind(&mut self, prefix: &'a str, space: Text) -> Result<(), AllocError>
        ensures { IfOk result (λ _. self.new ≡ record { prefix = chars prefix.now; space = space } ∷ self.old) }
    {
        self.bindings.reserve(1)?;
        let shadowed = self.places.insert(prefix, self.bindings.len())?;
        self.bindings.push_reserved(BoundPrefix {
            prefix,
            space,
            shadowed,
        });
        Ok(())
    }

    /// Leaves the elements inside which more than so many declarations were made.
    pub(crate) fn leave(&mut self, outside: usize)
        ensures { self.new ≡ drop (length self.old - outside) self.old }
    {
        while self.len() > outside {
            self.leave_nearest();
        }
    }

    /// Takes the nearest declaration back, so that the one that it shadows holds again.
    fn leave_nearest(&mut self)
        ensures { self.new ≡ drop 1 self.old }
    {
        if let Some(bound) = self.bindings.pop() {
            give_back(&mut self.places, bound.prefix, bound.shadowed);
        }
    }

    /// What the nearest declaration of a prefix sets it to.
    fn nearest(&self, prefix: &str) -> Option<&str>
        ensures { option_map (λ space. space.now) result ≡ nearest self.now (chars prefix.now) }
    {
        match self.places.get(prefix) {
            Some(place) => Some(self.bindings[*place].space.as_str()),
            None => None,
        }
    }

    /// The namespace of a prefix, or of the default.
    fn space_under(&self, prefix: &str) -> Option<&str>
        ensures { option_map (λ space. space.now) result ≡ space_under self.now (chars prefix.now) }
    {
        if spells(prefix, &['x', 'm', 'l']) {
            Some(XML_SPACE)
        } else if spells(prefix, &['x', 'm', 'l', 'n', 's']) {
            None
        } else {
            not_empty(self.nearest(prefix))
        }
    }

    /// The namespace of an element's name.
    #[tactic(auto, using(crate::proofs::TextLaws::no_text))]
    pub(crate) fn element_space(&self, name: QualifiedName) -> Option<&str>
        ensures { option_map (λ space. space.now) result ≡ element_space self.now (name_view name.entry) }
    {
        if is_nothing(name.prefix) {
            Some(self.space_under("").unwrap_or(""))
        } else {
            self.space_under(name.prefix)
        }
    }

    /// The namespace of an attribute's name.
    pub(crate) fn attribute_space(&self, name: QualifiedName) -> Option<&str>
        ensures { option_map (λ space. space.now) result ≡ attribute_space self.now (name_view name.entry) }
    {
        if declares_prefix(name) || declares_default(name) {
            Some(DECLARATIONS_SPACE)
        } else if is_nothing(name.prefix) {
            Some("")
        } else {
            self.space_under(name.prefix)
        }
    }
}

/// Gives a prefix that has a place the one that it had before, or none.
fn give_back<'a>(places: &mut BTreeMap<&'a str, usize>, prefix: &'a str, before: Option<usize>)
    requires { IsSome (place_in places.old prefix.now) }
    ensures { (other : List ℕ) → place_in places.new other ≡ cond (bytes_eq prefix.now other) before (place_in places.old other) }
{
    match before {
        Some(place) => {
            if let Some(kept) = places.get_mut(prefix) {
                *kept = place;
            }
        }
        None => {
            places.remove(prefix);
        }
    }
}

/// Whether an attribute of this name declares a prefix.
pub(crate) fn declares_prefix(name: QualifiedName) -> bool
    ensures { result ≡ declares_prefix (name_view name.entry) }
{
    spells(name.prefix, &['x', 'm', 'l', 'n', 's'])
}

/// Whether an attribute of this name declares the default namespace.
pub(crate) fn declares_default(name: QualifiedName) -> bool
    ensures { result ≡ declares_default (name_view name.entry) }
{
    is_nothing(name.prefix) && spells(name.local, &['x', 'm', 'l', 'n', 's'])
}

/// The prefix that an attribute of this name declares, which is empty for the default.
#[tactic(auto, using(crate::proofs::TextLaws::no_text))]
pub(crate) fn declared_prefix(name: QualifiedName<'_>) -> Option<&str>
    ensures { option_map lent_text result ≡ declared_prefix (name_view name.entry) }
{
    if declares_prefix(name) {
        Some(name.local)
    } else if declares_default(name) {
        Some("")
    } else {
        None
    }
}
