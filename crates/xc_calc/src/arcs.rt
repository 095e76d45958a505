ghost use Rattle.std.specs.Prelude.{◌≡◌, ◌⊎◌, [], true, Some, None, map, IfOk, IfErr, OnOk, OnErr};
ghost use Rattle.xc_calc.specs.Linkbases.{is_linkbase};
ghost use Rattle.xc_calc.specs.Linked.{empty_of, with_arcs, arcs_in};
ghost use Rattle.xc_calc.specs.Networks.{AreNetworks};
ghost use Rattle.xc_calc.specs.Rules.{first_broken};
ghost use Rattle.xc_calc.specs.Wanted.{AreNodes};
ghost use Rattle.xc_concepts.specs.Held.{AreTyped};

use crate::arc::{ArcKind, ListedArc, Network};
use crate::effective::effective_arcs;
use crate::fault::LinkFault;
use crate::linked::arcs_in;
use crate::networks::{networks_of, roles_of};
use crate::wanted::nodes_of;
use std::alloc::Global;
use std::marker::Model;
use xc_concepts::Concepts;
use xc_elements::Tree;
use xc_lists::{Items, Memory};
use xc_names::Wanted;

/// The arcs of calculation linkbases, in the order in which they are read: by document, and in each by
/// arc element, source locator and target locator in the order of the document.
#[derive(Drop)]
pub struct Arcs {
    kind: ArcKind,
    arcs: Vec<ListedArc>,
    alloc: Global,
}

impl Model for Arcs {
    ghost use Rattle.xc_calc.specs.Linked.{Linked};

    ghost Value = { Linked };

    ghost view = { λ a. record { kind = a.kind; arcs = a.arcs.items } };
}

impl Arcs {
    /// No arcs. Those of this kind are chosen from the linkbases that are added.
    pub fn new(alloc: Global, kind: ArcKind) -> Arcs
        ensures { result ≡ empty_of kind }
    {
        Arcs {
            kind,
            arcs: Vec::new(alloc),
            alloc,
        }
    }

    /// Adds the chosen arcs of a linkbase document (XBRL 2.1, section 5.2.5).
    ///
    /// The tree's root is `linkbase` of XBRL, which `is_linkbase` tells. A chosen arc element is a
    /// `calculationArc` child of a `calculationLink` child of the root, with the arcrole of the kind. It
    /// gives one arc for each locator of its link whose label is its `from` and each whose label is its
    /// `to`.
    ///
    /// The chosen arc elements are taken in the order of the document, and the first that breaks a rule
    /// gives the refusal, by the first of these rules: `BadWeight`, `ZeroWeight`, `BadOrder`,
    /// `BadPriority`, `BadUse`, `NoLocator`, with the number of the arc element's node; and then at its
    /// source locators, and after them at its target locators, `Unresolved`, `UnknownType`,
    /// `NodeNotDecimal`, with the number of the locator's node. A refusal leaves the arcs as they were.
    pub fn add_linkbase(&mut self, tree: &Tree, concepts: &Concepts) -> Result<(), LinkFault>
        requires { is_linkbase tree.now ≡ true }
        ensures added { OnOk result (self.new ≡ with_arcs self.old (arcs_in self.old.kind concepts.now tree.now)) }
        ensures sound { OnOk result (first_broken self.old.kind concepts.now tree.now ≡ None) }
        ensures fault { IfErr result (λ e. (e ≡ LinkFault.Memory) ⊎ (first_broken self.old.kind concepts.now tree.now ≡ Some e)) }
        ensures unchanged { OnErr result (self.new ≡ self.old) }
    {
        let mut arcs = arcs_in(self.alloc, self.kind, tree, concepts)?;
        match self.arcs.append(&mut arcs) {
            Ok(()) => Ok(()),
            Err(_) => Err(LinkFault::Memory),
        }
    }

    /// The networks of the effective arcs, ordered by role as bytes; in each the arcs stand in reading
    /// order. A role without effective arcs has no network.
    ///
    /// An arc is effective where it is not prohibited, no equivalent arc has a higher priority, no
    /// equivalent arc of its priority is prohibited (XBRL 2.1, section 3.5.3.9.7.5), and no earlier
    /// equivalent arc has its priority (this project's own choice between equal arcs).
    pub fn effective(&self) -> Result<Vec<Network>, Memory>
        ensures { IfOk result (λ networks. AreNetworks self.now.arcs networks.items) }
    {
        let effective = effective_arcs(self.alloc, self.arcs.as_slice())?;
        let roles = roles_of(self.alloc, effective.as_slice())?;
        networks_of(self.alloc, effective.as_slice(), &roles)
    }

    /// The concepts at the ends of the arcs, effective or not, and the typed dimensions of the schemas;
    /// in each list every number once, ascending.
    pub fn wanted(&self, concepts: &Concepts) -> Result<Wanted, Memory>
        ensures nodes { IfOk result (λ wanted. AreNodes self.now.arcs (map (λ id. id.0) wanted.nodes)) }
        ensures typed { IfOk result (λ wanted. AreTyped concepts.now (map (λ id. id.0) wanted.typed)) }
    {
        Ok(Wanted {
            nodes: Items::of(nodes_of(self.alloc, self.arcs.as_slice())?),
            typed: Items::of(concepts.typed_dimensions()?),
        })
    }
}
