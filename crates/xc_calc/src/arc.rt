ghost use Rattle.std.specs.Prelude.{◌≡◌};

use crate::shared::Shared;
use xc_decimal::Decimal;
use xc_elements::Attribute;
use xc_lists::{Items, Text};
use xc_names::NameId;

/// Which arcs count: those with the arcrole of Calculations 1.1, or those with the one of XBRL 2.1.
#[derive(Clone, Copy, Debug, PartialEq, Eq)]
pub enum ArcKind {
    /// `https://xbrl.org/2023/arcrole/summation-item`.
    New,
    /// `http://www.xbrl.org/2003/arcrole/summation-item`.
    Old,
}

/// An arc from a total to a contributor.
#[derive(Clone, Copy, Debug)]
pub struct Arc {
    /// The total.
    pub from: NameId,
    /// The contributor.
    pub to: NameId,
    /// By how much the contributor counts. A linkbase with a weight of 0 is refused (`ZeroWeight`).
    pub weight: Decimal,
}

/// The effective arcs of one role.
#[derive(Debug, Drop)]
pub struct Network {
    /// The role's URI; empty where an extended link has none.
    pub role: Text,
    /// In reading order; there is one at least.
    pub arcs: Items<Arc>,
}

/// What an arc is for: XBRL 2.1, section 3.5.3.9.7.1.
#[derive(Clone, Copy, Debug, PartialEq, Eq)]
pub enum Use {
    Optional,
    /// It stands against the equivalent arcs of its priority and of lower ones.
    Prohibited,
}

/// An arc as a linkbase has it, whether or not it is effective.
#[derive(Debug, Drop)]
pub struct ListedArc {
    /// The role of its extended link, shared by all arcs of its element.
    pub role: Shared<Text>,
    pub arc: Arc,
    pub order: Decimal,
    /// The attributes of its element that are compared as texts where arcs are compared, shared by all its arcs.
    pub others: Shared<Items<Attribute>>,
    pub priority: i64,
    pub usage: Use,
}

impl ListedArc {
    /// Its role, as a text that is lent.
    pub fn role(&self) -> &str
        ensures { result.now ≡ self.now.role }
    {
        self.role.value().as_str()
    }

    /// Its other attributes, as a list that is lent.
    pub fn others(&self) -> &[Attribute]
        ensures { result.now ≡ self.now.others }
    {
        self.others.value().as_slice()
    }
}
