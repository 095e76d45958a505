// The kinds of concepts, and the steps of chains of type names.
ghost use Rattle.std.specs.Prelude.{◌≡◌, [], List, option_map, length};
ghost use Rattle.xc_concepts.specs.Chains.{is_decimal, is_item_type, base_name, kind_by_last};
ghost use Rattle.xc_concepts.specs.Declarations.{types_in};
ghost use Rattle.xc_concepts.specs.Steps.Links.{as_name, AreBases};
ghost use Rattle.xc_concepts.specs.declared.schema.NamedType.{NamedType};

use crate::links::{Links, TypeName};
use crate::schema::Schema;

const INSTANCE_SPACE: &str = "http://www.xbrl.org/2003/instance";

/// What a concept's type says of its values.
#[derive(Clone, Copy, Debug, PartialEq, Eq)]
pub enum Kind {
    /// Its type is derived by restriction from a decimal item type of XBRL, so calculations apply to
    /// it (XBRL 2.1, section 5.1.1.3).
    Decimal,
    /// Its type is another.
    Other,
    /// Its type was not found in the schemas that were handed in, or leads back to itself.
    Unknown,
}

/// How many types the schemas have.
pub(crate) fn count_types(schemas: &[Schema]) -> u128
    ensures { result ≡ length (types_in schemas.now) }
{
    let mut count: u128 = 0;
    for schema in schemas {
        count += schema.types.as_slice().len() as u128;
    }
    count
}

/// The name of the base of the type with this name.
pub(crate) fn base_name<'a>(bases: &'a Links<TypeName>, name: &TypeName) -> Option<&'a TypeName>
    ensures { (types : List NamedType) → AreBases types bases.now → option_map (λ n. as_name n.now) result ≡ base_name types (as_name name.now) }
{
    if is_item_type(name) {
        return None;
    }
    match bases.get(name) {
        Some(base) => base.as_ref(),
        None => None,
    }
}

/// The kind by the last name of a chain that does not lead back to itself.
pub(crate) fn kind_of_last(bases: &Links<TypeName>, name: &TypeName) -> Kind
    ensures { (types : List NamedType) → AreBases types bases.now → result ≡ kind_by_last types [] (as_name name.now) }
{
    if is_item_type(name) {
        if is_decimal(name.local.as_str()) {
            return Kind::Decimal;
        }
        return Kind::Other;
    }
    if bases.contains_key(name) {
        Kind::Other
    } else {
        Kind::Unknown
    }
}

fn is_item_type(name: &TypeName) -> bool
    ensures { result ≡ is_item_type (as_name name.now) }
{
    name.space.as_str() == INSTANCE_SPACE
}

// The item types of XBRL that are decimal.
fn is_decimal(local: &str) -> bool
    ensures { result ≡ is_decimal local.now }
{
    matches!(
        local,
        "decimalItemType"
            | "monetaryItemType"
            | "sharesItemType"
            | "pureItemType"
            | "integerItemType"
            | "nonPositiveIntegerItemType"
            | "negativeIntegerItemType"
            | "longItemType"
            | "intItemType"
            | "shortItemType"
            | "byteItemType"
            | "nonNegativeIntegerItemType"
            | "unsignedLongItemType"
            | "unsignedIntItemType"
            | "unsignedShortItemType"
            | "unsignedByteItemType"
            | "positiveIntegerItemType"
    )
}
