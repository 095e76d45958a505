// Tags, with their names expanded.
ghost use Rattle.std.specs.Prelude.{◌≡◌, ◌&&◌, ◌||◌, ◌++◌, option_map, Bool, false, true, IfOk, IfErr, map, reverse, is_none, is_some, encode_utf8_all};
ghost use Rattle.std.specs.List.{filter_map, cons_option, list_any};
ghost use Rattle.std.specs.Str.{chars};
ghost use Rattle.xc_elements.specs.Items.{is_nil};
ghost use Rattle.xc_elements.specs.Steps.Views.{name_view, given_view, IsReadable, IsReadableTag};
ghost use Rattle.xc_elements.specs.Namespaces.{binding_of, declaration_of, declared_by, element_space, attribute_space, attribute_local, expand, lacks_space, tag_lacks_space, has_double};
ghost use Rattle.xc_elements.specs.Steps.Reading.{tag_view, new_node, IsRefusedTag};

use crate::attributes::WrittenAttribute;
use crate::declared::Declared;
use crate::doubles::look_for_double;
use crate::names::QualifiedName;
use crate::nodes::{Attribute, Node};
use crate::refusal::Refusal;
use crate::scope::{Scope, declared_prefix, declares_default, declares_prefix};
use crate::tags::{Tag, TagPart, attribute_or_end};
use crate::texts::copy_of;
use std::alloc::{AllocError, Global};
use xc_lists::{Items, Text};

/// Brings what a tag declares into scope, and gives it.
pub(crate) fn declare<'a>(
    alloc: Global,
    scope: &mut Scope<'a>,
    tag: Tag<'a>,
) -> Result<Declared, AllocError>
    requires { IsReadableTag tag }
    ensures scope { IfOk result (λ _. scope.new ≡ reverse (filter_map binding_of (tag_view tag.entry).attributes) ++ scope.old) }
    ensures declared { IfOk result (λ declared. declared ≡ declared_by (tag_view tag.entry)) }
{
    let mut declared = Declared::new(alloc);
    let mut rest = tag.attributes;
    while let Some((part, after)) = attribute_or_end(rest) {
        match part {
            TagPart::Attribute(attribute) => {
                declare_attribute(alloc, scope, &mut declared, attribute)?;
                rest = after;
            }
            TagPart::End(_) => return Ok(declared),
        }
    }
    Ok(declared)
}

/// Brings what an attribute declares into scope, and adds it to what is declared.
fn declare_attribute<'a>(
    alloc: Global,
    scope: &mut Scope<'a>,
    declared: &mut Declared,
    attribute: WrittenAttribute<'a>,
) -> Result<(), AllocError>
    requires { IsReadable attribute.value }
    ensures scope { IfOk result (λ _. scope.new ≡ cons_option (binding_of (given_view attribute.entry)) scope.old) }
    ensures declared { IfOk result (λ _. declared.new ≡ cons_option (option_map declaration_of (binding_of (given_view attribute.entry))) declared.old) }
{
    let Some(prefix) = declared_prefix(attribute.name) else {
        return Ok(());
    };
    let space = attribute.value.decode(alloc)?;
    declared.add(alloc, prefix, space.copy()?)?;
    scope.bind(prefix, space)
}

/// The attributes of a tag by their expanded names.
#[derive(Drop)]
pub(crate) struct Expanded {
    pub(crate) attributes: Vec<Attribute>,
    /// Whether one of them has a prefix that is not declared, or declares an empty namespace for a prefix.
    pub(crate) lacks_space: bool,
}

/// Expands the names of a tag's attributes.
pub(crate) fn expand_attributes(
    alloc: Global,
    scope: &Scope,
    tag: Tag,
) -> Result<Expanded, AllocError>
    requires { IsReadableTag tag }
    ensures attributes { IfOk result (λ x. x.attributes.items ≡ map (expand scope.now) (tag_view tag.entry).attributes) }
    ensures lacks_space { IfOk result (λ x. x.lacks_space ≡ list_any (lacks_space scope.now) (tag_view tag.entry).attributes) }
{
    let mut attributes = Vec::new(alloc);
    let mut lacks_any = false;
    let mut rest = tag.attributes;
    while let Some((part, after)) = attribute_or_end(rest) {
        match part {
            TagPart::Attribute(attribute) => {
                let (expanded, lacks) = expand_attribute(alloc, scope, attribute)?;
                attributes.push(expanded)?;
                lacks_any |= lacks;
                rest = after;
            }
            TagPart::End(_) => {
                return Ok(Expanded {
                    attributes,
                    lacks_space: lacks_any,
                });
            }
        }
    }
    Ok(Expanded {
        attributes,
        lacks_space: lacks_any,
    })
}

/// An attribute by its expanded name, and whether it has a prefix that is not declared, or declares an empty namespace for a
/// prefix.
fn expand_attribute(
    alloc: Global,
    scope: &Scope,
    attribute: WrittenAttribute,
) -> Result<(Attribute, bool), AllocError>
    requires { IsReadable attribute.value }
    ensures attribute { IfOk result (λ x. x.0 ≡ expand scope.now (given_view attribute.entry)) }
    ensures lacks_space { IfOk result (λ x. x.1 ≡ lacks_space scope.now (given_view attribute.entry)) }
{
    let value = attribute.value.decode(alloc)?;
    let lacks = lacks_space(scope, attribute.name, value.as_str());
    let expanded = expand(alloc, scope, attribute.name, value)?;
    Ok((expanded, lacks))
}

/// Whether an attribute has a prefix that is not declared, or declares an empty namespace for a prefix.
fn lacks_space(scope: &Scope, name: QualifiedName, value: &str) -> bool
    ensures { result ≡ lacks_space scope.now (record { name = name_view name.entry; value = value.now }) }
{
    scope.attribute_space(name).is_none() || declares_prefix(name) && value.is_empty()
}

/// An attribute by its expanded name.
fn expand(
    alloc: Global,
    scope: &Scope,
    name: QualifiedName,
    value: Text,
) -> Result<Attribute, AllocError>
    ensures { IfOk result (λ attribute. attribute ≡ expand scope.now (record { name = name_view name.entry; value = value })) }
{
    let space = copy_of(alloc, scope.attribute_space(name).unwrap_or(""))?;
    let local = attribute_local(alloc, name)?;
    Ok(Attribute {
        space,
        local,
        value,
    })
}

/// The local part of an attribute's name, which is empty where it declares the default namespace.
#[tactic(auto, using(crate::proofs::TextLaws::no_text))]
fn attribute_local(alloc: Global, name: QualifiedName) -> Result<Text, AllocError>
    ensures { IfOk result (λ local. local ≡ attribute_local (name_view name.entry)) }
{
    if declares_default(name) {
        copy_of(alloc, "")
    } else {
        copy_of(alloc, name.local)
    }
}

/// The node of a tag of which the declarations are in scope, before anything inside it.
pub(crate) fn new_node(
    alloc: Global,
    scope: &Scope,
    tag: Tag,
    declared: Declared,
    parent: Option<u32>,
    end: u32,
) -> Result<Node, Refusal>
    requires readable { IsReadableTag tag }
    requires declared { declared ≡ declared_by (tag_view tag) }
    ensures node { IfOk result (λ node. node ≡ new_node scope.now (tag_view tag.entry) parent end) }
    ensures spaced { IfOk result (λ node. tag_lacks_space scope.now (tag_view tag.entry) ≡ false) }
    ensures distinct { IfOk result (λ node. has_double (map (expand scope.now) (tag_view tag.entry).attributes) ≡ false) }
    ensures refused { IfErr result (λ refusal. IsRefusedTag scope.now (tag_view tag.entry) refusal) }
{
    let Some(space) = scope.element_space(tag.name) else {
        return Err(Refusal::NoSpace);
    };
    let expanded = expand_attributes(alloc, scope, tag)?;
    if expanded.lacks_space {
        return Err(Refusal::NoSpace);
    }
    if look_for_double(alloc, expanded.attributes.as_slice())? {
        return Err(Refusal::SameAttribute);
    }
    Ok(Node {
        space: copy_of(alloc, space)?,
        local: copy_of(alloc, tag.name.local)?,
        attributes: Items::of(expanded.attributes),
        declared,
        parent,
        end,
        text: Text::of(String::new(alloc)),
    })
}
