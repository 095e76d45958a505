// The reader of a document's items, with what is open.
ghost use Rattle.std.specs.Prelude.{◌≡◌, ◌==◌, ◌||◌, not, ◌<◌, ◌+◌, ◌^◌, ◌++◌, ◌∷◌, [], IfOk, IfErr, length};
ghost use Rattle.xc_elements.specs.Items.{End, Letter, Reference, Section};
ghost use Rattle.xc_elements.specs.Steps.Kept.{AreBelow, none_kept};
ghost use Rattle.xc_elements.specs.Namespaces.{declarations};
ghost use Rattle.xc_elements.specs.Steps.Reading.{Reads, HasRead, Takes, Refuses, IsRefusedAt, HasNode, tag_view};
ghost use Rattle.xc_elements.specs.Steps.Views.{lent_text, name_view, item_view, IsReadableItem, IsReadableTag};

use crate::expanded::{declare, new_node};
use crate::items::Item;
use crate::names::{QualifiedName, same_name};
use crate::nodes::Node;
use crate::opens::{OpenElement, Opens};
use crate::refusal::Refusal;
use crate::scope::Scope;
use crate::tags::Tag;
use std::alloc::Global;
use xc_chars::characters::is_space;
use xc_lists::Text;

/// How many elements may be open.
const DEPTH_LIMIT: usize = 127;

/// What is kept of the items that have been read.
#[derive(Drop)]
pub(crate) struct Reader<'a> {
    /// The elements that have begun. The text and the end of one that is open are set when it ends.
    pub(crate) nodes: Vec<Node>,
    pub(crate) opens: Opens<'a>,
    /// What the open elements declare.
    pub(crate) scope: Scope<'a>,
    /// Whether the last item was a carriage return.
    pub(crate) behind_return: bool,
}

impl<'a> Reader<'a> {
    /// A reader that has read nothing.
    pub(crate) fn new(alloc: Global) -> Reader<'a>
        ensures { Reads result [] }
    {
        Reader {
            nodes: Vec::new(alloc),
            opens: Opens::new(alloc),
            scope: Scope::new(alloc),
            behind_return: false,
        }
    }

    /// Reads an item.
    pub(crate) fn read_item(&mut self, alloc: Global, item: Item<'a>) -> Result<(), Refusal>
        requires readable { IsReadableItem item }
        requires room { length self.old.nodes.items + 1 < 2 ^ 32 }
        requires begun { AreBelow (length self.old.nodes.items) self.old.opens }
        ensures reads { IfOk result (λ _. HasRead self.old self.new (item_view item.entry)) }
        ensures fine { IfOk result (λ _. Takes self.old (item_view item.entry)) }
        ensures refused { IfErr result (Refuses self.old (item_view item.entry)) }
    {
        match item {
            Item::Start(tag) => self.read_start_tag(alloc, tag),
            Item::Empty(tag) => self.read_empty_tag(alloc, tag),
            Item::End(name) => self.read_end_tag(name),
            Item::Section(text) => self.read_section(text),
            Item::Letter(c) => self.read_letter(c),
            Item::Reference(c) => self.read_reference(c),
            Item::Declaration | Item::Comment | Item::Instruction => {
                self.behind_return = false;
                Ok(())
            }
        }
    }

    /// Whether an element is open, or none has begun.
    pub(crate) fn is_unfinished(&self) -> bool
        ensures { result ≡ (not (none_kept self.now.opens) || length self.now.nodes.items == 0) }
    {
        !self.opens.is_empty() || self.nodes.is_empty()
    }

    /// The node of a tag, of which the declarations come into scope.
    fn begin_element(&mut self, alloc: Global, tag: Tag<'a>) -> Result<Node, Refusal>
        requires readable { IsReadableTag tag }
        requires room { length self.old.nodes.items + 1 < 2 ^ 32 }
        ensures scope { IfOk result (λ _. self.new.scope ≡ declarations (tag_view tag.entry ∷ []) ++ self.old.scope) }
        ensures opens { IfOk result (λ _. self.new.opens ≡ self.old.opens) }
        ensures nodes { IfOk result (λ _. self.new.nodes ≡ self.old.nodes) }
        ensures node { IfOk result (λ node. HasNode self.old.opens self.new.scope (length self.old.nodes.items) (tag_view tag.entry) node) }
        ensures refused { IfErr result (λ refusal. IsRefusedAt self.old.opens self.old.scope (length self.old.nodes.items) (tag_view tag.entry) refusal) }
    {
        if self.opens.is_empty() && !self.nodes.is_empty() {
            return Err(Refusal::Unbalanced);
        }
        if self.opens.len() >= DEPTH_LIMIT {
            return Err(Refusal::TooDeep);
        }
        let declared = declare(alloc, &mut self.scope, tag)?;
        let end = self.nodes.len() as u32 + 1;
        let parent = self.opens.innermost();
        new_node(alloc, &self.scope, tag, declared, parent, end)
    }

    /// Reads a start tag.
    fn read_start_tag(&mut self, alloc: Global, tag: Tag<'a>) -> Result<(), Refusal>
        requires readable { IsReadableTag tag }
        requires room { length self.old.nodes.items + 1 < 2 ^ 32 }
        ensures reads { IfOk result (λ _. HasRead self.old self.new (item_view (Item.Start tag.entry))) }
        ensures fine { IfOk result (λ _. Takes self.old (item_view (Item.Start tag.entry))) }
        ensures refused { IfErr result (Refuses self.old (item_view (Item.Start tag.entry))) }
    {
        let outside = self.scope.len();
        let number = self.nodes.len() as u32;
        let node = self.begin_element(alloc, tag)?;
        self.opens.push(OpenElement {
            number,
            name: tag.name,
            outside,
            text: String::new(alloc),
        })?;
        self.nodes.push(node)?;
        self.behind_return = false;
        Ok(())
    }

    /// Reads an empty tag.
    fn read_empty_tag(&mut self, alloc: Global, tag: Tag<'a>) -> Result<(), Refusal>
        requires readable { IsReadableTag tag }
        requires room { length self.old.nodes.items + 1 < 2 ^ 32 }
        ensures reads { IfOk result (λ _. HasRead self.old self.new (item_view (Item.Empty tag.entry))) }
        ensures fine { IfOk result (λ _. Takes self.old (item_view (Item.Empty tag.entry))) }
        ensures refused { IfErr result (Refuses self.old (item_view (Item.Empty tag.entry))) }
    {
        let outside = self.scope.len();
        let node = self.begin_element(alloc, tag)?;
        self.scope.leave(outside);
        self.nodes.push(node)?;
        self.behind_return = false;
        Ok(())
    }

    /// Reads an end tag.
    fn read_end_tag(&mut self, name: QualifiedName) -> Result<(), Refusal>
        requires room { length self.old.nodes.items + 1 < 2 ^ 32 }
        requires begun { AreBelow (length self.old.nodes.items) self.old.opens }
        ensures reads { IfOk result (λ _. HasRead self.old self.new (End (name_view name.entry))) }
        ensures fine { IfOk result (λ _. Takes self.old (End (name_view name.entry))) }
        ensures refused { IfErr result (Refuses self.old (End (name_view name.entry))) }
    {
        let Some(element) = self.opens.pop() else {
            return Err(Refusal::Unbalanced);
        };
        if !same_name(name, element.name) {
            return Err(Refusal::Unbalanced);
        }
        let end = self.nodes.len() as u32;
        self.scope.leave(element.outside);
        let node = &mut self.nodes[element.number as usize];
        node.end = end;
        node.text = Text::of(element.text);
        self.behind_return = false;
        Ok(())
    }

    /// Reads a character that stands for itself.
    fn read_letter(&mut self, c: char) -> Result<(), Refusal>
        ensures reads { IfOk result (λ _. HasRead self.old self.new (Letter c)) }
        ensures fine { IfOk result (λ _. Takes self.old (Letter c)) }
        ensures refused { IfErr result (Refuses self.old (Letter c)) }
    {
        if self.opens.is_empty() && !is_space(c) {
            return Err(Refusal::Unbalanced);
        }
        self.opens.add_written(c, self.behind_return)?;
        self.behind_return = c == '\r';
        Ok(())
    }

    /// Reads a reference to a character.
    fn read_reference(&mut self, c: char) -> Result<(), Refusal>
        ensures reads { IfOk result (λ _. HasRead self.old self.new (Reference c)) }
        ensures fine { IfOk result (λ _. Takes self.old (Reference c)) }
        ensures refused { IfErr result (Refuses self.old (Reference c)) }
    {
        if self.opens.is_empty() {
            return Err(Refusal::Unbalanced);
        }
        self.opens.add(c)?;
        self.behind_return = false;
        Ok(())
    }

    /// Reads a section.
    fn read_section(&mut self, text: &str) -> Result<(), Refusal>
        ensures reads { IfOk result (λ _. HasRead self.old self.new (Section (lent_text text.entry))) }
        ensures fine { IfOk result (λ _. Takes self.old (Section (lent_text text.entry))) }
        ensures refused { IfErr result (Refuses self.old (Section (lent_text text.entry))) }
    {
        if self.opens.is_empty() {
            return Err(Refusal::Unbalanced);
        }
        self.opens.add_section(text)?;
        self.behind_return = false;
        Ok(())
    }
}
