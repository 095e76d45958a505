// The elements that are open while a document is read.
ghost use Rattle.std.specs.Prelude.{◌≡◌, ◌∷◌, [], false, IfOk, MatchOption, length, encode_utf8_all, IsTrue};
ghost use Rattle.std.specs.Str.{chars};
ghost use Rattle.xc_elements.specs.Elements.{line_character, section_text};
ghost use Rattle.xc_elements.specs.Steps.Kept.{kept_of, with_text, none_kept, innermost_kept};

use crate::names::QualifiedName;
use crate::texts::next_char;
use std::alloc::{AllocError, Global};
use std::marker::Model;

/// An element whose end tag has not been read.
#[derive(Drop)]
pub(crate) struct OpenElement<'a> {
    pub(crate) number: u32,
    pub(crate) name: QualifiedName<'a>,
    /// How many declarations of namespaces there are outside it.
    pub(crate) outside: usize,
    /// The text directly in it so far.
    pub(crate) text: String,
}

/// The elements that are open, the innermost last.
#[derive(Drop)]
pub(crate) struct Opens<'a> {
    elements: Vec<OpenElement<'a>>,
}

impl<'a> Model for Opens<'a> {
    ghost use Rattle.std.specs.Prelude.{List, map, reverse};
    ghost use Rattle.xc_elements.specs.Steps.Kept.{Kept, kept_of};

    ghost Value = { List Kept };

    ghost view = { λ o. reverse (map kept_of o.elements.items) };
}

impl<'a> Opens<'a> {
    pub(crate) fn new(alloc: Global) -> Opens<'a>
        ensures { result ≡ [] }
    {
        Opens {
            elements: Vec::new(alloc),
        }
    }

    pub(crate) fn len(&self) -> usize
        ensures { result ≡ length self.now }
    {
        self.elements.len()
    }

    pub(crate) fn is_empty(&self) -> bool
        ensures { result ≡ none_kept self.now }
    {
        self.elements.is_empty()
    }

    /// The number of the innermost.
    pub(crate) fn innermost(&self) -> Option<u32>
        ensures { result ≡ innermost_kept self.now }
    {
        self.elements.last().map(|innermost| innermost.number)
    }

    pub(crate) fn push(&mut self, element: OpenElement<'a>) -> Result<(), AllocError>
        ensures { IfOk result (λ _. self.new ≡ kept_of element.entry ∷ self.old) }
    {
        self.elements.push(element)?;
        Ok(())
    }

    /// The innermost, which is open no longer.
    pub(crate) fn pop(&mut self) -> Option<OpenElement<'a>>
        ensures { MatchOption result (self.old ≡ []) (λ element. self.old ≡ kept_of element ∷ self.new) }
    {
        self.elements.pop()
    }

    /// One more character for the text of the innermost.
    pub(crate) fn add(&mut self, c: char) -> Result<(), AllocError>
        ensures { IfOk result (λ _. self.new ≡ with_text (encode_utf8_all (c ∷ [])) self.old) }
    {
        let count = self.elements.len();
        if count > 0 {
            self.elements[count - 1].text.push(c)?;
        }
        Ok(())
    }

    /// What a character stands for, for the text of the innermost: a carriage return becomes a line feed, together with a line
    /// feed right behind it.
    pub(crate) fn add_written(&mut self, c: char, behind_return: bool) -> Result<(), AllocError>
        ensures { IfOk result (λ _. self.new ≡ with_text (encode_utf8_all (line_character behind_return c)) self.old) }
    {
        if c == '\r' {
            self.add('\n')
        } else if behind_return && c == '\n' {
            Ok(())
        } else {
            self.add(c)
        }
    }

    /// The characters of a section, for the text of the innermost.
    pub(crate) fn add_section(&mut self, text: &str) -> Result<(), AllocError>
        ensures { IfOk result (λ _. self.new ≡ with_text (encode_utf8_all (section_text false (chars text.now))) self.old) }
    {
        let mut behind_return = false;
        let mut rest = text;
        while let Some((c, after)) = next_char(rest) {
            self.add_written(c, behind_return)?;
            behind_return = c == '\r';
            rest = after;
        }
        Ok(())
    }
}
