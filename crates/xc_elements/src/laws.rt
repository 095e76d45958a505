//! Laws of the cut into items, and of trees and faults.
ghost use Rattle.xc_elements.specs.DocumentTrees.{OneTree, OneScope, TreeOrFault, OneFirstFault};
ghost use Rattle.xc_elements.specs.Documents.{OneCut, OneFault};
ghost use Rattle.xc_elements.specs.Grammar.Comments.{CommentsAsSpelled};
ghost use Rattle.xc_elements.specs.Grammar.Declarations.{DeclarationsAsSpelled};
ghost use Rattle.xc_elements.specs.Grammar.EndTags.{EndTagsAsSpelled};
ghost use Rattle.xc_elements.specs.Grammar.Instructions.{InstructionsAsSpelled};
ghost use Rattle.xc_elements.specs.Grammar.Letters.{LettersAsSpelled};
ghost use Rattle.xc_elements.specs.Grammar.References.{ReferencesAsSpelled};
ghost use Rattle.xc_elements.specs.Grammar.Sections.{SectionsAsSpelled};
ghost use Rattle.xc_elements.specs.Grammar.Attributes.{AttributesAsSpelled};
ghost use Rattle.xc_elements.specs.Grammar.Tags.{EmptyTagsAsSpelled, StartTagsAsSpelled};
ghost use Rattle.xc_elements.specs.Grammar.Values.{ValuesAsSpelled};

/// A text has one cut into items at most.
pub fn one_cut()
    ensures { OneCut }
{}

/// The items before a place at which no item stands, and that place, are the same in every cut that leads to one.
pub fn one_fault()
    ensures { OneFault }
{}

/// A document has one tree at most: its bytes determine the elements, their names, attributes and texts.
pub fn one_tree()
    ensures { OneTree }
{}

/// A prefix stands for the same in the names of a tag and at the tag's node: what `Tree::space_of` answers for a value is what
/// the document's own names get.
pub fn one_scope()
    ensures { OneScope }
{}

/// A document with a tree has no fault.
pub fn tree_or_fault()
    ensures { TreeOrFault }
{}

/// A document has one first fault at most.
pub fn one_first_fault()
    ensures { OneFirstFault }
{}

/// An item is a comment exactly where the text begins with `<!--`, characters without `--` that do not end in `-`, and `-->`.
pub fn comments_as_spelled()
    ensures { CommentsAsSpelled }
{}

/// An item is a section of some characters exactly where the text begins with `<![CDATA[`, these characters, without `]]>`, and `]]>`.
pub fn sections_as_spelled()
    ensures { SectionsAsSpelled }
{}

/// An item is the end tag of a name exactly where the text begins with `</`, this name, white space or none, and `>`.
pub fn end_tags_as_spelled()
    ensures { EndTagsAsSpelled }
{}

/// An item is a letter exactly where the text begins with this character, which is neither `<` nor `&`.
pub fn letters_as_spelled()
    ensures { LettersAsSpelled }
{}

/// An item is an instruction exactly where the text begins with `<?`, a name that is not `xml` in any case, nothing or white space
/// and characters without `?>`, and `?>`.
pub fn instructions_as_spelled()
    ensures { InstructionsAsSpelled }
{}

/// An item is a reference to a character exactly where the text begins with `&`, one of the five names or the number of this
/// character, and `;`.
pub fn references_as_spelled()
    ensures { ReferencesAsSpelled }
{}

/// The value up to a quote is this one exactly where the text begins with what is written for it, and the quote.
pub fn values_as_spelled()
    ensures { ValuesAsSpelled }
{}

/// An attribute is a name with a value exactly where the text begins with the name, `=` with white space or none around it, and
/// what is written for the value between quotes.
pub fn attributes_as_spelled()
    ensures { AttributesAsSpelled }
{}

/// An item is the start tag of a name with some attributes exactly where the text begins with `<`, this name, these attributes
/// with white space before each, white space or none, and `>`.
pub fn start_tags_as_spelled()
    ensures { StartTagsAsSpelled }
{}

/// An item is the tag of an empty element exactly where the same stands with `/>` at its end.
pub fn empty_tags_as_spelled()
    ensures { EmptyTagsAsSpelled }
{}

/// An item is the declaration exactly where it is the first of its document and the text begins with `<?xml`, any number of parts
/// with white space before each, white space or none, and `?>`.
pub fn declarations_as_spelled()
    ensures { DeclarationsAsSpelled }
{}
