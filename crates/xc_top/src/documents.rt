// The files of a run, and the documents in them.
ghost use Rattle.std.specs.Prelude.{◌≡◌, ◌≤◌, ◌∷◌, [], Some, None, length, IfOk, IfSome, OnOk};
ghost use Rattle.xc_top.specs.Steps.Stops.{IfStopped, IsSettled};
ghost use Rattle.xc_top.specs.Documents.{limit, AreFetched, IsContentOf, root_refusal, document_refusal, first_unread};
ghost use Rattle.xc_top.specs.Steps.Fetches.{IsUnfetched, Leaves};
ghost use Rattle.xc_top.specs.Words.{texts};

use crate::refusals::{coded_refusal, read_fault, tree_refusal};
use crate::status::Stop;
use std::alloc::Global;
use xc_calc::is_linkbase;
use xc_concepts::is_schema;
use xc_elements::{Tree, TreeFault, read_tree};
use xc_io::{Shelf, ShelfFault};
use xc_lists::{Memory, Text};

/// The greatest size of a file, in bytes.
const LIMIT: usize = 67_108_864;

/// What the bytes of a document hold.
#[derive(Drop)]
pub enum Content {
    /// The elements of an XML document.
    Elements(Tree),
    /// The first fault of what is none.
    Broken(TreeFault),
}

/// A document with the word that names its file.
#[derive(Drop)]
pub struct Document {
    pub word: Text,
    pub content: Content,
}

/// The bytes that are held under a word, at most the limit.
#[tactic(auto, using(crate::proofs::Leaving::one_fetch))]
pub fn fetch<S: Shelf>(alloc: Global, word: &str, shelf: &mut S) -> Result<Vec<u8>, Stop>
    ensures held { IfOk result (λ bytes. IfSome (S.held shelf.old) (λ files. files word.now ≡ Some bytes.items)) }
    ensures short { IfOk result (λ bytes. length bytes.items ≤ limit) }
    ensures worked { OnOk result (S.faults shelf.new ≡ S.faults shelf.old) }
    ensures unfetched { IfStopped result (λ answer. IsUnfetched S.held S.steady S.faults shelf.old shelf.new (word.now ∷ []) answer) }
    ensures left { Leaves S.held S.steady S.faults S.fetches shelf.old shelf.new 1 }
{
    match shelf.fetch(word, LIMIT) {
        Ok(bytes) => Ok(bytes),
        Err(ShelfFault::TooLong) => Err(coded_refusal(alloc, word, "xc:tooLong")),
        Err(ShelfFault::Memory) => Err(Stop::Memory),
        Err(ShelfFault::Failed) => Err(read_fault(alloc, word)),
    }
}

/// The documents of these words in their order. Each is read at once, and its bytes are let go.
pub fn fetch_documents<S: Shelf>(
    alloc: Global,
    words: &[String],
    shelf: &mut S,
) -> Result<Vec<Document>, Stop>
    ensures documents { IfOk result (λ documents. IfSome (S.held shelf.old) (λ files. AreFetched files (texts words.now) documents.items)) }
    ensures worked { OnOk result (S.faults shelf.new ≡ S.faults shelf.old) }
    ensures unfetched { IfStopped result (λ answer. IsUnfetched S.held S.steady S.faults shelf.old shelf.new (texts words.now) answer) }
    ensures left { Leaves S.held S.steady S.faults S.fetches shelf.old shelf.new (length words.now) }
{
    let mut documents = Vec::new(alloc);
    for word in words {
        documents.push(fetch_document(alloc, word.as_str(), shelf)?)?;
    }
    Ok(documents)
}

// The document that is held under a word.
fn fetch_document<S: Shelf>(alloc: Global, word: &str, shelf: &mut S) -> Result<Document, Stop>
    ensures document { IfOk result (λ document. IfSome (S.held shelf.old) (λ files. AreFetched files (word.now ∷ []) (document ∷ []))) }
    ensures worked { OnOk result (S.faults shelf.new ≡ S.faults shelf.old) }
    ensures unfetched { IfStopped result (λ answer. IsUnfetched S.held S.steady S.faults shelf.old shelf.new (word.now ∷ []) answer) }
    ensures left { Leaves S.held S.steady S.faults S.fetches shelf.old shelf.new 1 }
{
    let bytes = fetch(alloc, word, shelf)?;
    Ok(document_of(alloc, word, &bytes)?)
}

/// The document of these bytes. The only error is want of memory.
pub fn document_of(alloc: Global, word: &str, bytes: &[u8]) -> Result<Document, Memory>
    requires { length bytes.now ≤ limit }
    ensures word { IfOk result (λ document. document.word ≡ word.now) }
    ensures content { IfOk result (λ document. IsContentOf bytes.now document.content) }
{
    Ok(Document {
        word: Text::of(String::from_str(alloc, word)?),
        content: content_of(alloc, bytes)?,
    })
}

// What the bytes of a document hold.
fn content_of(alloc: Global, bytes: &[u8]) -> Result<Content, Memory>
    requires { length bytes.now ≤ limit }
    ensures { IfOk result (λ content. IsContentOf bytes.now content) }
{
    match read_tree(alloc, bytes) {
        Ok(tree) => Ok(Content::Elements(tree)),
        Err(TreeFault::Memory) => Err(Memory),
        Err(fault) => Ok(Content::Broken(fault)),
    }
}

/// Sees to it that each document is a schema or a linkbase.
pub fn require_taxonomies(alloc: Global, documents: &[Document]) -> Result<(), Stop>
    ensures read { OnOk result (first_unread documents.now ≡ None) }
    ensures refused { IfStopped result (λ answer. first_unread documents.now ≡ Some answer) }
    ensures status { IfStopped result (λ answer. IsSettled answer.status) }
{
    for document in documents {
        require_taxonomy(alloc, document)?;
    }
    Ok(())
}

fn require_taxonomy(alloc: Global, document: &Document) -> Result<(), Stop>
    ensures read { OnOk result (document_refusal document.now ≡ None) }
    ensures refused { IfStopped result (λ answer. document_refusal document.now ≡ Some answer) }
    ensures status { IfStopped result (λ answer. IsSettled answer.status) }
{
    match &document.content {
        Content::Elements(tree) => require_known_root(alloc, document.word.as_str(), tree),
        Content::Broken(fault) => Err(tree_refusal(alloc, document.word.as_str(), *fault)),
    }
}

fn require_known_root(alloc: Global, word: &str, tree: &Tree) -> Result<(), Stop>
    ensures read { OnOk result (root_refusal word.now tree.now ≡ None) }
    ensures refused { IfStopped result (λ answer. root_refusal word.now tree.now ≡ Some answer) }
    ensures status { IfStopped result (λ answer. IsSettled answer.status) }
{
    if is_schema(tree) || is_linkbase(tree) {
        Ok(())
    } else {
        Err(coded_refusal(alloc, word, "xc:notTaxonomy"))
    }
}
