//! Documents by the names of their sources.
ghost use Rattle.std.specs.Prelude.{◌≡◌, ◌↔◌, ℕ, List, IsTrue, IfOk, OnOk, MatchOption, None, Some, map, option_map, string_bytes};
ghost use Rattle.yv_call.specs.{Documents.{AreNamed, HaveNames}, InnerShelf.{Gains, Keeps}};

use std::alloc::{AllocError, Global};
use std::collections::BTreeMap;

/// A document shelf: the documents of sources, by the names of these.
#[derive(Drop)]
pub struct DocumentShelf<'a> {
    documents: BTreeMap<String, &'a [u8]>,
}

// Whether the bytes are the same.
fn are_same(left: &[u8], right: &[u8]) -> bool
    ensures { IsTrue result ↔ (left.now ≡ right.now) }
{
    left == right
}

impl<'a> DocumentShelf<'a> {
    ghost use Rattle.yv_call.specs.ShelfDocuments.{document_of};

    /// The documents that are given for these names. None if there is another number of them, or if
    /// two documents of one name differ.
    pub fn of(
        alloc: Global,
        names: &[String],
        documents: &[&'a [u8]],
    ) -> Result<Option<DocumentShelf<'a>>, AllocError>
        // Each name has the document that is given for it, unless they can't all have theirs.
        ensures { IfOk result (λ shelf. MatchOption shelf
            (HaveNames (map string_bytes names.now) (map (λ d. d.now) documents.now) → ⊥)
            (λ s. AreNamed (document_of s) (map string_bytes names.now)
            (map (λ d. d.now) documents.now))) }
    {
        if names.len() != documents.len() {
            return Ok(None);
        }
        let mut shelf = DocumentShelf::new(alloc);
        for (place, name) in names.iter().enumerate() {
            if !shelf.put(alloc, name.as_str(), documents[place])? {
                return Ok(None);
            }
        }
        Ok(Some(shelf))
    }

    /// The document of this name.
    pub fn document(&self, name: &str) -> Option<&'a [u8]>
        // It is the document of this name, if there is one.
        ensures { option_map (λ d. d.now) result ≡ document_of self.now name.now }
    {
        self.documents.get(name).copied()
    }

    // No documents.
    fn new(alloc: Global) -> DocumentShelf<'a>
        ensures { (n : List ℕ) → document_of result n ≡ None }
    {
        DocumentShelf {
            documents: BTreeMap::new(alloc),
        }
    }

    // Puts a document under a name that has none.
    fn add(&mut self, name: String, document: &'a [u8]) -> Result<(), AllocError>
        ensures { OnOk result (Gains (string_bytes name) document.now (document_of self.old)
            (document_of self.new)) }
    {
        self.documents.insert(name, document)?;
        Ok(())
    }

    // Puts a document under a name, unless it has another.
    fn put(&mut self, alloc: Global, name: &str, document: &'a [u8]) -> Result<bool, AllocError>
        ensures { IfOk result
            (Keeps name.now document.now (document_of self.old) (document_of self.new)) }
    {
        match self.document(name) {
            Some(other) => Ok(are_same(other, document)),
            None => {
                self.add(String::from_str(alloc, name)?, document)?;
                Ok(true)
            }
        }
    }
}
