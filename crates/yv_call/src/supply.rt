//! The documents of a call, which are given.
ghost use Rattle.std.specs.Prelude.{◌≡◌, ℕ, List, Some, map, string_bytes};
ghost use Rattle.yv_batch.specs.SourcesLeft.{sources_left};
ghost use Rattle.yv_call.specs.{Documents.{AreNamed}, ShelfDocuments.{document_of}, Supplies.{documents_given, kind_of, no_files}};

use crate::shelf::DocumentShelf;
use std::alloc::Global;
use std::collections::VecDeque;
use yv_base_streams::InputFault;
use yv_batch::{Content, Files, Opener, SourceKind, Sources};
use yv_job::Each;

/// A store that has no files.
#[derive(Clone, Copy)]
pub struct NoFiles;

impl Files for NoFiles {
    ghost use Rattle.std.specs.Prelude.{Some};
    ghost use Rattle.yv_call.specs.Supplies.{no_files};

    ghost files = { λ _. Some no_files };

    fn fetch(&mut self, _alloc: Global, _name: &str) -> Content {
        Content::Unread
    }
}

impl<'a> Opener<&'a [u8]> for DocumentShelf<'a> {
    ghost use Rattle.std.specs.Prelude.{Some};
    ghost use Rattle.yv_call.specs.ShelfDocuments.{document_of};

    ghost contents = { λ shelf. Some (document_of shelf) };

    fn open(&mut self, _alloc: Global, name: &str) -> Result<&'a [u8], InputFault> {
        match self.document(name) {
            Some(document) => Ok(document),
            None => Err(InputFault::Read),
        }
    }
}

// What a source holds: one document, where nothing was said.
fn kind_of(each: Option<Each>) -> SourceKind
    ensures { result ≡ kind_of each }
{
    match each {
        None | Some(Each::File) => SourceKind::Document,
        Some(Each::Line) => SourceKind::Lines,
        Some(Each::Name) => SourceKind::Names(b'\n'),
        Some(Each::Name0) => SourceKind::Names(0),
    }
}

/// The documents of the sources of these names, which are on a shelf.
pub fn shelf_documents<'a>(
    each: Option<Each>,
    names: VecDeque<String>,
    shelf: DocumentShelf<'a>,
) -> Sources<&'a [u8], DocumentShelf<'a>, NoFiles>
    // They are those that are given for the names.
    ensures { (documents : List (List ℕ))
        → AreNamed (document_of shelf.entry) (map string_bytes names.items) documents
        → sources_left (λ r. Some r.now) (λ s. Some (document_of s)) (λ _. Some no_files) result
        ≡ Some (documents_given (kind_of each) (map string_bytes names.items) documents) }
{
    Sources::new(kind_of(each), names, shelf, NoFiles)
}
