//! The names that a source lists, each of a document's file.
ghost use Rattle.std.specs.Prelude.{◌≡◌, ◌⊎◌, ℕ, List, Option, option_map, string_bytes};
ghost use Rattle.yv_base_streams.specs.Stream.{stream_inner};
ghost use Rattle.yv_batch.specs.{AskedDocument.{AskedDocument, ReadResult, asked_of, reading_of}, FileStore.{StayKnown, Tells}, InnerNames.{IsFetched, IsNamed}, Supply.{Takes}};

use crate::documents::{Content, Documents, Fetched, content_of};
use crate::pieces::Pieces;
use std::alloc::Global;
use std::io::Read;
use yv_base_streams::{Counted, InputFault};

/// How many bytes a name may have.
const MOST_BYTES: usize = 4_095;

/// A store of files.
pub trait Files {
    // What is had of the file of each name, where it is known.
    ghost files: { Self → Option (List ℕ → ReadResult) };

    /// Fetches the file of this name, or one byte more of it than a document may have.
    fn fetch(&mut self, alloc: Global, name: &str) -> Content
        // It is what is had of this file, and the store has the same files.
        ensures { Tells (files self.old) (files self.new) name.now (reading_of result) };
}

/// The names that a source lists, each ended by a byte. An empty one is passed over. Of one that is
/// too long one byte more is held than a name may have, and the rest is passed over. Where reading
/// fails, that is the last document.
#[derive(Drop)]
pub struct NameList<R> {
    source: String,
    pieces: Pieces<R>,
    end: u8,
    name: Option<Vec<u8>>,
    has_lost: bool,
    is_broken: bool,
}

/// The documents whose files' names a source lists.
#[derive(Drop)]
pub struct NamedFiles<R, F> {
    list: NameList<R>,
    files: F,
    is_over: bool,
}

// What is had of the file of a name.
fn fetch_file<F: Files>(alloc: Global, files: &mut F, name: &[u8]) -> Content
    ensures { IsFetched (F.files files.old) (F.files files.new) name.now (reading_of result) }
{
    if name.len() > MOST_BYTES {
        return Content::Unread;
    }
    match str::from_utf8(name) {
        Ok(name) => files.fetch(alloc, name),
        Err(_) => Content::Unread,
    }
}

impl<R: Read> NameList<R> {
    ghost use Rattle.std.specs.Prelude.{Some};
    ghost use Rattle.yv_batch.specs.NamesLeft.{last_of, list_left, names_known};

    /// The names of a source of this name, each ended by this byte.
    pub fn new(source: String, end: u8, reader: Counted<R>) -> NameList<R>
        // What is to come are the documents of the names that the reader gives.
        ensures left { (files : Option (List ℕ → ReadResult)) → list_left R.remaining files result
            ≡ names_known end files (R.remaining (stream_inner reader)) }
    {
        NameList {
            source,
            pieces: Pieces::new(reader),
            end,
            name: None,
            has_lost: false,
            is_broken: false,
        }
    }

    /// Fetches the file of the next name: none where there are no more.
    pub fn fetch<F: Files>(&mut self, alloc: Global, files: &mut F) -> Option<Fetched>
        // It is the first of the documents that were to come, and the others are still to come.
        ensures fetches { Takes (list_left R.remaining (F.files files.old) self.old)
            (list_left R.remaining (F.files files.new) self.new)
            (option_map (asked_of (last_of self.new)) result) }
        // The store has the same files, unless one could not be read.
        ensures keeps { StayKnown (F.files files.old) (F.files files.new) result }
    {
        if self.is_broken {
            return None;
        }
        for _ in 0..u64::MAX {
            let name = match self.pieces.next(alloc, self.end, MOST_BYTES + 1) {
                Ok(Some(name)) => name,
                Ok(None) => return None,
                Err(fault) => return Some(self.lose(fault)),
            };
            if !name.is_empty() {
                return Some(self.fetch_named(alloc, files, name));
            }
        }
        Some(self.lose(InputFault::Read))
    }

    // Fetches the file of this name.
    fn fetch_named<F: Files>(&mut self, alloc: Global, files: &mut F, name: Vec<u8>) -> Fetched
        ensures file { IsNamed (F.files files.old) (F.files files.new) name.items result }
        ensures list { (known : Option (List ℕ → ReadResult)) → list_left R.remaining known self.new
            ≡ list_left R.remaining known self.old }
        ensures last { last_of self.new ≡ name.items }
    {
        let content = fetch_file(alloc, files, &name);
        self.name = Some(name);
        Fetched {
            line: None,
            content,
        }
    }

    // The answer where a name could not be had: what is still to come is no longer known. Where
    // reading failed, nothing is.
    fn lose(&mut self, fault: InputFault) -> Fetched
        ensures { (old : Option (List AskedDocument)) (files : Option (List ℕ → ReadResult))
            → Takes old (list_left R.remaining files self.new)
            (Some (asked_of (last_of self.new) result)) }
    {
        self.has_lost = true;
        self.is_broken = matches!(fault, InputFault::Read);
        self.name = None;
        Fetched {
            line: None,
            content: content_of(fault),
        }
    }

    /// The name of the document that was fetched last: that of the source where a name was lost.
    pub fn name(&self) -> &[u8]
        ensures { result.now ≡ last_of self.now }
    {
        match &self.name {
            Some(name) => name,
            None => self.source.as_bytes(),
        }
    }
}

impl<R: Read, F: Files> NamedFiles<R, F> {
    ghost use Rattle.yv_batch.specs.NamesLeft.{names_known, names_of};

    /// The documents whose files' names a source of this name lists, each name ended by this byte.
    pub fn new(source: String, end: u8, reader: Counted<R>, files: F) -> NamedFiles<R, F>
        // What is to come are the documents of the names that the reader gives.
        ensures { names_of R.remaining F.files result
            ≡ names_known end (F.files files) (R.remaining (stream_inner reader)) }
    {
        NamedFiles {
            list: NameList::new(source, end, reader),
            files,
            is_over: false,
        }
    }
}

impl<R: Read, F: Files> Documents for NamedFiles<R, F> {
    ghost use Rattle.yv_batch.specs.NamesLeft.{last_of, names_of};

    ghost left = { names_of R.remaining F.files };

    ghost last_name = { λ n. last_of n.list };

    ghost is_over = { λ n. n.is_over };

    fn next(&mut self, alloc: Global) -> Option<Fetched> {
        let fetched = self.list.fetch(alloc, &mut self.files);
        self.is_over = fetched.is_none();
        fetched
    }

    fn name(&self) -> &[u8] {
        self.list.name()
    }
}
