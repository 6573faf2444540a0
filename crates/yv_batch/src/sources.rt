//! The documents of sources, one source after the other.
ghost use Rattle.std.specs.Prelude.{◌≡◌, ◌≤◌, ◌↔◌, ℕ, List, Option, option_map, string_bytes, true, false};
ghost use Rattle.yv_base_streams.specs.Stream.{stream_inner, has_failed};
ghost use Rattle.yv_batch.specs.{AskedDocument.{AskedDocument, ReadResult, asked_of, reading_of}, FileStore.{StayKnown}, InnerSources.{HasSource, IsDone, Steps, is_lost}, SourceStore.{IsWhole, Opens}, Supply.{Takes}};

use crate::documents::{Content, Documents, Fetched, content_of};
use crate::lines::Lines;
use crate::names::{Files, NameList};
use std::alloc::Global;
use std::collections::VecDeque;
use std::io::Read;
use yv_base_streams::{Counted, InputFault, read_up_to};

/// How many bytes of a document are read: one more than it may have.
const MOST_BYTES: usize = 16_777_217;

/// What a source holds.
#[derive(Clone, Copy, PartialEq, Eq, Debug)]
pub enum SourceKind {
    /// One document.
    Document,
    /// A document on each line.
    Lines,
    /// The names of documents' files, each ended by this byte.
    Names(u8),
}

/// An opener of sources.
pub trait Opener<R: Read> {
    // The bytes of each source, where they are known: none of one that can't be opened.
    ghost contents: { Self → Option (List ℕ → Option (List ℕ)) };

    /// Opens the source of this name.
    fn open(&mut self, alloc: Global, name: &str) -> Result<R, InputFault>
        // The reader has the bytes of this source, and the sources are the same.
        ensures { Opens R.remaining (contents self.old) (contents self.new) name.now result };
}

// The source that is open, or its name where nothing more is to come of it.
#[derive(Drop)]
enum Part<R> {
    Start,
    Done(String),
    Lines(Lines<R>),
    Names(NameList<R>),
}

/// The documents of sources, one source after the other. Each source is opened when its turn comes.
#[derive(Drop)]
pub struct Sources<R, O, F> {
    kind: SourceKind,
    names: VecDeque<String>,
    opener: O,
    files: F,
    part: Part<R>,
    has_lost: bool,
    is_over: bool,
}

// The whole of a source as a document.
fn read_whole<R: Read + Drop>(alloc: Global, reader: R) -> Content
    ensures { IsWhole (R.remaining reader) (reading_of result) }
{
    match read_up_to(alloc, MOST_BYTES, &mut Counted::new(reader)) {
        Ok(bytes) => Content::Read(bytes),
        Err(fault) => content_of(fault),
    }
}

impl<R: Read + Drop> Part<R> {
    ghost use Rattle.yv_batch.specs.SourcesLeft.{part_left, part_name};

    // The next document of the source that is open.
    fn fetch<F: Files>(&mut self, alloc: Global, files: &mut F) -> Option<Fetched>
        ensures fetches { Takes (part_left R.remaining (F.files files.old) self.old)
            (part_left R.remaining (F.files files.new) self.new)
            (option_map (asked_of (part_name self.new)) result) }
        ensures keeps { StayKnown (F.files files.old) (F.files files.new) result }
    {
        match self {
            Part::Start | Part::Done(_) => None,
            Part::Lines(lines) => lines.next(alloc),
            Part::Names(list) => list.fetch(alloc, files),
        }
    }

    // The name of the document that was fetched last.
    fn name(&self) -> &[u8]
        ensures { result.now ≡ part_name self.now }
    {
        match self {
            Part::Start => &[],
            Part::Done(name) => name.as_bytes(),
            Part::Lines(lines) => lines.name(),
            Part::Names(list) => list.name(),
        }
    }
}

impl<R: Read + Drop, O: Opener<R>, F: Files> Sources<R, O, F> {
    ghost use Rattle.std.specs.Prelude.{map, ◌||◌, None};
    ghost use Rattle.yv_batch.specs.declared.sources.Part.TheVariants as Part;
    ghost use Rattle.yv_batch.specs.SourcesLeft.{left_before, part_left, part_name, sources_known, sources_left};

    /// The documents of the sources of these names.
    pub fn new(kind: SourceKind, names: VecDeque<String>, opener: O, files: F) -> Sources<R, O, F>
        // What is to come are the documents of the sources.
        ensures { sources_left R.remaining O.contents F.files result
            ≡ sources_known kind (O.contents opener) (F.files files)
            (map string_bytes names.items) }
    {
        Sources {
            kind,
            names,
            opener,
            files,
            part: Part::Start,
            has_lost: false,
            is_over: false,
        }
    }

    // The next document of the source that is open, or of the first of the others that has one.
    fn fetch(&mut self, alloc: Global) -> Option<Fetched>
        ensures { Takes (sources_left R.remaining O.contents F.files self.old)
            (sources_left R.remaining O.contents F.files self.new)
            (option_map (asked_of (part_name self.new.part)) result) }
    {
        if let Some(fetched) = self.fetch_part(alloc) {
            return Some(fetched);
        }
        while let Some(name) = self.names.pop_front() {
            if let Some(fetched) = self.open(alloc, name) {
                return Some(fetched);
            }
        }
        None
    }

    // The next document of the source that is open.
    fn fetch_part(&mut self, alloc: Global) -> Option<Fetched>
        ensures steps { Steps (sources_left R.remaining O.contents F.files self.old)
            (sources_left R.remaining O.contents F.files self.new)
            (part_left R.remaining (F.files self.new.files) self.new.part)
            (part_name self.new.part) result }
        ensures names { self.new.names ≡ self.old.names }
    {
        self.part.fetch(alloc, &mut self.files)
    }

    // The first document of a source, which is opened.
    fn open(&mut self, alloc: Global, name: String) -> Option<Fetched>
        ensures steps { IsDone (part_left R.remaining (F.files self.old.files) self.old.part)
            → Steps (left_before R.remaining O.contents F.files (string_bytes name) self.old)
            (sources_left R.remaining O.contents F.files self.new)
            (part_left R.remaining (F.files self.new.files) self.new.part)
            (part_name self.new.part) result }
        ensures names { self.new.names ≡ self.old.names }
    {
        match self.opener.open(alloc, name.as_str()) {
            Ok(reader) => self.begin(alloc, name, reader),
            Err(fault) => {
                self.part = Part::Done(name);
                Some(Fetched {
                    line: None,
                    content: content_of(fault),
                })
            }
        }
    }

    // The first document of a source that was opened.
    fn begin(&mut self, alloc: Global, name: String, reader: R) -> Option<Fetched>
        ensures steps { IsDone (part_left R.remaining (F.files self.old.files) self.old.part)
            → HasSource (O.contents self.old.opener) (string_bytes name) (R.remaining reader)
            → Steps (left_before R.remaining O.contents F.files (string_bytes name) self.old)
            (sources_left R.remaining O.contents F.files self.new)
            (part_left R.remaining (F.files self.new.files) self.new.part)
            (part_name self.new.part) result }
        ensures names { self.new.names ≡ self.old.names }
    {
        match self.kind {
            SourceKind::Document => Some(self.read(alloc, name, reader)),
            SourceKind::Lines => {
                self.part = Part::Lines(Lines::new(name, Counted::new(reader)));
                self.fetch_part(alloc)
            }
            SourceKind::Names(end) => {
                self.part = Part::Names(NameList::new(name, end, Counted::new(reader)));
                self.fetch_part(alloc)
            }
        }
    }

    // A source that is one document.
    fn read(&mut self, alloc: Global, name: String, reader: R) -> Fetched
        ensures file { IsWhole (R.remaining reader) (reading_of result.content) }
        ensures line { result.line ≡ None }
        ensures state { let lost = is_lost (reading_of result.content) in self.new ≡
            record self.old { part = Part.Done name; has_lost = self.old.has_lost || lost } }
    {
        let content = read_whole(alloc, reader);
        self.has_lost = self.has_lost || !matches!(content, Content::Read(_));
        self.part = Part::Done(name);
        Fetched {
            line: None,
            content,
        }
    }
}

impl<R: Read + Drop, O: Opener<R>, F: Files> Documents for Sources<R, O, F> {
    ghost use Rattle.yv_batch.specs.SourcesLeft.{part_name, sources_left};

    ghost left = { sources_left R.remaining O.contents F.files };

    ghost last_name = { λ s. part_name s.part };

    ghost is_over = { λ s. s.is_over };

    fn next(&mut self, alloc: Global) -> Option<Fetched> {
        let fetched = self.fetch(alloc);
        self.is_over = fetched.is_none();
        fetched
    }

    fn name(&self) -> &[u8] {
        self.part.name()
    }
}
