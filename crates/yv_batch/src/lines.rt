//! The lines of a source, each a document.
ghost use Rattle.std.specs.{Prelude.{◌≡◌, ℕ, List, Option, length, option_map, string_bytes}, List.{list_all}};
ghost use Rattle.yv_batch.specs.{AskedDocument.{AskedDocument}, InnerLine.{IsRead}, LineDocuments.{is_blank, is_blank_byte}};

use crate::documents::{Content, Documents, Fetched, content_of};
use crate::pieces::Pieces;
use std::alloc::Global;
use std::io::Read;
use yv_base_streams::{Counted, InputFault};

/// How many bytes a document may have.
const MOST_BYTES: usize = 16_777_216;

/// The documents that are the lines of a source. A line of blanks is none, but counts as a line. Of
/// a line that is too large one byte more is held than a document may have, and the rest is passed
/// over. Where reading fails, that is the last document.
#[derive(Drop)]
pub struct Lines<R> {
    source: String,
    pieces: Pieces<R>,
    number: u64,
    has_lost: bool,
    is_broken: bool,
    is_over: bool,
}

// A line of a source.
#[derive(Drop)]
enum Line {
    Blank,
    Document(Fetched),
    End,
}

// Whether a line is no document.
fn is_blank(line: &[u8]) -> bool
    ensures { result ≡ is_blank line.now }
{
    line.len() <= MOST_BYTES && are_blank(line)
}

fn are_blank(bytes: &[u8]) -> bool
    ensures { result ≡ list_all is_blank_byte bytes.now }
{
    for byte in bytes {
        if !is_blank_byte(*byte) {
            return false;
        }
    }
    true
}

fn is_blank_byte(byte: u8) -> bool
    ensures { result ≡ is_blank_byte byte }
{
    matches!(byte, b' ' | b'\t' | b'\r')
}

// A line that was read, by its number and its first bytes.
fn line_of(number: u64, front: Vec<u8>) -> Line
    ensures { IsRead number front.items result }
{
    if is_blank(&front) {
        return Line::Blank;
    }
    Line::Document(Fetched {
        line: Some(number),
        content: Content::Read(front),
    })
}

impl<R: Read> Lines<R> {
    ghost use Rattle.std.specs.Prelude.{Some};
    ghost use Rattle.yv_batch.specs.{AskedDocument.{asked_of}, InnerLines.{IsLine}, LineDocuments.{line_documents}, LinesLeft.{lines_of}, Supply.{Takes}};
    ghost use Rattle.yv_base_streams.specs.Stream.{stream_inner};

    /// The lines of a source of this name.
    pub fn new(source: String, reader: Counted<R>) -> Lines<R>
        // What is to come are the documents that are the lines of what the reader gives.
        ensures left { lines_of R.remaining result
            ≡ option_map (line_documents (string_bytes source))
            (R.remaining (stream_inner reader)) }
    {
        Lines {
            source,
            pieces: Pieces::new(reader),
            number: 0,
            has_lost: false,
            is_broken: false,
            is_over: false,
        }
    }

    // The next line.
    fn next_line(&mut self, alloc: Global) -> Line
        ensures line { IsLine (string_bytes self.old.source) (lines_of R.remaining self.old)
            (lines_of R.remaining self.new) result }
        ensures source { string_bytes self.new.source ≡ string_bytes self.old.source }
    {
        if self.is_broken {
            return Line::End;
        }
        let Some(number) = self.number.checked_add(1) else {
            return Line::Document(self.lose(InputFault::Read));
        };
        self.number = number;
        match self.pieces.next(alloc, b'\n', MOST_BYTES + 1) {
            Ok(None) => Line::End,
            Ok(Some(front)) => line_of(number, front),
            Err(fault) => Line::Document(self.lose(fault)),
        }
    }

    // The answer where a line could not be had: what is still to come is no longer known. Where
    // reading failed, nothing is.
    fn lose(&mut self, fault: InputFault) -> Fetched
        ensures line { (old : Option (List AskedDocument))
            → Takes old (lines_of R.remaining self.new)
            (Some (asked_of (string_bytes self.old.source) result)) }
        ensures source { string_bytes self.new.source ≡ string_bytes self.old.source }
    {
        self.has_lost = true;
        self.is_broken = matches!(fault, InputFault::Read);
        Fetched {
            line: Some(self.number),
            content: content_of(fault),
        }
    }

    // The document of the next line that isn't blank.
    fn fetch(&mut self, alloc: Global) -> Option<Fetched>
        ensures { Takes (lines_of R.remaining self.old) (lines_of R.remaining self.new)
            (option_map (asked_of (string_bytes self.new.source)) result) }
    {
        for _ in 0..u64::MAX {
            match self.next_line(alloc) {
                Line::Blank => {}
                Line::Document(fetched) => return Some(fetched),
                Line::End => return None,
            }
        }
        Some(self.lose(InputFault::Read))
    }
}

impl<R: Read> Documents for Lines<R> {
    ghost use Rattle.std.specs.Prelude.{string_bytes};
    ghost use Rattle.yv_batch.specs.LinesLeft.{lines_of};

    ghost left = { λ l. lines_of R.remaining l };

    ghost last_name = { λ l. string_bytes l.source };

    ghost is_over = { λ l. l.is_over };

    fn next(&mut self, alloc: Global) -> Option<Fetched> {
        let fetched = self.fetch(alloc);
        self.is_over = fetched.is_none();
        fetched
    }

    fn name(&self) -> &[u8] {
        self.source.as_bytes()
    }
}
