//! A place that moves forward in a text.
ghost use Rattle.std.specs.Prelude.{◌≡◌, ℕ, List, All, length, IfOk};
ghost use Rattle.yv_note_places.specs.Place.{IsPlace, IsPlaceOf};

use crate::places::LineColumn;
use std::alloc::{AllocError, Global};

/// A place in a text, with its offset.
#[derive(Clone, Copy)]
pub(crate) struct Cursor {
    offset: usize,
    place: LineColumn,
}

impl Cursor {
    /// The beginning of a text.
    pub(crate) fn new() -> Cursor
        ensures { (text : List ℕ) → IsPlaceOf text result.offset result.place }
    {
        Cursor {
            offset: 0,
            place: LineColumn { line: 1, column: 1 },
        }
    }

    /// The place of the cursor after it has gone on to an offset, or to the end of the text if that
    /// comes first. It stays where it is if it is there or behind it.
    pub(crate) fn place_at(&mut self, text: &[u8], offset: usize) -> LineColumn
        ensures keeps { IsPlaceOf text.now self.old.offset self.old.place
            → IsPlaceOf text.now self.new.offset self.new.place }
        ensures place { result ≡ self.new.place }
    {
        for _ in self.offset..offset.min(text.len()) {
            self.pass(text);
        }
        self.place
    }

    // Goes past one byte, if there is one.
    fn pass(&mut self, text: &[u8])
        ensures { IsPlaceOf text.now self.old.offset self.old.place
            → IsPlaceOf text.now self.new.offset self.new.place }
    {
        if self.offset >= text.len() {
            return;
        }
        let byte = text[self.offset];
        self.offset += 1;
        if byte == b'\n' {
            self.place.line = self.place.line.saturating_add(1);
            self.place.column = 1;
        } else {
            self.place.column = self.place.column.saturating_add(1);
        }
    }
}

/// The places of offsets of a text, which are in order.
pub(crate) fn places_of(
    alloc: Global,
    text: &[u8],
    offsets: &[usize],
) -> Result<Vec<LineColumn>, AllocError>
    ensures count { IfOk result (λ places. length places.items ≡ length offsets.now) }
    ensures places { IfOk result (λ places. All (IsPlace text.now) places.items) }
{
    let mut places = Vec::new(alloc);
    let mut cursor = Cursor::new();
    for offset in offsets {
        places.push(cursor.place_at(text, *offset))?;
    }
    Ok(places)
}
