//! Where paths lead in a text.
ghost use Rattle.std.specs.Prelude.{◌≡◌, ℕ, List, All, length, IfOk};
ghost use Rattle.yv_note_places.specs.Place.{IsFound, IsPlace};

use crate::cursor::places_of;
use crate::place_tree::PlaceTree;
use crate::search::{FoundOffsets, PlaceSearch};
use std::alloc::{AllocError, Global};

/// A step of a path into a document: a member of an object, and, where it is an entry or item of an
/// array, its number from 1.
#[derive(Drop)]
pub struct DocumentStep {
    pub member: String,
    pub item: Option<u64>,
}

/// A place in a text: its line from 1, and the byte in that line from 1.
#[derive(Clone, Copy, Debug, PartialEq, Eq)]
pub struct LineColumn {
    pub line: u64,
    pub column: u64,
}

/// The place to which a path leads in a text.
#[derive(Clone, Copy)]
pub struct FoundPlace {
    /// The last value on the path that the text has: the whole document where it has none of its
    /// steps.
    pub value: LineColumn,
    /// The name of the member of the last step, where the text has that member.
    pub name: Option<LineColumn>,
}

/// Where paths lead in the text of a document. One scan of the text finds them all; without paths
/// there is none.
pub fn find_places(
    alloc: Global,
    text: &[u8],
    paths: &[Vec<DocumentStep>],
) -> Result<Vec<FoundPlace>, AllocError>
    // There is a place for each path.
    ensures count { IfOk result (λ places. length places.items ≡ length paths.now) }
    // Each of its positions is that of an offset of the text.
    ensures positions { IfOk result (λ places. All (IsFound text.now) places.items) }
{
    if paths.is_empty() {
        return Ok(Vec::new(alloc));
    }
    let tree = PlaceTree::of_paths(alloc, paths)?;
    let search = PlaceSearch::through(alloc, text, &tree)?;
    let finds: Vec<FoundOffsets> = paths
        .iter()
        .map(|path| search.offsets(path))
        .collect(alloc)?;
    let known = KnownPlaces::of_finds(alloc, text, &finds)?;
    known.found_places(alloc, &finds)
}

// The places of offsets, which are in order.
#[derive(Drop)]
struct KnownPlaces {
    offsets: Vec<usize>,
    places: Vec<LineColumn>,
}

impl KnownPlaces {
    fn of_finds(
        alloc: Global,
        text: &[u8],
        finds: &[FoundOffsets],
    ) -> Result<KnownPlaces, AllocError>
        ensures { IfOk result (λ known. All (IsPlace text.now) known.places.items) }
    {
        let mut offsets = Vec::new(alloc);
        for find in finds {
            offsets.push(find.value)?;
            if let Some(name) = find.name {
                offsets.push(name)?;
            }
        }
        offsets.sort_unstable();
        let places = places_of(alloc, text, &offsets)?;
        Ok(KnownPlaces { offsets, places })
    }

    fn found_places(
        &self,
        alloc: Global,
        finds: &[FoundOffsets],
    ) -> Result<Vec<FoundPlace>, AllocError>
        ensures count { IfOk result (λ places. length places.items ≡ length finds.now) }
        ensures positions { (text : List ℕ) → All (IsPlace text) self.now.places.items
            → IfOk result (λ places. All (IsFound text) places.items) }
    {
        let mut places = Vec::new(alloc);
        for find in finds {
            places.push(self.found_place(find))?;
        }
        Ok(places)
    }

    fn found_place(&self, find: &FoundOffsets) -> FoundPlace
        ensures { (text : List ℕ) → All (IsPlace text) self.now.places.items → IsFound text result }
    {
        FoundPlace {
            value: self.place(find.value),
            name: find.name.map(|name| self.place(name)),
        }
    }

    // The place of an offset, which is one of those that are known.
    fn place(&self, offset: usize) -> LineColumn
        ensures { (text : List ℕ) → All (IsPlace text) self.now.places.items → IsPlace text result }
    {
        let index = self.offsets.binary_search(&offset).unwrap_or(0);
        match self.places.get(index) {
            Some(place) => *place,
            None => LineColumn { line: 1, column: 1 },
        }
    }
}
