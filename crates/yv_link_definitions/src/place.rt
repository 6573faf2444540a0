//! Where statements are.
ghost use Rattle.std.specs.Prelude.{◌≡◌, ◌<◌, ◌≤◌, ℕ, Some, true, false, slice_get};
ghost use Rattle.yv_link_definitions.specs.{Lookups.{is_there, lookup_in}, InnerOrder.{Rise, is_before}};

/// Where a statement is, and its number.
#[derive(Clone, Copy)]
pub(crate) struct Place {
    pub file: u32,
    pub number: u32,
    pub offset: u64,
}

impl Place {
    // Whether it is before an offset of a file, or in an earlier file.
    fn is_before(&self, file: u32, offset: u64) -> bool
        ensures { result ≡ is_before self.now file offset }
    {
        self.file < file || (self.file == file && self.offset < offset)
    }

    // Whether it is at an offset of a file.
    fn is_there(&self, file: u32, offset: u64) -> bool
        ensures { result ≡ is_there file offset self.now }
    {
        self.file == file && self.offset == offset
    }
}

/// Whether all places that rise are before a new one.
pub(crate) fn are_before(places: &[Place], file: u32, offset: u64) -> bool
    requires { Rise places.now }
    ensures { result ≡ true → (k : ℕ) (p : Place) → slice_get places.now k ≡ Some p
        → is_before p file offset ≡ true }
{
    match places.last() {
        Some(last) => last.is_before(file, offset),
        None => true,
    }
}

// How many of the places that rise are before one.
fn count_before(places: &[Place], file: u32, offset: u64) -> usize
    requires { Rise places.now }
    ensures below { (k : ℕ) (p : Place) → k < result → slice_get places.now k ≡ Some p
        → is_before p file offset ≡ true }
    ensures above { (k : ℕ) (p : Place) → result ≤ k → slice_get places.now k ≡ Some p
        → is_before p file offset ≡ false }
{
    let mut low = 0;
    let mut high = places.len();
    while low < high {
        let middle = low + (high - low) / 2;
        let place = &places[middle];
        if place.is_before(file, offset) {
            low = middle + 1;
        } else {
            high = middle;
        }
    }
    low
}

/// The number of the first of the places that is there, in time linear in these.
pub(crate) fn first_there(places: &[Place], file: u32, offset: u64) -> Option<usize>
    ensures { result ≡ lookup_in places.now file offset }
{
    let place = places.iter().find(|place| place.is_there(file, offset))?;
    Some(place.number as usize)
}

// The numbered place.
fn place_at(places: &[Place], number: usize) -> Option<Place>
    ensures { result ≡ slice_get places.now number }
{
    places.get(number).copied()
}

/// The same where the places rise, in time log n.
pub(crate) fn find_there(places: &[Place], file: u32, offset: u64) -> Option<usize>
    requires { Rise places.now }
    ensures { result ≡ lookup_in places.now file offset }
{
    let count = count_before(places, file, offset);
    match place_at(places, count) {
        Some(place) if place.is_there(file, offset) => Some(place.number as usize),
        _ => None,
    }
}
