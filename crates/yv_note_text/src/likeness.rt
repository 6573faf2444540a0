//! Names that are like others.
ghost use Rattle.std.specs.Prelude.{◌≡◌, ◌≢◌, ◌≤◌, ◌<◌, ◌+◌, ◌-◌, ◌++◌, ◌⊎◌, ◌↔◌, ℕ, List, IsTrue, max, length, slice_index};
ghost use Rattle.yv_note_text.specs.Alike.{AreApart, AreExchanged, HasFitLength, HaveFitLengths, IsLikeness};

/// The likeness of a name that is there to one that was written: the less, the more alike.
#[derive(Clone, Copy, PartialEq, Eq, PartialOrd, Ord)]
pub enum Likeness {
    Same,
    /// Without what both begin and end by there is one character.
    OneApart,
    /// There are two characters.
    TwoApart,
    /// What was written is the front of it.
    Longer,
}

/// The longest names that are compared.
const MOST_BYTES: usize = 64;

/// How many letters a name has at least for each difference.
const LETTERS_EACH: usize = 3;

/// How a name is like one that was written, if it is. Both have 3 to 64 bytes, and differ in a
/// third of them at most, or what was written is the front of the name. Two neighbours that are
/// exchanged count as one difference.
pub fn compare(written: &[u8], name: &[u8]) -> Option<Likeness>
    // It is the first likeness that the name has to what was written.
    ensures { IsLikeness written.now name.now result }
{
    if written == name {
        return Some(Likeness::Same);
    }
    if has_fit_length(written) && has_fit_length(name) {
        likeness_of(written, name)
    } else {
        None
    }
}

// Whether a name is long enough to be like another one, and short enough to be compared.
fn has_fit_length(name: &[u8]) -> bool
    ensures { IsTrue result ↔ HasFitLength name.now }
{
    name.len() >= LETTERS_EACH && name.len() <= MOST_BYTES
}

// How a name is like another one that was written; both have a fit length.
fn likeness_of(written: &[u8], name: &[u8]) -> Option<Likeness>
    requires lengths { HaveFitLengths written.now name.now }
    requires other { written.now ≢ name.now }
    ensures { IsLikeness written.now name.now result }
{
    let apart = differences(written, name);
    if apart <= 1 {
        return Some(Likeness::OneApart);
    }
    if apart == 2 && written.len().max(name.len()) >= 2 * LETTERS_EACH {
        return Some(Likeness::TwoApart);
    }
    if is_front(written, name) {
        Some(Likeness::Longer)
    } else {
        None
    }
}

// Whether the one is the front of the other.
fn is_front(one: &[u8], other: &[u8]) -> bool
    ensures { IsTrue result ↔ ((more : List ℕ) × (other.now ≡ one.now ++ more)) }
{
    other.starts_with(one)
}

// By how many bytes names differ; two neighbours that are exchanged count as one.
fn differences(one: &[u8], other: &[u8]) -> usize
    ensures single { result ≤ 1 ↔ (AreApart 1 one.now other.now ⊎ AreExchanged one.now other.now) }
    ensures double { result ≤ 2 ↔ AreApart 2 one.now other.now }
{
    let front = common_front(one, other);
    let end = common_end(one, other, front);
    let apart = one.len().max(other.len()) - front - end;
    if apart == 2 && are_exchanged(one, other, front) {
        1
    } else {
        apart
    }
}

// Whether names of one length have the same two bytes here, exchanged.
fn are_exchanged(one: &[u8], other: &[u8], place: usize) -> bool
    requires { place + 2 ≤ max (length one.now) (length other.now) }
    ensures { IsTrue result ↔ ((length one.now ≡ length other.now)
        × (slice_index one.now place ≡ slice_index other.now (place + 1))
        × (slice_index one.now (place + 1) ≡ slice_index other.now place)) }
{
    one.len() == other.len() && one[place] == other[place + 1] && one[place + 1] == other[place]
}

// By how many bytes both begin.
fn common_front(one: &[u8], other: &[u8]) -> usize
    ensures first { result ≤ length one.now }
    ensures second { result ≤ length other.now }
    ensures same { (k : ℕ) → k < result → slice_index one.now k ≡ slice_index other.now k }
    ensures most { result < length one.now → result < length other.now
        → slice_index one.now result ≢ slice_index other.now result }
{
    let mut count = 0;
    while count < one.len() && count < other.len() && one[count] == other[count] {
        count += 1;
    }
    count
}

// By how many bytes both end, after so many.
fn common_end(one: &[u8], other: &[u8], front: usize) -> usize
    requires first { front ≤ length one.now }
    requires second { front ≤ length other.now }
    ensures first { front + result ≤ length one.now }
    ensures second { front + result ≤ length other.now }
    ensures same { (k : ℕ) → k < result → slice_index one.now (length one.now - 1 - k)
        ≡ slice_index other.now (length other.now - 1 - k) }
    ensures most { front + result < length one.now → front + result < length other.now
        → slice_index one.now (length one.now - 1 - result)
        ≢ slice_index other.now (length other.now - 1 - result) }
{
    let mut count = 0;
    while count < one.len() - front
        && count < other.len() - front
        && one[one.len() - 1 - count] == other[other.len() - 1 - count]
    {
        count += 1;
    }
    count
}
