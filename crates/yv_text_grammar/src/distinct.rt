//! Whether a word occurs twice in a text, found without allocating memory.
//!
//! Words that fill a table on the stack are sorted there, the words after them are looked up among
//! them, and so on. So n words cost about n * n / (2 * N) searches by a table of N words: 4 MiB of
//! different short words fill the largest table six times, and take half a second.
ghost use Rattle.std.specs.{Prelude.{◌≡◌, ◌≤◌, ◌<◌, ℕ, [], ◌++◌, length, map, take}, List.{list_any}, List.Sorted.{IsSorted}, Str.{bytes_eq}};
ghost use Rattle.yv_text_grammar.specs.{InnerDistinct.{by_text, share, text_of}, InnerWords.{words_left}, Texts.{none_twice}, Words.{words}};

use crate::words::Words;

/// How many words a small table holds, and up to how many bytes a text may be for it.
const FEW: usize = 256;

/// The same of a large table.
const MANY: usize = 16_384;

/// How many words the largest table holds: it takes 2 MiB.
const MOST: usize = 131_072;

/// Whether no word of a text occurs twice.
pub fn none_twice(text: &[u8]) -> bool
    ensures { result ≡ none_twice (words text.now) }
{
    if text.len() <= 2 * FEW {
        none_twice_short(text)
    } else if text.len() <= 2 * MANY {
        none_twice_long(text)
    } else {
        none_twice_longest(text)
    }
}

// This and the next stay functions of their own, since the caller would reserve a place for their
// tables at each statement.
#[inline(never)]
fn none_twice_short(text: &[u8]) -> bool
    ensures { result ≡ none_twice (words text.now) }
{
    let mut table: [&[u8]; FEW] = [b""; FEW];
    none_twice_in(&mut table, text)
}

#[inline(never)]
fn none_twice_long(text: &[u8]) -> bool
    ensures { result ≡ none_twice (words text.now) }
{
    let mut table: [&[u8]; MANY] = [b""; MANY];
    none_twice_in(&mut table, text)
}

// A table of this size is on the stack only where such a text is.
#[inline(never)]
fn none_twice_longest(text: &[u8]) -> bool
    ensures { result ≡ none_twice (words text.now) }
{
    let mut table: [&[u8]; MOST] = [b""; MOST];
    none_twice_in(&mut table, text)
}

// The same, by a table: words that fill it are sorted, those after them are looked up in it, and
// so on.
fn none_twice_in<'a>(table: &mut [&'a [u8]], text: &'a [u8]) -> bool
    requires { 0 < length table.old }
    ensures { result ≡ none_twice (words text.now) }
{
    let mut words = Words::new(text);
    loop {
        let count = fill(table, &mut words);
        if count == 0 {
            return true;
        }
        let taken = &mut table[..count];
        taken.sort_unstable();
        if !is_rising(taken) {
            return false;
        }
        if has_one_of(taken, words) {
            return false;
        }
    }
}

// Puts the next words into a table, and returns how many.
fn fill<'a>(table: &mut [&'a [u8]], words: &mut Words<'a>) -> usize
    ensures bound { result ≤ length table.new }
    ensures takes { words_left words.old ≡ map text_of (take result table.new)
        ++ words_left words.new }
    ensures full { result < length table.new → words_left words.new ≡ [] }
{
    let mut count = 0;
    while count < table.len() {
        let Some(word) = words.next() else {
            break;
        };
        table[count] = word;
        count += 1;
    }
    count
}

// Whether each of these words, which are sorted, is below the next.
fn is_rising(sorted: &[&[u8]]) -> bool
    requires { IsSorted by_text sorted.now }
    ensures { result ≡ none_twice (map text_of sorted.now) }
{
    sorted.is_sorted_by(|word, next| word.cmp(next).is_lt())
}

// Whether one of the words that are left is among these, which are sorted. It takes a copy of the
// iterator, so that the words are still to come where it was taken.
fn has_one_of(sorted: &[&[u8]], words: Words) -> bool
    requires { IsSorted by_text sorted.now }
    ensures { result ≡ share (map text_of sorted.now) (words_left words.entry) }
{
    for word in words {
        if is_among(sorted, word) {
            return true;
        }
    }
    false
}

fn is_among(sorted: &[&[u8]], word: &[u8]) -> bool
    requires { IsSorted by_text sorted.now }
    ensures { result ≡ list_any (bytes_eq word.now) (map text_of sorted.now) }
{
    sorted.binary_search(&word).is_ok()
}
