//! The colons of a text that are outside of its strings. The bit tricks are simdjson's (Langdale
//! and Lemire).
use std::simd::prelude::*;

/// How many bytes are looked at together.
const BLOCK: usize = 64;

/// The even bits of a word.
const EVEN: u64 = 0x5555_5555_5555_5555;

/// How many colons of a text are outside of its strings: each member has one.
pub(crate) fn count_colons(text: &[u8]) -> u64 {
    let mut state = BlockState {
        is_escaped: false,
        is_text: false,
    };
    let mut count: u64 = 0;
    for bytes in text.chunks(BLOCK) {
        let block = block_of(bytes);
        let quotes = places_of(block, b'"') & !state.pass_backslashes(places_of(block, b'\\'));
        let colons = places_of(block, b':') & !state.pass_quotes(quotes);
        count = count.saturating_add(colons.count_ones() as u64);
    }
    count
}

// Up to 64 bytes, filled up with spaces.
fn block_of(bytes: &[u8]) -> u8x64 {
    if bytes.len() >= BLOCK {
        return u8x64::from_slice(bytes);
    }
    let mut filled = [b' '; 64];
    for (slot, byte) in filled.iter_mut().zip(bytes) {
        *slot = *byte;
    }
    u8x64::from_array(filled)
}

// The bits of the places that have this byte.
fn places_of(block: u8x64, byte: u8) -> u64 {
    block.simd_eq(u8x64::splat(byte)).to_bitmask()
}

// What the bytes before a block say of it: whether its first byte is escaped, and whether it begins
// inside of a string.
#[derive(Clone, Copy)]
struct BlockState {
    is_escaped: bool,
    is_text: bool,
}

impl BlockState {
    // Goes past a block with these backslashes. It returns the bits of the bytes that are escaped:
    // those after an odd number of backslashes.
    fn pass_backslashes(&mut self, backslashes: u64) -> u64 {
        let first = self.is_escaped as u64;
        if backslashes == 0 {
            self.is_escaped = false;
            return first;
        }
        let live = backslashes & !first;
        let after = (live << 1) | first;
        let odd_starts = live & !EVEN & !after;
        let (even_runs, is_escaped) = odd_starts.overflowing_add(live);
        self.is_escaped = is_escaped;
        (EVEN ^ (even_runs << 1)) & after
    }

    // Goes past a block with these quotes. It returns the bits of the bytes from each quote that
    // opens a string up to the one that closes it.
    fn pass_quotes(&mut self, quotes: u64) -> u64 {
        let before = 0u64.wrapping_sub(self.is_text as u64);
        if quotes == 0 {
            return before;
        }
        let inside = parities(quotes) ^ before;
        self.is_text = inside >> 63 == 1;
        inside
    }
}

// At each bit, whether the bits up to it are odd in number.
fn parities(bits: u64) -> u64 {
    let by_2 = bits ^ (bits << 1);
    let by_4 = by_2 ^ (by_2 << 2);
    let by_8 = by_4 ^ (by_4 << 4);
    let by_16 = by_8 ^ (by_8 << 8);
    let by_32 = by_16 ^ (by_16 << 16);
    by_32 ^ (by_32 << 32)
}
