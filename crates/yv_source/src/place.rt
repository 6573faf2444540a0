//! Lines and columns of a text.

ghost use Rattle.std.specs.{Prelude.{◌≡◌, ◌≤◌, ◌<◌, ◌*◌, ◌^◌, ◌+◌, ◌==◌, count_by, length, take}};
ghost use Rattle.yv_source.specs.{Characters.{line_feed}, Legal.{most_bytes}, Place.{mark_len, columns, column_of, column_past, line_of}, Inner.Place.{AreCounted}};

use memchr::memrchr;

// How many bytes are counted at once.
const BLOCK: usize = 192;

/// How far the lines of a text were counted. Lines are asked for from the front to the end, and
/// each is counted from the one before it.
#[derive(Clone, Copy)]
pub(crate) struct Lines {
    /// An offset.
    at: usize,
    /// Its line, from 1.
    line: usize,
}

impl Lines {
    pub(crate) fn new() -> Lines
        ensures { result ≡ record { at = 0; line = 1 } }
    {
        Lines { at: 0, line: 1 }
    }

    /// The line of the place after a text.
    pub(crate) fn line_after(&mut self, front: &[u8]) -> usize
        requires size { length front.now ≤ most_bytes }
        requires counted { AreCounted self.old front.now }
        ensures line { result ≡ line_of front.now }
        ensures counts { AreCounted self.new front.now }
    {
        self.line += line_feeds(&front[self.at..]);
        self.at = front.len();
        self.line
    }
}

/// How many bytes at the front of a text are a byte order mark.
pub(crate) fn mark_len_of(bytes: &[u8]) -> usize
    ensures { result ≡ mark_len bytes.now }
{
    match bytes {
        [0xEF, 0xBB, 0xBF, ..] => 3,
        _ => 0,
    }
}

/// How many line feeds the bytes have: first those of whole blocks, then those of the rest.
pub(crate) fn line_feeds(bytes: &[u8]) -> usize
    ensures count { result ≡ count_by (λ b. b == line_feed) bytes.now }
    ensures bound { result ≤ length bytes.now }
{
    let mut count = 0;
    let mut at = 0;
    while bytes.len() - at > BLOCK {
        count += usize::from(block_feeds(&bytes[at..at + BLOCK]));
        at += BLOCK;
    }
    count + usize::from(block_feeds(&bytes[at..]))
}

// How many line feeds a block has. A byte holds their number, so that many are compared at once.
fn block_feeds(bytes: &[u8]) -> u8
    requires { length bytes.now ≤ 192 }
    ensures count { result ≡ count_by (λ b. b == line_feed) bytes.now }
    ensures bound { result ≤ length bytes.now }
{
    let mut count: u8 = 0;
    for byte in bytes {
        if *byte == b'\n' {
            count += 1;
        }
    }
    count
}

/// How many columns there are before the place after a text.
pub(crate) fn column_after(front: &[u8]) -> usize
    requires { length front.now ≤ most_bytes }
    ensures column { result ≡ column_of front.now }
    ensures bound { result < 2 ^ 40 }
{
    columns(&front[mark_len_of(front)..])
}

// The columns after these bytes. Only those of the last line are counted.
fn columns(bytes: &[u8]) -> usize
    requires { 8 * length bytes.now < 2 ^ 40 }
    ensures { result ≡ columns 0 bytes.now }
{
    match memrchr(b'\n', bytes) {
        Some(at) => columns_on(&bytes[at + 1..]),
        None => columns_on(bytes),
    }
}

fn columns_on(bytes: &[u8]) -> usize
    requires { 8 * length bytes.now < 2 ^ 40 }
    ensures { result ≡ columns 0 bytes.now }
{
    let mut column = 0;
    for b in bytes {
        column = column_past(column, *b);
    }
    column
}

fn column_past(column: usize, byte: u8) -> usize
    requires { column < 2 ^ 40 }
    ensures { result ≡ column_past column byte }
{
    match byte {
        b'\n' => 0,
        b'\t' => column + 8,
        0x80..=0xBF => column,
        _ => column + 1,
    }
}
