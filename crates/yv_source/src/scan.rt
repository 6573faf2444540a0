//! What a text begins with.

ghost use Rattle.std.specs.Prelude.{◌≡◌, ◌<◌, ◌≤◌, ◌^◌, ◌∷◌, ℕ, List, length, drop, true, false};
ghost use Rattle.yv_source.specs.{Characters.{single_quote, asterisk, slash}, Pieces.{begins, begins_two, until, ends_word, up_to_quote, past_gap}, Inner.Scan.{ahead_in, before_of, ahead_of, is_unquoted, unless_unquoted, closed_piece, closed_by_two, word_or_plus, from, from_quote, begins_mark, ends_comment, pair_len}, Inner.Turn.{length_of, past_found}};
ghost use Rattle.yv_source.specs.Pieces as Piece;

use memchr::{memchr, memchr2};

/// What is before a place.
#[derive(Clone, Copy)]
pub(crate) enum Before {
    /// Neither of the others.
    Apart,
    /// An unquoted text, right before it.
    Unquoted,
    /// A quoted text, with only blanks and comments between.
    Quoted,
}

/// A piece of a text, by the length in bytes of the text inside its marks.
#[derive(Clone, Copy)]
pub(crate) enum FoundPiece {
    Blank,
    LineComment(usize),
    BlockComment(usize),
    Word(usize),
    Single(usize),
    Double(usize),
    Semicolon,
    Open,
    Close,
    Plus,
}

/// What is at a place.
#[derive(Clone, Copy)]
pub(crate) enum Ahead {
    /// The text's end.
    End,
    /// Nothing that is allowed there.
    Nothing,
    Piece(FoundPiece),
}

impl FoundPiece {
    /// How many bytes the piece has.
    pub(crate) fn length(self) -> usize
        requires { length_of self < 2 ^ 64 }
        ensures { result ≡ length_of self }
    {
        match self {
            FoundPiece::Blank
            | FoundPiece::Semicolon
            | FoundPiece::Open
            | FoundPiece::Close
            | FoundPiece::Plus => 1,
            FoundPiece::Word(len) => len,
            FoundPiece::LineComment(len) | FoundPiece::Single(len) | FoundPiece::Double(len) => len
                + 2,
            FoundPiece::BlockComment(len) => len + 4,
        }
    }
}

impl Before {
    /// What is before the place after a piece.
    pub(crate) fn past(self, found: FoundPiece) -> Before
        ensures { before_of result ≡ past_found (before_of self) found }
    {
        match found {
            FoundPiece::Blank | FoundPiece::LineComment(_) | FoundPiece::BlockComment(_) =>
                self.past_gap(),
            FoundPiece::Word(_) => Before::Unquoted,
            FoundPiece::Single(_) | FoundPiece::Double(_) => Before::Quoted,
            FoundPiece::Semicolon | FoundPiece::Open | FoundPiece::Close | FoundPiece::Plus =>
                Before::Apart,
        }
    }

    fn past_gap(self) -> Before
        ensures { before_of result ≡ past_gap (before_of self) }
    {
        match self {
            Before::Quoted => Before::Quoted,
            Before::Apart | Before::Unquoted => Before::Apart,
        }
    }

    fn is_unquoted(self) -> bool
        ensures { result ≡ is_unquoted (before_of self) }
    {
        matches!(self, Before::Unquoted)
    }
}

/// What is at an offset of a text, after what is before it.
pub(crate) fn look_ahead(before: Before, bytes: &[u8], at: usize) -> Ahead
    requires { at ≤ length bytes.now }
    ensures { result ≡ ahead_in (before_of before) (drop at bytes.now) }
{
    first_piece(before, &bytes[at..])
}

fn first_piece(before: Before, bytes: &[u8]) -> Ahead
    ensures { result ≡ ahead_in (before_of before) bytes.now }
{
    match bytes {
        [] => Ahead::End,
        [b' ' | b'\t' | b'\r' | b'\n', ..] => Ahead::Piece(FoundPiece::Blank),
        [b'"', rest @ ..] => double(before, rest),
        [b'\'', rest @ ..] => single(before, rest),
        [b';', ..] => Ahead::Piece(FoundPiece::Semicolon),
        [b'{', ..] => Ahead::Piece(FoundPiece::Open),
        [b'}', ..] => Ahead::Piece(FoundPiece::Close),
        [b'/', b'/', rest @ ..] => Ahead::Piece(FoundPiece::LineComment(first_byte(b'\n', rest))),
        [b'/', b'*', rest @ ..] => block_comment(rest),
        [b'*', b'/', ..] => Ahead::Nothing,
        _ => word(before, bytes),
    }
}

// How many bytes there are before the first that equals this one. Often it's among the very first,
// as in a row of short texts, and these are looked at without a call.
pub(crate) fn first_byte(byte: u8, bytes: &[u8]) -> usize
    ensures value { result ≡ length (until (begins byte) bytes.now) }
    ensures within { result ≤ length bytes.now }
{
    match bytes {
        [first, ..] if *first == byte => 0,
        [_, second, ..] if *second == byte => 1,
        [_, _, third, ..] if *third == byte => 2,
        _ => byte_offset(byte, bytes),
    }
}

fn byte_offset(byte: u8, bytes: &[u8]) -> usize
    ensures value { result ≡ length (until (begins byte) bytes.now) }
    ensures within { result ≤ length bytes.now }
{
    memchr(byte, bytes).unwrap_or(bytes.len())
}

// How many bytes there are before the first end of a comment.
fn comment_len(bytes: &[u8]) -> usize
    ensures { result ≡ length (until (begins_two asterisk slash) bytes.now) }
{
    let mut at = 0;
    loop {
        at += first_byte(b'*', &bytes[at..]);
        if ends_comment(&bytes[at..]) {
            return at;
        }
        at += 1;
    }
}

// Whether a text is at the end of a comment, or at its own.
fn ends_comment(bytes: &[u8]) -> bool
    ensures { result ≡ ends_comment bytes.now }
{
    matches!(bytes, [b'*', b'/', ..] | [])
}

// How many bytes an unquoted text has.
fn word_len(bytes: &[u8]) -> usize
    ensures { result ≡ length (until ends_word bytes.now) }
{
    for i in 0..bytes.len() {
        if is_word_end(bytes, i) {
            return i;
        }
    }
    bytes.len()
}

// Whether an unquoted text ends at an offset. Most bytes end none, so that what is after them isn't
// looked at.
fn is_word_end(bytes: &[u8], at: usize) -> bool
    requires { at < length bytes.now }
    ensures { result ≡ ends_word (drop at bytes.now) }
{
    !goes_on(bytes[at]) && ends_word(&bytes[at..])
}

// Whether a byte ends no unquoted text, whatever is after it. The ranges leave out every mark, and
// the one with the letters is asked for first.
fn goes_on(byte: u8) -> bool
    ensures { (rest : List ℕ) → result ≡ true → ends_word (byte ∷ rest) ≡ false }
{
    byte >= b'<' && byte <= b'z' || byte >= b'+' && byte <= b'.' || byte >= b'0' && byte <= b':'
}

fn ends_word(bytes: &[u8]) -> bool
    ensures { result ≡ ends_word bytes.now }
{
    match bytes {
        [] => true,
        [
            b' ' | b'\t' | b'\r' | b'\n' | b'"' | b'\'' | b';' | b'{' | b'}',
            ..
        ] => true,
        [b'/', b'/' | b'*', ..] | [b'*', b'/', ..] => true,
        _ => false,
    }
}

// How many bytes there are before the double quote that ends a text.
fn quote_len(bytes: &[u8]) -> usize
    ensures { result ≡ length (up_to_quote false bytes.now) }
{
    let mut at = 0;
    loop {
        at += first_mark(&bytes[at..]);
        let pair = pair_len(&bytes[at..]);
        if pair == 0 {
            return at;
        }
        at += pair;
    }
}

// How many bytes at the front of a text are a backslash and the byte that it takes with it.
fn pair_len(bytes: &[u8]) -> usize
    ensures value { result ≡ pair_len bytes.now }
    ensures within { result ≤ length bytes.now }
{
    match bytes {
        [b'\\'] => 1,
        [b'\\', _, ..] => 2,
        _ => 0,
    }
}

// How many bytes there are before the first double quote or backslash. Often it's among the very
// first.
fn first_mark(bytes: &[u8]) -> usize
    ensures value { result ≡ length (until begins_mark bytes.now) }
    ensures within { result ≤ length bytes.now }
{
    match bytes {
        [b'"' | b'\\', ..] => 0,
        [_, b'"' | b'\\', ..] => 1,
        [_, _, b'"' | b'\\', ..] => 2,
        _ => mark_offset(bytes),
    }
}

fn mark_offset(bytes: &[u8]) -> usize
    ensures value { result ≡ length (until begins_mark bytes.now) }
    ensures within { result ≤ length bytes.now }
{
    memchr2(b'"', b'\\', bytes).unwrap_or(bytes.len())
}

// A double-quoted text, from after its first quote.
fn double(before: Before, rest: &[u8]) -> Ahead
    ensures { let piece = Piece.Double (up_to_quote false rest.now) in
        result
        ≡ ahead_of
        (unless_unquoted (before_of before) (closed_piece piece (from_quote false rest.now))) }
{
    if before.is_unquoted() {
        return Ahead::Nothing;
    }
    let len = quote_len(rest);
    if len == rest.len() {
        Ahead::Nothing
    } else {
        Ahead::Piece(FoundPiece::Double(len))
    }
}

// A single-quoted text, from after its first quote.
fn single(before: Before, rest: &[u8]) -> Ahead
    ensures { let piece = Piece.Single (until (begins single_quote) rest.now) in
        result
        ≡ ahead_of
        (unless_unquoted (before_of before)
        (closed_piece piece (from (begins single_quote) rest.now))) }
{
    if before.is_unquoted() {
        return Ahead::Nothing;
    }
    let len = first_byte(b'\'', rest);
    if len == rest.len() {
        Ahead::Nothing
    } else {
        Ahead::Piece(FoundPiece::Single(len))
    }
}

/// A comment between marks, from after its first two bytes.
pub(crate) fn block_comment(rest: &[u8]) -> Ahead
    ensures { let piece = Piece.BlockComment (until (begins_two asterisk slash) rest.now) in
        result ≡ ahead_of (closed_by_two piece (from (begins_two asterisk slash) rest.now)) }
{
    let len = comment_len(rest);
    if len == rest.len() {
        Ahead::Nothing
    } else {
        Ahead::Piece(FoundPiece::BlockComment(len))
    }
}

// An unquoted text, or the sign that joins quoted ones.
fn word(before: Before, bytes: &[u8]) -> Ahead
    ensures { result ≡ ahead_of (word_or_plus (before_of before) bytes.now) }
{
    match (before, bytes) {
        (Before::Quoted, [b'+', ..]) => Ahead::Piece(FoundPiece::Plus),
        _ => Ahead::Piece(FoundPiece::Word(word_len(bytes))),
    }
}
