//! The pieces of a text, one by one: words, and the single bytes between them.
ghost use Rattle.std.specs.{Prelude.{◌≡◌, ◌≤◌, length}, Iterator.{YieldsFirstBy, item_count}};
ghost use Rattle.yv_text_if_feature.specs.{Bytes.{is_blank, is_digit, is_letter}, Names.{is_part}};
ghost use Rattle.yv_text_path.specs.{InnerPieces.{word_len}, Pieces.{is_word_byte, mark_of, pieces}, ShownPieces.{piece_shown, pieces_left}};

/// A piece of a text: a word, or a single byte between words.
#[derive(Clone, Copy, PartialEq, Eq, Debug)]
pub enum Piece<'a> {
    /// Letters, digits, `_`, `-`, `.` and `:`, as many as come one after the other.
    Word(&'a [u8]),
    /// A space, a tab, a CR or an LF.
    Blank,
    Slash,
    OpeningBracket,
    ClosingBracket,
    EqualsSign,
    OpeningParenthesis,
    ClosingParenthesis,
    SingleQuote,
    DoubleQuote,
    /// Any other byte.
    Other,
}

/// The pieces of a text, in order.
#[derive(Clone, Copy)]
pub struct Pieces<'a> {
    rest: &'a [u8],
}

impl<'a> Pieces<'a> {
    pub fn new(text: &'a [u8]) -> Pieces<'a>
        // An iterator over the pieces of the text.
        ensures { pieces_left result ≡ pieces text.now }
    {
        Pieces { rest: text }
    }
}

impl<'a> Iterator for Pieces<'a> {
    type Item = Piece<'a>;

    ghost next_gives = { YieldsFirstBy piece_shown pieces_left };

    ghost remaining = { item_count pieces_left };

    fn next(&mut self) -> Option<Piece<'a>> {
        let rest = self.rest;
        let count = word_len(rest);
        if count > 0 {
            let (word, after) = rest.split_at(count);
            self.rest = after;
            return Some(Piece::Word(word));
        }
        if rest.is_empty() {
            return None;
        }
        self.rest = &rest[1..];
        Some(mark_of(rest[0]))
    }
}

// How many bytes of words come first.
fn word_len(text: &[u8]) -> usize
    ensures len { result ≡ word_len text.now }
    ensures bound { result ≤ length text.now }
{
    let mut count = 0;
    for byte in text {
        if !is_word_byte(*byte) {
            return count;
        }
        count += 1;
    }
    count
}

// What a byte between words is.
fn mark_of(byte: u8) -> Piece<'static>
    ensures { piece_shown result ≡ mark_of byte }
{
    if is_blank(byte) {
        return Piece::Blank;
    }
    match byte {
        b'/' => Piece::Slash,
        b'[' => Piece::OpeningBracket,
        b']' => Piece::ClosingBracket,
        b'=' => Piece::EqualsSign,
        b'(' => Piece::OpeningParenthesis,
        b')' => Piece::ClosingParenthesis,
        b'\'' => Piece::SingleQuote,
        b'"' => Piece::DoubleQuote,
        _ => Piece::Other,
    }
}

// A byte of a word.
fn is_word_byte(byte: u8) -> bool
    ensures { result ≡ is_word_byte byte }
{
    is_part(byte) || byte == b':'
}

fn is_part(byte: u8) -> bool
    ensures { result ≡ is_part byte }
{
    is_letter(byte) || byte == b'_' || is_digit(byte) || byte == b'-' || byte == b'.'
}

fn is_letter(byte: u8) -> bool
    ensures { result ≡ is_letter byte }
{
    byte >= b'A' && byte <= b'Z' || byte >= b'a' && byte <= b'z'
}

fn is_digit(byte: u8) -> bool
    ensures { result ≡ is_digit byte }
{
    byte >= b'0' && byte <= b'9'
}

// A space, a tab, a CR or an LF.
fn is_blank(byte: u8) -> bool
    ensures { result ≡ is_blank byte }
{
    byte == b' ' || byte == b'\t' || byte == b'\r' || byte == b'\n'
}
