//! Blanks and comments between tokens.

ghost use Rattle.std.specs.{Prelude.{◌≡◌, ◌≤◌, IsTrue, IfSome, length, take, drop}, List.{list_all}};
ghost use Rattle.yv_source.specs.{Pieces.{is_blank}, Inner.Gap.{BeginsComment, IsGap, IsPastGap}, Inner.Scan.{before_of}};

use crate::scan::{Ahead, Before, FoundPiece, block_comment, first_byte};

/// The offset after the blanks and comments at one, unless an unquoted text is right before it. A
/// text may have many, and no statement takes notice of them.
pub(crate) fn past_gap(before: Before, bytes: &[u8], at: usize) -> usize
    requires { at ≤ length bytes.now }
    ensures { IsPastGap (before_of before) at (drop at bytes.now) result }
{
    match before {
        Before::Unquoted => at,
        Before::Apart | Before::Quoted => at + gap_len(&bytes[at..]),
    }
}

// How many bytes of blanks and comments a text begins with.
fn gap_len(bytes: &[u8]) -> usize
    ensures gap { IsGap bytes.now result }
    ensures within { result ≤ length bytes.now }
{
    let mut at = 0;
    loop {
        at += blank_len(&bytes[at..]);
        let Some(comment) = comment_at(&bytes[at..]) else {
            return at;
        };
        at += comment.length();
    }
}

// How many blanks a text begins with.
fn blank_len(bytes: &[u8]) -> usize
    ensures within { result ≤ length bytes.now }
    ensures blank { IsTrue (list_all is_blank (take result bytes.now)) }
{
    for i in 0..bytes.len() {
        if !is_blank(bytes[i]) {
            return i;
        }
    }
    bytes.len()
}

fn is_blank(byte: u8) -> bool
    ensures { result ≡ is_blank byte }
{
    byte == b' ' || byte == b'\t' || byte == b'\r' || byte == b'\n'
}

// The comment that a text begins with, where it is whole.
fn comment_at(bytes: &[u8]) -> Option<FoundPiece>
    ensures { IfSome result (λ f. BeginsComment bytes.now f) }
{
    match bytes {
        [b'/', b'/', rest @ ..] => Some(FoundPiece::LineComment(first_byte(b'\n', rest))),
        [b'/', b'*', rest @ ..] => match block_comment(rest) {
            Ahead::Piece(comment) => Some(comment),
            Ahead::End | Ahead::Nothing => None,
        },
        _ => None,
    }
}
