//! The backslash pairs that a file of YANG 1.1 may not have.

ghost use Rattle.std.specs.Prelude.{◌≡◌, ◌≤◌, ◌<◌, ◌+◌, false, length, IfSome};
ghost use Rattle.yv_text_statement.specs.Tree.{trees};
ghost use Rattle.yv_source.specs.{Escapes.{begins_escape, is_escape}, Inner.Turn.{length_of}, Inner.Pairs.{bad_found, bad_pair, is_newer, is_version}};

use crate::scan::{FoundPiece, first_byte};
use yv_text_statement::{Keyword, Statement};

/// Where the first bad backslash pair is, of those so far and of the piece at a place.
pub(crate) fn bad_found(
    bad: Option<usize>,
    bytes: &[u8],
    found: FoundPiece,
    at: usize,
) -> Option<usize>
    requires finds { at + length_of found ≤ length bytes.now }
    requires so_far { IfSome bad (λ n. n ≤ length bytes.now) }
    ensures place { result ≡ bad_found bad at found bytes.now }
    ensures within { IfSome result (λ n. n ≤ length bytes.now) }
{
    match (bad, found) {
        (None, FoundPiece::Double(len)) => {
            let place = bad_pair(&bytes[at + 1..at + 1 + len])?;
            Some(at + 1 + place)
        }
        _ => bad,
    }
}

// Where the first bad backslash pair of a text is.
fn bad_pair(bytes: &[u8]) -> Option<usize>
    ensures place { result ≡ bad_pair false 0 bytes.now }
    ensures within { IfSome result (λ n. n < length bytes.now) }
{
    let mut at = 0;
    loop {
        at += first_byte(b'\\', &bytes[at..]);
        if at == bytes.len() {
            return None;
        }
        if !begins_escape(&bytes[at + 1..]) {
            return Some(at);
        }
        at += 2;
    }
}

fn begins_escape(bytes: &[u8]) -> bool
    ensures { result ≡ begins_escape bytes.now }
{
    match bytes {
        [] => false,
        [byte, ..] => is_escape(*byte),
    }
}

fn is_escape(byte: u8) -> bool
    ensures { result ≡ is_escape byte }
{
    matches!(byte, b'n' | b't' | b'"' | b'\\')
}

/// Whether a statement of the block says that the file is of YANG 1.1.
pub(crate) fn is_newer(statement: &Statement) -> bool
    ensures { result ≡ is_newer (trees statement.now.children) }
{
    statement.children().iter().any(|child| is_version(child))
}

fn is_version(statement: &Statement) -> bool
    ensures { result ≡ is_version statement.now }
{
    statement.is(Keyword::YangVersion) && statement.argument() == Some("1.1")
}
