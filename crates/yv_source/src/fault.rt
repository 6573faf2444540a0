//! The refusal of a text at a place.

ghost use Rattle.std.specs.Prelude.{◌≡◌, ◌≤◌, take, length};
ghost use Rattle.yv_source.specs.{Answer.{refusal_in}, Place.{line_of}};

use crate::place::line_feeds;
use yv_text_statement::{Code, Refusal, Stop};

/// Refuses a text at an offset.
pub(crate) fn refuse(code: Code, bytes: &[u8], at: usize) -> Stop
    requires { at ≤ length bytes.now }
    ensures { result ≡ Stop.Fault (refusal_in bytes.now code at) }
{
    Stop::Fault(refusal(code, bytes, at))
}

/// The refusal of a text at an offset.
pub(crate) fn refusal(code: Code, bytes: &[u8], at: usize) -> Refusal
    requires { at ≤ length bytes.now }
    ensures { result ≡ refusal_in bytes.now code at }
{
    Refusal {
        code,
        file: 0,
        offset: at as u64,
        line: line_at(bytes, at) as u64,
    }
}

// The line of an offset, from 1.
fn line_at(bytes: &[u8], at: usize) -> usize
    requires { at ≤ length bytes.now }
    ensures { result ≡ line_of (take at bytes.now) }
{
    1 + line_feeds(&bytes[..at])
}
