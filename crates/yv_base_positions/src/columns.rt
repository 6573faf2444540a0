//! Columns of many offsets of a text.
ghost use Rattle.std.specs.Prelude.{◌≡◌, ◌≤◌, ◌+◌, ◌-◌, length};
ghost use Rattle.yv_base_positions.specs.{Column.{column}, LineStart.{IsLineStart}};

use memchr::memrchr;

/// A place in a text. Both are offsets in bytes. Its column, in bytes from 1, is one more than what
/// is between them.
#[derive(Clone, Copy, PartialEq, Eq, Debug)]
pub struct LinePlace {
    /// The place, at most the length of the text.
    pub offset: usize,
    /// Where its line begins.
    pub line_start: usize,
}

impl LinePlace {
    /// The beginning of a text.
    pub const BEGINNING: LinePlace = LinePlace {
        offset: 0,
        line_start: 0,
    };
}

/// The place of an offset, or the end of the text if that comes first. It is looked for from an
/// earlier place, so that the places of many offsets that ascend take one pass over the text,
/// however long its lines are. If the other place is later, it is looked for from the beginning.
pub fn place_of(bytes: &[u8], earlier: LinePlace, offset: u64) -> LinePlace
    // The earlier place is one of this text.
    requires { IsLineStart bytes.now earlier.offset earlier.line_start }
    // So is the place.
    ensures place { IsLineStart bytes.now result.offset result.line_start }
    // Its column is that of the offset.
    ensures column { 1 + result.offset - result.line_start ≡ column bytes.now offset }
{
    let offset = (offset as usize).min(bytes.len());
    let line_start = if earlier.offset <= offset {
        line_start_from(bytes, earlier, offset)
    } else {
        line_start_from(bytes, LinePlace::BEGINNING, offset)
    };
    LinePlace { offset, line_start }
}

// Where the line of an offset begins. Only the bytes from the earlier place to the offset are read.
fn line_start_from(bytes: &[u8], earlier: LinePlace, offset: usize) -> usize
    requires place { IsLineStart bytes.now earlier.offset earlier.line_start }
    requires order { earlier.offset ≤ offset }
    requires within { offset ≤ length bytes.now }
    ensures { IsLineStart bytes.now offset result }
{
    match memrchr(b'\n', &bytes[earlier.offset..offset]) {
        Some(at) => earlier.offset + at + 1,
        None => earlier.line_start,
    }
}
