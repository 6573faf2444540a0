//! Columns of a file.
ghost use Rattle.std.specs.{Prelude.{◌≡◌, ◌≤◌, ◌-◌, length}, List.{suffix_len}};
ghost use Rattle.yv_base_positions.specs.Column.{column, is_in_line};

use memchr::memrchr;

/// The column of an offset, in bytes from 1. It takes time in proportion to the offset at most.
pub fn column_of(bytes: &[u8], offset: usize) -> usize
    // It is one more than the number of bytes between the last line feed before the offset, or the
    // beginning, and the offset.
    ensures { result ≡ column bytes.now offset }
{
    let front = &bytes[..offset.min(bytes.len())];
    1 + front.len() - line_start(front)
}

// Where the last line of a text begins.
fn line_start(front: &[u8]) -> usize
    ensures bound { result ≤ length front.now }
    ensures value { suffix_len is_in_line front.now ≡ length front.now - result }
{
    match memrchr(b'\n', front) {
        Some(at) => at + 1,
        None => 0,
    }
}
