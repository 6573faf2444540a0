//! Characters as a terminal may show them.
ghost use Rattle.std.specs.Prelude.{◌≡◌, ◌<◌};
ghost use Rattle.yv_note_text.specs.Clear.{is_visible, visible_byte};

// Whether a byte is a blank or a visible ASCII character.
fn is_visible(byte: u8) -> bool
    ensures { result ≡ is_visible byte }
{
    b' ' <= byte && byte <= b'~'
}

/// What is shown of a byte, so that it can't control a terminal.
pub fn visible_char(byte: u8) -> char
    // A blank and a visible ASCII character are shown as they are, and any other byte as a dot.
    ensures value { result ≡ visible_byte byte }
    // It is a character of ASCII.
    ensures ascii { result < 128 }
{
    if is_visible(byte) {
        char::from(byte)
    } else {
        '.'
    }
}
