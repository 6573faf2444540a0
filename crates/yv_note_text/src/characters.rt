//! Characters that texts have.

/// Whether a byte is a blank of YANG.
pub fn is_blank(byte: u8) -> bool {
    matches!(byte, b' ' | b'\t' | b'\r' | b'\n')
}

/// Whether a text has a quote of typography: one of U+2018 to U+201F.
pub fn has_curly_quote(bytes: &[u8]) -> bool {
    bytes
        .windows(3)
        .any(|three| matches!(three, [0xE2, 0x80, 0x98..=0x9F]))
}

/// How many bytes a text in double quotes has after its first quote, up to the last one and with
/// it. None, if it is not closed. A quote after a backslash is a character of the text.
pub fn quoted_size(bytes: &[u8]) -> Option<usize> {
    let mut is_escaped = false;
    for (count, byte) in bytes.iter().enumerate() {
        if is_escaped {
            is_escaped = false;
        } else if *byte == b'"' {
            return Some(count.saturating_add(1));
        } else {
            is_escaped = *byte == b'\\';
        }
    }
    None
}
