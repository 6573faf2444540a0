//! What a file is that is not a text in UTF-8.

/// How many bytes of a file are looked at.
const MOST_BYTES: usize = 1024;

const UTF16: &str = " The file is in UTF-16: save it as UTF-8.";

/// What a file is that is not UTF-8, as far as its first bytes show, and what to do.
pub(crate) fn other_form(bytes: &[u8]) -> &'static str {
    match bytes {
        [0x1F, 0x8B, ..] => " The file is compressed by gzip: unpack it first.",
        [b'P', b'K', 3, 4, ..] => " The file is a ZIP archive: unpack it first.",
        [0xFF, 0xFE, ..] | [0xFE, 0xFF, ..] => UTF16,
        _ if has_zero(bytes) => " The file is binary, not text.",
        _ => " Save the file as UTF-8.",
    }
}

/// What a file is that is UTF-8 with characters that YANG does not allow: no text, if that isn't
/// known. Letters have a byte of zeros each in UTF-16.
pub(crate) fn form_of_letters(bytes: &[u8]) -> &'static str {
    match bytes {
        [0, 1..=255, ..] | [1..=255, 0, ..] => UTF16,
        _ => "",
    }
}

// Whether one of the first bytes is zero, as no byte of a text is.
fn has_zero(bytes: &[u8]) -> bool {
    bytes.iter().take(MOST_BYTES).any(|byte| *byte == 0)
}
