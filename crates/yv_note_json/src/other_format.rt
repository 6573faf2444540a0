//! What a document is in place of JSON, by the bytes with which it begins.
use yv_note_text::is_blank;

/// How many bytes at the start show whether a file is binary.
const FRONT: usize = 512;

const NOT_UTF8: &str = "data: not UTF-8 from this byte on\n";

const UTF16: &str = "data: not UTF-8 but UTF-16: save the document as UTF-8\n";

const GZIP: &str = "data: not JSON but gzip: unpack the document first\n";

const BINARY: &str = "data: not JSON but a binary file\n";

/// That a document is a module or submodule of YANG.
pub(crate) const MODULE: &str = "\
this is a YANG module, not a JSON document; name the document after --data";

/// What bytes that are not UTF-8 are, as a line of its own.
pub(crate) fn encoding_line(bytes: &[u8]) -> &'static str {
    if is_utf16(bytes) {
        UTF16
    } else if bytes.starts_with(&[0x1F, 0x8B]) {
        GZIP
    } else if has_control(bytes) {
        BINARY
    } else {
        NOT_UTF8
    }
}

// Whether a mark of UTF-16 is at the start, or a bracket of it.
fn is_utf16(bytes: &[u8]) -> bool {
    matches!(
        bytes,
        [0xFF, 0xFE, ..] | [0xFE, 0xFF, ..] | [0, b'{' | b'[', ..] | [b'{' | b'[', 0, ..]
    )
}

// Whether a control character that no text has is near the start. Blanks and escapes of terminals
// are in texts.
fn has_control(bytes: &[u8]) -> bool {
    bytes
        .iter()
        .take(FRONT)
        .any(|byte| matches!(*byte, 0..=8 | 14..=26 | 28..=31))
}

/// Whether a text is a module or submodule of YANG, by its first word after blanks and comments.
pub(crate) fn is_module(text: &[u8]) -> bool {
    let rest = skip_comments(text);
    begins_statement(rest, b"module") || begins_statement(rest, b"submodule")
}

// Whether a text begins with a keyword and a blank.
fn begins_statement(text: &[u8], keyword: &[u8]) -> bool {
    match text.get(keyword.len()) {
        Some(byte) => is_blank(*byte) && text.starts_with(keyword),
        None => false,
    }
}

// What a text has after its first blanks and comments. Takes time linear in them.
fn skip_comments(text: &[u8]) -> &[u8] {
    let mut rest = text.trim_ascii_start();
    for _ in 0..text.len() {
        match skip_comment(rest) {
            Some(after) => rest = after.trim_ascii_start(),
            None => break,
        }
    }
    rest
}

// What is after the comment with which a text begins, if it does and the comment ends.
fn skip_comment(text: &[u8]) -> Option<&[u8]> {
    match text {
        [b'/', b'/', rest @ ..] => {
            let size = rest.iter().position(|byte| *byte == b'\n')?;
            rest.get(size..)
        }
        [b'/', b'*', rest @ ..] => {
            let size = rest.windows(2).position(|two| matches!(two, [b'*', b'/']))?;
            rest.get(size.saturating_add(2)..)
        }
        _ => None,
    }
}
