//! The reason why a text is not JSON, by what is at the place where reading stopped (RFC 8259).
use crate::json_number::number_reason;
use std::alloc::{AllocError, Global};
use yv_note_text::{has_curly_quote, is_blank, quoted_size};

/// How deep objects and arrays nest at most.
const MOST_DEPTH: usize = 127;

#[derive(Clone, Copy, PartialEq, Eq)]
enum Bracket {
    Object,
    Array,
}

/// What is before a place.
#[derive(Drop)]
pub(crate) struct Before {
    /// The last byte that isn't blank.
    last: Option<u8>,
    open: Vec<Bracket>,
    /// Whether a string is not closed.
    is_text: bool,
    /// Whether the innermost object has a colon since its last comma.
    has_colon: bool,
    /// Whether the last comma of an object is after a name without a value.
    lacks_value: bool,
}

impl Before {
    // What is before the place at which these bytes end. Takes time linear in the bytes.
    fn of(alloc: Global, bytes: &[u8]) -> Result<Before, AllocError> {
        let mut before = Before {
            last: last_sign(bytes),
            open: Vec::new(alloc),
            is_text: false,
            has_colon: false,
            lacks_value: false,
        };
        let mut rest = bytes;
        for _ in 0..bytes.len() {
            match rest {
                [b'"', text @ ..] => rest = before.skip_text(text),
                [byte, after @ ..] => {
                    before.take(*byte)?;
                    rest = after;
                }
                [] => break,
            }
        }
        Ok(before)
    }

    // Skips a text, by what is after its first quote. What is after the text.
    fn skip_text<'b>(&mut self, rest: &'b [u8]) -> &'b [u8] {
        let after = quoted_size(rest).and_then(|size| rest.get(size..));
        self.is_text = after.is_none();
        after.unwrap_or(&[])
    }

    // Takes a byte that is in no text.
    fn take(&mut self, byte: u8) -> Result<(), AllocError> {
        match byte {
            b'{' => self.enter(Bracket::Object)?,
            b'[' => self.enter(Bracket::Array)?,
            b'}' | b']' => {
                let _ = self.open.pop();
                self.has_colon = true;
            }
            b':' => self.has_colon = true,
            b',' => {
                self.lacks_value = self.needs_colon();
                self.has_colon = false;
            }
            _ => {}
        }
        Ok(())
    }

    // Opens an object or an array. Reading stops at one that is too deep, so not many are open.
    fn enter(&mut self, bracket: Bracket) -> Result<(), AllocError> {
        self.open.push(bracket)?;
        self.has_colon = false;
        Ok(())
    }

    fn is_in(&self, bracket: Bracket) -> bool {
        match self.open.last() {
            Some(open) => *open == bracket,
            None => false,
        }
    }

    /// Whether the member of an object has no colon yet.
    pub(crate) fn needs_colon(&self) -> bool {
        self.is_in(Bracket::Object) && !self.has_colon
    }

    fn is_after(&self, byte: u8) -> bool {
        self.last == Some(byte)
    }

    /// Whether a value ends there.
    pub(crate) fn ends_value(&self) -> bool {
        match self.last {
            Some(last) => last == b'"'
                || last == b'}'
                || last == b']'
                || last.is_ascii_alphanumeric(),
            None => false,
        }
    }
}

// The last byte that isn't blank.
fn last_sign(bytes: &[u8]) -> Option<u8> {
    bytes.iter().rev().copied().find(|byte| !is_blank(*byte))
}

/// Why no JSON goes on at this place, as the end of a sentence.
pub(crate) fn reason_at(
    alloc: Global,
    bytes: &[u8],
    place: usize,
) -> Result<&'static str, AllocError> {
    let (front, rest) = parts_at(bytes, place);
    let before = Before::of(alloc, front)?;
    Ok(match rest.first() {
        None if before.last.is_none() => "the document is empty",
        None if before.is_text => "a string is not closed",
        None => "the document ends here and is not complete",
        Some(_) if before.open.len() > MOST_DEPTH => "objects and arrays nest deeper than 127",
        Some(_) if before.open.is_empty() && before.ends_value() => {
            "nothing can follow the value of the document"
        }
        Some(byte) => reason_of(*byte, rest, &before),
    })
}

// What is before a place, and what is at it and after it.
fn parts_at(bytes: &[u8], place: usize) -> (&[u8], &[u8]) {
    if place <= bytes.len() {
        bytes.split_at(place)
    } else {
        (bytes, &[])
    }
}

// The reason, by the byte at the place.
fn reason_of(byte: u8, rest: &[u8], before: &Before) -> &'static str {
    match byte {
        b'"' => string_reason(rest, before),
        b'\'' | b'`' => "strings and names must be in double quotes, not in single quotes",
        b'/' | b'#' => "JSON has no comments",
        b'}' | b']' => bracket_reason(byte, before),
        b',' if before.needs_colon() && before.is_after(b'"') => {
            "a colon and a value are missing after the name"
        }
        b',' if before.needs_colon() => "a member is missing before this comma",
        b',' => "a value is missing before this comma",
        b':' if before.is_in(Bracket::Array) => "only members of an object have a name and a colon",
        b':' => "a name in double quotes is missing before this colon",
        b'{' | b'[' => missing_comma(before),
        b'+' | b'-' | b'.' | b'0'..=b'9' => number_reason(rest, before),
        _ => sign_reason(byte, rest, before),
    }
}

// The reason, where a bracket closes an object or an array.
fn bracket_reason(byte: u8, before: &Before) -> &'static str {
    if before.is_after(b',') {
        "a comma can't come before a closing bracket"
    } else if before.is_after(b':') {
        "a value is missing before this bracket"
    } else if before.is_in(Bracket::Array) {
        "this bracket is not the one that closes the open object or array: an array ends with `]`"
    } else if before.is_in(Bracket::Object) && byte == b']' {
        "this bracket is not the one that closes the open object or array: an object ends with `}`"
    } else if before.needs_colon() {
        "a colon and a value are missing after the name"
    } else {
        "this bracket closes nothing: no object or array is open"
    }
}

// What has to come before a value or a name, and doesn't.
#[derive(Clone, Copy)]
enum Gap {
    Colon,
    Comma,
    None,
}

fn gap_after(before: &Before) -> Gap {
    if before.needs_colon() && before.is_after(b'"') {
        Gap::Colon
    } else if before.ends_value() {
        Gap::Comma
    } else {
        Gap::None
    }
}

fn missing_comma(before: &Before) -> &'static str {
    match gap_after(before) {
        Gap::Colon => "a colon is missing before this",
        Gap::Comma => "a comma is missing before this",
        Gap::None => "a name in double quotes is missing before this",
    }
}

// What is wrong with a text, or before it.
fn string_reason(rest: &[u8], before: &Before) -> &'static str {
    let mut is_escaped = false;
    for byte in rest.iter().skip(1) {
        if is_escaped {
            if !is_escape(*byte) {
                return "in a string, a backslash can only come before one of \" \\ / b f n r t u";
            }
            is_escaped = false;
        } else if *byte == b'\\' {
            is_escaped = true;
        } else if *byte == b'"' {
            return whole_text_reason(before);
        } else if *byte < 32 {
            return "a string can't contain a tab, a line feed or another control character: write it as an escape like \\t or \\n";
        }
    }
    "this string is not closed"
}

fn whole_text_reason(before: &Before) -> &'static str {
    match gap_after(before) {
        Gap::Colon => "a colon is missing before this string",
        Gap::Comma => "a comma is missing before this string",
        Gap::None if before.lacks_value && before.is_after(b',') => {
            "the name before the comma has no colon and no value"
        }
        Gap::None => {
            "an escape \\u in this string needs four hexadecimal digits, and the two halves of a surrogate pair go together"
        }
    }
}

fn is_escape(byte: u8) -> bool {
    matches!(
        byte,
        b'"' | b'\\' | b'/' | b'b' | b'f' | b'n' | b'r' | b't' | b'u'
    )
}

// The reason, where no JSON begins with the byte.
fn sign_reason(byte: u8, rest: &[u8], before: &Before) -> &'static str {
    match byte {
        0 => "this is a NUL byte: save the document as UTF-8",
        1..=31 | 127 => "a control character can't be between values",
        b'=' if before.needs_colon() => "a name and its value are separated by a colon, not by `=`",
        b';' => "members and items are separated by commas, not by `;`",
        b'<' => "this looks like XML, and the document has to be JSON",
        b'(' | b')' => "JSON has no parentheses",
        0xEF if rest.starts_with(&[0xEF, 0xBB, 0xBF]) => {
            "JSON has no byte order mark: save the document without one"
        }
        0xE2 if has_curly_quote(rest.get(..3).unwrap_or(rest)) => {
            "strings and names must be in straight quotes, as `\"`, not in curly ones"
        }
        _ if before.last.is_none() && begins_yaml(rest) => YAML,
        _ => word_reason(rest, before),
    }
}

/// That a document is YAML.
pub(crate) const YAML: &str = "this looks like YAML, and the document has to be JSON";

// Whether a text begins with a word and a colon.
fn begins_yaml(rest: &[u8]) -> bool {
    for byte in rest {
        if *byte == b':' {
            return true;
        }
        if is_blank(*byte) || *byte == b'{' || *byte == b'"' {
            return false;
        }
    }
    false
}

fn word_reason(rest: &[u8], before: &Before) -> &'static str {
    if begins(rest, b"true") || begins(rest, b"false") || begins(rest, b"null") {
        return "true, false and null are written with small letters";
    }
    if begins(rest, b"nan") || begins(rest, b"inf") {
        return "JSON has no such number";
    }
    if begins(rest, b"none") || begins(rest, b"undefined") {
        return "JSON has `null` for this";
    }
    match before.last {
        Some(b'{') | Some(b',') => "a name or a string must be in double quotes",
        _ if before.ends_value() => "a comma is missing before this, or a quote",
        _ => "a string must be in double quotes",
    }
}

// Whether a text begins with a word, in small or capital letters.
fn begins(text: &[u8], word: &[u8]) -> bool {
    match text.get(..word.len()) {
        Some(front) => front.eq_ignore_ascii_case(word),
        None => false,
    }
}
