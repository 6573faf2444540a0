//! The statements of a file up to a place, whether or not the file can be read whole.
use std::alloc::{AllocError, Global};
use yv_note_text::{is_blank, quoted_size};

#[derive(Clone, Copy, PartialEq, Eq)]
pub(crate) enum Kind {
    /// Blanks, or a comment.
    Gap,
    Word,
    Quoted,
    Semicolon,
    Open,
    Close,
    Plus,
}

/// A token, or what is between two of them.
#[derive(Clone, Copy)]
pub(crate) struct Token<'a> {
    pub(crate) kind: Kind,
    pub(crate) bytes: &'a [u8],
    pub(crate) line: u64,
    /// Where its last line is in the file.
    pub(crate) last_line: u64,
}

/// A statement of which at least the keyword was read.
#[derive(Clone, Copy)]
pub(crate) struct Head<'a> {
    pub(crate) keyword: &'a [u8],
    pub(crate) argument: Option<&'a [u8]>,
    pub(crate) line: u64,
    /// How many bytes are before it in its line, if these are blanks.
    indent: Option<usize>,
}

/// A brace that closes a block and is indented differently from the statement of the block.
#[derive(Clone, Copy)]
pub(crate) struct Odd<'a> {
    pub(crate) line: u64,
    pub(crate) head: Head<'a>,
}

/// What was read up to a place.
#[derive(Drop)]
pub(crate) struct Outline<'a> {
    /// The statements whose blocks are open, the innermost last.
    pub(crate) open: Vec<Head<'a>>,
    /// The statement that is neither ended nor has its block.
    pub(crate) unfinished: Option<Head<'a>>,
    /// The last token.
    pub(crate) last: Option<Token<'a>>,
    /// The statement that was ended last.
    pub(crate) ended: Option<Head<'a>>,
    pub(crate) odd: Option<Odd<'a>>,
    is_adjacent: bool,
    line: u64,
    /// How many blanks were read since the start of the line, if nothing else was.
    indent: Option<usize>,
}

impl<'a> Outline<'a> {
    /// What the tokens of these bytes show. Takes time linear in the bytes.
    pub(crate) fn read(alloc: Global, bytes: &'a [u8]) -> Result<Outline<'a>, AllocError> {
        let mut outline = Outline {
            open: Vec::new(alloc),
            unfinished: None,
            last: None,
            ended: None,
            odd: None,
            is_adjacent: false,
            line: 1,
            indent: Some(0),
        };
        let mut rest = after_mark(bytes);
        for _ in 0..bytes.len() {
            if rest.is_empty() {
                break;
            }
            let (kind, length) = outline.next(rest);
            let (piece, after) = rest.split_at(length.min(rest.len()));
            outline.take(kind, piece)?;
            rest = after;
        }
        Ok(outline)
    }

    /// Whether the outermost statement is ended.
    pub(crate) fn is_over(&self) -> bool {
        self.open.is_empty() && self.unfinished.is_none() && self.ended.is_some()
    }

    // What is next, and how many bytes it has.
    fn next(&self, rest: &[u8]) -> (Kind, usize) {
        match rest {
            [b' ' | b'\t' | b'\r' | b'\n', ..] => (Kind::Gap, blanks(rest)),
            [b'/', b'/', ..] => (Kind::Gap, up_to(rest, b'\n')),
            [b'/', b'*', after @ ..] => (Kind::Gap, comment(after).saturating_add(2)),
            [b'"', after @ ..] => (
                Kind::Quoted,
                quoted_size(after).unwrap_or(after.len()).saturating_add(1),
            ),
            [b'\'', after @ ..] => (Kind::Quoted, up_to(after, b'\'').saturating_add(2)),
            [b';', ..] => (Kind::Semicolon, 1),
            [b'{', ..] => (Kind::Open, 1),
            [b'}', ..] => (Kind::Close, 1),
            [b'+', ..] if self.is_after(Kind::Quoted) => (Kind::Plus, 1),
            _ => (Kind::Word, word(rest)),
        }
    }

    /// The line of the place up to which was read.
    pub(crate) fn line(&self) -> u64 {
        self.line
    }

    /// Whether a token ends at that place.
    pub(crate) fn is_adjacent(&self) -> bool {
        self.is_adjacent
    }

    /// Whether the last token is of this kind.
    pub(crate) fn is_after(&self, kind: Kind) -> bool {
        match &self.last {
            Some(token) => token.kind == kind,
            None => false,
        }
    }

    // Takes what is next.
    fn take(&mut self, kind: Kind, bytes: &'a [u8]) -> Result<(), AllocError> {
        let line = self.line;
        match kind {
            Kind::Word | Kind::Quoted => self.give(kind, bytes),
            Kind::Open => self.begin()?,
            Kind::Semicolon => self.ended = self.unfinished.take(),
            Kind::Close => self.close(),
            Kind::Gap | Kind::Plus => {}
        }
        self.advance(kind, bytes);
        self.is_adjacent = kind != Kind::Gap;
        if kind != Kind::Gap {
            self.last = Some(Token {
                kind,
                bytes,
                line,
                last_line: self.line,
            });
        }
        Ok(())
    }

    // Takes a keyword or an argument.
    fn give(&mut self, kind: Kind, bytes: &'a [u8]) {
        let argument = if kind == Kind::Quoted {
            inner(bytes)
        } else {
            bytes
        };
        match &mut self.unfinished {
            Some(
                Head {
                    argument: Some(_),
                    ..
                },
            ) => {}
            Some(head) => head.argument = Some(argument),
            None => {
                self.unfinished = Some(Head {
                    keyword: bytes,
                    argument: None,
                    line: self.line,
                    indent: self.indent,
                });
            }
        }
    }

    // Opens the block of a statement.
    fn begin(&mut self) -> Result<(), AllocError> {
        if let Some(head) = self.unfinished.take() {
            self.open.push(head)?;
        }
        Ok(())
    }

    // Closes the innermost block.
    fn close(&mut self) {
        self.ended = self.open.pop();
        match (self.ended, self.odd) {
            (Some(head), None) if is_other(self.indent, head.indent) => {
                self.odd = Some(Odd {
                    line: self.line,
                    head,
                });
            }
            _ => {}
        }
    }

    // Counts the lines of what was read. Only gaps and quoted texts can have several.
    fn advance(&mut self, kind: Kind, bytes: &[u8]) {
        let is_gap = kind == Kind::Gap;
        if !is_gap && kind != Kind::Quoted {
            self.indent = None;
            return;
        }
        let (feeds, last) = last_line(bytes);
        let before = if feeds > 0 { Some(0) } else { self.indent };
        self.line = self.line.saturating_add(feeds as u64);
        self.indent = match before {
            Some(count) if last.is_empty() || (is_gap && are_blanks(last)) => {
                Some(count.saturating_add(last.len()))
            }
            _ => None,
        };
    }
}

// How many line feeds a text has, and what is after the last one.
fn last_line(bytes: &[u8]) -> (usize, &[u8]) {
    let feeds = bytes.iter().filter(|byte| **byte == b'\n').count();
    let last = match bytes.iter().rposition(|byte| *byte == b'\n') {
        Some(place) => bytes.get(place.saturating_add(1)..).unwrap_or(&[]),
        None => bytes,
    };
    (feeds, last)
}

// Whether a text only has blanks and tabs.
fn are_blanks(bytes: &[u8]) -> bool {
    bytes.iter().all(|byte| *byte == b' ' || *byte == b'\t')
}

/// A text without a mark of the order of bytes.
pub(crate) fn after_mark(bytes: &[u8]) -> &[u8] {
    match bytes {
        [0xEF, 0xBB, 0xBF, rest @ ..] => rest,
        _ => bytes,
    }
}

// Whether two lines are surely indented differently.
fn is_other(one: Option<usize>, other: Option<usize>) -> bool {
    match (one, other) {
        (Some(one), Some(other)) => one != other,
        _ => false,
    }
}

// What is between the first and the last byte.
fn inner(bytes: &[u8]) -> &[u8] {
    match bytes {
        [_, inner @ .., _] => inner,
        _ => bytes,
    }
}

// How many blanks a text begins with.
fn blanks(bytes: &[u8]) -> usize {
    for (count, byte) in bytes.iter().enumerate() {
        if !is_blank(*byte) {
            return count;
        }
    }
    bytes.len()
}

// How many bytes are before the first that is this one.
fn up_to(bytes: &[u8], sought: u8) -> usize {
    for (count, byte) in bytes.iter().enumerate() {
        if *byte == sought {
            return count;
        }
    }
    bytes.len()
}

// How many bytes a comment has after its first two.
fn comment(bytes: &[u8]) -> usize {
    let mut is_star = false;
    for (count, byte) in bytes.iter().enumerate() {
        if is_star && *byte == b'/' {
            return count.saturating_add(1);
        }
        is_star = *byte == b'*';
    }
    bytes.len()
}

/// How many bytes an unquoted text has: one at least, and no more than to a comment.
pub(crate) fn word(bytes: &[u8]) -> usize {
    let mut is_slash = false;
    for (count, byte) in bytes.iter().enumerate() {
        if is_slash && matches!(*byte, b'/' | b'*') {
            return count.saturating_sub(1).max(1);
        }
        if count > 0 && ends_word(*byte) {
            return count;
        }
        is_slash = *byte == b'/';
    }
    bytes.len()
}

/// Whether an unquoted text ends before a byte.
pub(crate) fn ends_word(byte: u8) -> bool {
    is_blank(byte) || matches!(byte, b'"' | b'\'' | b';' | b'{' | b'}')
}
