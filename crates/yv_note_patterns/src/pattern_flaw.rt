//! What in a pattern is outside the dialect of regular expressions, and at which character.
use crate::pattern_class::{Sign, character_size, class_end, item_size};
use std::alloc::{AllocError, Global};

/// What is wrong in a pattern: how many bytes are before it, how many it has, and what is said of
/// it.
#[derive(Clone, Copy)]
pub(crate) struct Flaw {
    pub(crate) start: usize,
    pub(crate) size: usize,
    pub(crate) advice: &'static str,
}

impl Flaw {
    pub(crate) fn new(start: usize, size: usize, advice: &'static str) -> Flaw {
        Flaw {
            start,
            size,
            advice,
        }
    }

    /// The same in a text in which so many more bytes are before it.
    pub(crate) fn after(self, count: usize) -> Flaw {
        Flaw::new(self.start.saturating_add(count), self.size, self.advice)
    }
}

// What was read last outside of classes.
#[derive(Clone, Copy, PartialEq, Eq)]
enum Last {
    /// Nothing that can be repeated: the start of a pattern, of a group or of a branch.
    Start,
    Atom,
    Quantifier,
}

#[derive(Clone, Copy, PartialEq, Eq)]
enum Kind {
    Atom,
    Quantifier,
    Opening,
    Closing,
    Bar,
    /// The bracket that opens a class.
    Class,
}

// A part of a pattern, and how many bytes it has. A character of several bytes is so many atoms.
#[derive(Clone, Copy)]
struct Part {
    kind: Kind,
    size: usize,
}

/// How deep groups nest at most.
const MOST_OPEN: usize = 64;

// How far a pattern was read: the last part, where the groups that are open begin, and where the
// open class begins.
#[derive(Drop)]
struct Reader {
    last: Last,
    groups: Vec<usize>,
    class: Option<usize>,
    is_first: bool,
}

impl Reader {
    // The size of what is next, or what is wrong with it.
    fn read(&mut self, rest: &[u8], at: usize) -> Result<Result<usize, Flaw>, AllocError> {
        if self.class.is_some() {
            return Ok(self.read_item(rest));
        }
        match part_at(rest) {
            Ok(part) => self.read_part(part, at),
            Err(flaw) => Ok(Err(flaw)),
        }
    }

    // The same in a class.
    fn read_item(&mut self, rest: &[u8]) -> Result<usize, Flaw> {
        let is_first = self.is_first;
        self.is_first = false;
        if class_end(rest) {
            if is_first {
                return Err(Flaw::new(0, 1, EMPTY_CLASS));
            }
            self.class = None;
            self.last = Last::Atom;
            return Ok(1);
        }
        item_size(is_first, rest)
    }

    // The same outside of classes.
    fn read_part(&mut self, part: Part, at: usize) -> Result<Result<usize, Flaw>, AllocError> {
        match part.kind {
            Kind::Opening if self.groups.len() >= MOST_OPEN => {
                return Ok(Err(Flaw::new(0, 1, " Groups nest at most 64 deep.")));
            }
            Kind::Opening => self.groups.push(at)?,
            Kind::Closing if self.groups.pop().is_none() => {
                return Ok(Err(Flaw::new(0, 1, CLOSES_NOTHING)));
            }
            Kind::Quantifier if self.last == Last::Start => {
                return Ok(Err(Flaw::new(0, part.size, NOTHING_TO_REPEAT)));
            }
            Kind::Quantifier if self.last == Last::Quantifier => {
                return Ok(Err(Flaw::new(0, part.size, SECOND_QUANTIFIER)));
            }
            Kind::Class => {
                self.class = Some(at);
                self.is_first = true;
            }
            _ => {}
        }
        self.last = last_after(part.kind);
        Ok(Ok(part.size))
    }

    // What is wrong if the pattern ends here.
    fn flaw_at_end(&self) -> Option<Flaw> {
        match (self.class, self.groups.last()) {
            (Some(start), _) => Some(Flaw::new(start, 1, OPEN_CLASS)),
            (None, Some(start)) => Some(Flaw::new(*start, 1, OPEN_GROUP)),
            _ => None,
        }
    }
}

const EMPTY_CLASS: &str = " A class has at least one item; write `\\]` for the character.";

const CLOSES_NOTHING: &str = " This `)` closes nothing; write `\\)` for the character.";

const NOTHING_TO_REPEAT: &str =
    " There is nothing before it to repeat; write a backslash before it for the character.";

const SECOND_QUANTIFIER: &str =
    " A piece has one quantifier: leave this one out, as lazy ones make no difference here.";

const OPEN_CLASS: &str = " This `[` is not closed; write `\\[` for the character.";

const OPEN_GROUP: &str = " This `(` is not closed; write `\\(` for the character.";

fn last_after(kind: Kind) -> Last {
    match kind {
        Kind::Atom | Kind::Closing => Last::Atom,
        Kind::Quantifier => Last::Quantifier,
        Kind::Opening | Kind::Bar | Kind::Class => Last::Start,
    }
}

fn new_part(kind: Kind, size: usize) -> Result<Part, Flaw> {
    Ok(Part { kind, size })
}

// The part at the front of a text that isn't in a class.
fn part_at(rest: &[u8]) -> Result<Part, Flaw> {
    match rest {
        [b'\\', after @ ..] => new_part(Kind::Atom, escape_size(after)?),
        [b'(', b'?', ..] => Err(Flaw::new(
            0,
            2,
            " Groups have no options here: write a plain `(`.",
        )),
        [b'(', ..] => new_part(Kind::Opening, 1),
        [b')', ..] => new_part(Kind::Closing, 1),
        [b'|', ..] => new_part(Kind::Bar, 1),
        [b'*' | b'+' | b'?', ..] => new_part(Kind::Quantifier, 1),
        [b'{', after @ ..] => new_part(Kind::Quantifier, count_size(after)?),
        [b'[', b'^', ..] => new_part(Kind::Class, 2),
        [b'[', ..] => new_part(Kind::Class, 1),
        [b'}', ..] => Err(Flaw::new(0, 1, " Write `\\}` for the character.")),
        [b']', ..] => Err(Flaw::new(0, 1, " Write `\\]` for the character.")),
        _ => new_part(Kind::Atom, 1),
    }
}

// How many bytes an escape has, by those after its backslash.
fn escape_size(after: &[u8]) -> Result<usize, Flaw> {
    match after {
        [b'd' | b'D' | b's' | b'S' | b'w' | b'W', ..] => Ok(2),
        [b'p' | b'P', name @ ..] => category_size(name),
        _ => match Sign::of_escape(after) {
            Some(_) => Ok(2),
            None => Err(escape_flaw(after)),
        },
    }
}

/// What is wrong with an escape that doesn't exist, by what is after its backslash.
pub(crate) fn escape_flaw(after: &[u8]) -> Flaw {
    match after.first() {
        Some(letter) => {
            let size = character_size(*letter).saturating_add(1);
            Flaw::new(0, size, escape_advice(*letter))
        }
        None => Flaw::new(0, 1, " Write the backslash twice for the character."),
    }
}

fn escape_advice(letter: u8) -> &'static str {
    match letter {
        b'b' | b'B' => " There are no word boundaries; a pattern matches the whole value anyway.",
        b'A' | b'z' | b'Z' => " There are no anchors; a pattern matches the whole value anyway.",
        b'i' => " Write `[\\p{L}_:]` for it.",
        b'c' => " Write `[\\p{L}\\p{Nd}._:\\-]` for it.",
        b'I' | b'C' => " Write a class with `[^` for it.",
        b'x' | b'u' | b'U' | b'f' | b'v' | b'a' | b'e' | b'0' => " Write the character itself.",
        b'1' | b'2' | b'3' | b'4' | b'5' | b'6' | b'7' | b'8' | b'9' => {
            " There are no references to groups."
        }
        b'h' | b'H' | b'N' | b'R' | b'X' | b'V' => " Write a class for it.",
        _ =>
            " There is no such escape: leave the backslash out, or write it twice for the character.",
    }
}

/// How many bytes a category has with its backslash, by what is after `\p`.
pub(crate) fn category_size(after: &[u8]) -> Result<usize, Flaw> {
    let [b'{', name @ ..] = after else {
        return Err(Flaw::new(0, 2, " A category is in braces, as in `\\p{L}`."));
    };
    let Some(length) = name.iter().position(|byte| *byte == b'}') else {
        return Err(Flaw::new(0, 3, " A category ends with `}`."));
    };
    let size = length.saturating_add(4);
    match name {
        [b'I', b's' | b'n', ..] => Err(Flaw::new(0, size, BLOCK)),
        [first, b'}', ..] if has_seconds(*first) => Ok(size),
        [first, second, b'}', ..] if is_second(*first, *second) => Ok(size),
        _ => Err(Flaw::new(0, size, CATEGORY)),
    }
}

const BLOCK: &str = " Blocks are not supported; write a range of characters, such as `[ -~]`.";

const CATEGORY: &str =
    " There is no such category: the names are those of Unicode with one or two letters, such as `L` and `Nd`.";

// Whether categories begin with a letter.
fn has_seconds(first: u8) -> bool {
    !seconds_of(first).is_empty()
}

// Whether there is a category of these two letters.
fn is_second(first: u8, second: u8) -> bool {
    seconds_of(first).as_bytes().contains(&second)
}

// The second letters of categories with this first one.
fn seconds_of(first: u8) -> &'static str {
    match first {
        b'L' => "ultmo",
        b'M' => "nce",
        b'N' => "dlo",
        b'P' => "cdseifo",
        b'Z' => "slp",
        b'S' => "mcko",
        b'C' => "cfon",
        _ => "",
    }
}

// How many bytes a count has with its braces, by those after the first.
fn count_size(after: &[u8]) -> Result<usize, Flaw> {
    let Some(length) = after.iter().position(|byte| *byte == b'}') else {
        return Err(Flaw::new(
            0,
            1,
            " This `{` is not closed; write `\\{` for the character.",
        ));
    };
    let size = length.saturating_add(2);
    let inner = after.get(..length).unwrap_or(&[]);
    match count_advice(inner) {
        Some(advice) => Err(Flaw::new(0, size, advice)),
        None => Ok(size),
    }
}

// What is wrong with what is in the braces of a count.
fn count_advice(inner: &[u8]) -> Option<&'static str> {
    let comma = inner.iter().position(|byte| *byte == b',');
    let length = comma.unwrap_or(inner.len());
    let low = inner.get(..length).unwrap_or(&[]);
    let high = inner.get(length.saturating_add(1)..).unwrap_or(&[]);
    if low.is_empty() && comma.is_some() {
        return Some(" A count begins with its least number: write `{0,`.");
    }
    let Some(least) = number_of(low) else {
        return Some(NO_COUNT);
    };
    if high.is_empty() {
        return too_many(least);
    }
    match number_of(high) {
        None => Some(NO_COUNT),
        Some(most) if least > most => Some(
            " The first number of a count can't be above the second.",
        ),
        Some(most) => too_many(most),
    }
}

const NO_COUNT: &str =
    " A count is a number, or two with a comma between; write `\\{` for the character.";

/// The highest count.
const MOST_TIMES: u32 = 1000;

fn too_many(number: u32) -> Option<&'static str> {
    if number > MOST_TIMES {
        Some(" A count is at most 1,000.")
    } else {
        None
    }
}

// The number that digits write, or a higher one than 1,000. None if there are none, or other
// characters.
fn number_of(text: &[u8]) -> Option<u32> {
    if text.is_empty() {
        return None;
    }
    let mut number: u32 = 0;
    for byte in text {
        let digit = char::from(*byte).to_digit(10)?;
        number = number
            .saturating_mul(10)
            .saturating_add(digit)
            .min(MOST_TIMES.saturating_add(1));
    }
    Some(number)
}

/// In so many bytes of a pattern its flaw is looked for. A pattern may have millions of bytes, and
/// to read each once more takes longer than a note may.
pub(crate) const MOST_READ: usize = 65_536;

/// The first flaw of a pattern, if it begins in the bytes that are read.
pub(crate) fn flaw_of(alloc: Global, text: &str) -> Result<Option<Flaw>, AllocError> {
    let bytes = text.as_bytes();
    let mut reader = Reader {
        last: Last::Start,
        groups: Vec::new(alloc),
        class: None,
        is_first: false,
    };
    let mut at: usize = 0;
    for _ in 0..bytes.len() {
        let rest = bytes.get(at..).unwrap_or(&[]);
        if rest.is_empty() {
            break;
        }
        if at > MOST_READ {
            return Ok(None);
        }
        match reader.read(rest, at)? {
            Ok(size) => at = at.saturating_add(size),
            Err(flaw) => return Ok(Some(flaw.after(at))),
        }
    }
    Ok(reader.flaw_at_end())
}
