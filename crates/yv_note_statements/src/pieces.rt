//! What is said of a refusal, piece by piece.
ghost use Rattle.std.specs.Prelude.{◌≡◌, IsTrue, OnOk, is_err, string_bytes};
ghost use Rattle.yv_note_text.specs.Quotes.{Extends, Quotes};

use crate::sentences::sentence_of;
use crate::site::Site;
use std::alloc::{AllocError, Global};
use yv_base_streams::Input;
use yv_note_text::{excerpt, front, push_code_point, push_quoted, push_shown};
use yv_text_statement::Code;

// A part of what is said. A place is a file's number, and a line or an offset.
#[derive(Drop)]
enum Piece<'w> {
    Text(&'w str),
    Name(&'w str),
    /// Two texts that are shown as one name.
    Joined(&'w str, &'w str, &'w str),
    /// A text of the files without quotes.
    Part(&'w str),
    /// A keyword and a name.
    Statement(&'w str, &'w str),
    Number(u64),
    /// The number of a character in Unicode.
    CodePoint(char),
    Line(u32, u64),
    Excerpt(u32, u64),
}

/// A message on a refusal: pieces, and between them the word that the refusal is about. Pieces
/// are added whether or not there was memory for those before; `outcome` says in the end whether
/// there was for all.
#[derive(Drop)]
pub struct Message<'w> {
    before: Vec<Piece<'w>>,
    after: Vec<Piece<'w>>,
    has_subject: bool,
    outcome: Result<(), AllocError>,
}

impl<'w> Message<'w> {
    ghost use Rattle.yv_note_statements.specs.Messages.{has_failed};

    /// Nothing, so far.
    pub fn new(alloc: Global) -> Message<'w> {
        Message {
            before: Vec::new(alloc),
            after: Vec::new(alloc),
            has_subject: false,
            outcome: Ok(()),
        }
    }

    /// The allocator of the pieces, and of what else the message needs.
    pub fn alloc(&self) -> Global {
        *self.before.allocator()
    }

    fn keep(&mut self, piece: Piece<'w>) -> Result<(), AllocError> {
        if self.has_subject {
            self.after.push(piece)?;
        } else {
            self.before.push(piece)?;
        }
        Ok(())
    }

    fn push(&mut self, piece: Piece<'w>) {
        if let Err(error) = self.keep(piece) {
            self.outcome = Err(error);
        }
    }

    /// Adds words of our own.
    pub fn say(&mut self, text: &'w str) {
        self.push(Piece::Text(text));
    }

    /// Adds a word of the files in quotes, with these words before and after it.
    pub fn quote(&mut self, before: &'w str, name: &'w str, after: &'w str) {
        self.push(Piece::Text(before));
        self.push(Piece::Name(name));
        self.push(Piece::Text(after));
    }

    /// The same of a name with a prefix; without one, if the prefix isn't a text.
    pub fn quote_prefixed(
        &mut self,
        before: &'w str,
        prefix: &'w str,
        name: &'w str,
        after: &'w str,
    ) {
        self.push(Piece::Text(before));
        self.push(if prefix.is_empty() {
            Piece::Name(name)
        } else {
            Piece::Joined(prefix, ":", name)
        });
        self.push(Piece::Text(after));
    }

    /// Adds two texts of the files as one in quotes, with these words before and after it.
    pub fn quote_joined(&mut self, before: &'w str, front: &'w str, rest: &'w str, after: &'w str) {
        self.push(Piece::Text(before));
        self.push(Piece::Joined(front, "", rest));
        self.push(Piece::Text(after));
    }

    /// Adds a text of the files without quotes.
    pub fn part(&mut self, text: &'w str) {
        self.push(Piece::Part(text));
    }

    /// Adds a number, with these words before and after it.
    pub fn count(&mut self, before: &'w str, number: u64, after: &'w str) {
        self.push(Piece::Text(before));
        self.push(Piece::Number(number));
        self.push(Piece::Text(after));
    }

    /// Adds the number of a character in Unicode, with these words before and after it.
    pub fn character(&mut self, before: &'w str, character: char, after: &'w str) {
        self.push(Piece::Text(before));
        self.push(Piece::CodePoint(character));
        self.push(Piece::Text(after));
    }

    /// Adds a file and a line, with these words before and after them.
    pub fn line(&mut self, before: &'w str, file: u32, line: u64, after: &'w str) {
        self.push(Piece::Text(before));
        self.push(Piece::Line(file, line));
        self.push(Piece::Text(after));
    }

    /// Adds the file and the line of a statement, with these words before and after them.
    pub fn point(&mut self, before: &'w str, site: &Site<'_, '_>, after: &'w str) {
        self.line(before, site.entry.file, site.entry.line, after);
    }

    /// Adds the line of a statement with a caret under it, below what was said so far.
    pub fn show(&mut self, site: &Site<'_, '_>) {
        self.push(Piece::Excerpt(site.entry.file, site.entry.offset));
    }

    /// Adds the word that the refusal is about, with these words before and after it.
    pub fn subject(&mut self, before: &'w str, after: &'w str) {
        self.push(Piece::Text(before));
        self.has_subject = true;
        self.push(Piece::Text(after));
    }

    /// Adds the refusal's statement as its keyword and the word that the refusal is about, with
    /// these words after it.
    pub fn subject_statement(&mut self, site: &Site<'_, 'w>, after: &'w str) {
        self.say("The ");
        self.say(site.keyword());
        self.subject(" ", after);
    }

    /// Adds the sentence that fits every refusal of a code, around the word that the refusal is
    /// about.
    pub fn sentence(&mut self, code: Code) {
        let sentence = sentence_of(code);
        self.subject(sentence.before, sentence.after);
    }

    /// Adds a statement as its keyword and its name, with these words before and after it.
    pub fn statement(&mut self, before: &'w str, site: &Site<'_, 'w>, after: &'w str) {
        self.head(before, site.keyword(), site.entry.argument, after);
    }

    /// The same with the file and the line of the statement after its name.
    pub fn statement_at(&mut self, before: &'w str, site: &Site<'_, 'w>, after: &'w str) {
        self.statement(before, site, " at ");
        self.point("", site, after);
    }

    /// Adds a keyword and an argument, if there is one, with these words before and after them.
    pub fn head(
        &mut self,
        before: &'w str,
        keyword: &'w str,
        argument: Option<&'w str>,
        after: &'w str,
    ) {
        self.push(Piece::Text(before));
        self.push(match argument {
            Some(argument) => Piece::Statement(keyword, argument),
            None => Piece::Name(keyword),
        });
        self.push(Piece::Text(after));
    }

    /// Whether nothing was said.
    pub fn is_empty(&self) -> bool {
        self.before.is_empty() && !self.has_subject
    }

    /// Keeps that there was no memory for a part.
    pub fn fail(&mut self, error: AllocError)
        // The message has failed.
        ensures { IsTrue (has_failed self.new) }
    {
        self.outcome = Err(error);
    }

    /// Whether there was memory for all that was said.
    pub fn outcome(&self) -> Result<(), AllocError>
        // It is an error if the message has failed.
        ensures { is_err result ≡ has_failed self.now }
    {
        self.outcome
    }
}

// Adds a piece.
fn push_piece(text: &mut String, inputs: &[Input], piece: &Piece<'_>) -> Result<(), AllocError>
    ensures { OnOk result (Extends (string_bytes text.old) (string_bytes text.new)) }
{
    match piece {
        Piece::Text(words) => text.push_str(words),
        Piece::Name(name) => push_quoted(text, name),
        Piece::Joined(one, mark, rest) => push_joined(text, one, mark, rest),
        Piece::Part(part) => push_shown(text, front(part.as_bytes())),
        Piece::Statement(keyword, name) => push_statement(text, keyword, name),
        Piece::Number(number) => push_number(text, *number),
        Piece::CodePoint(character) => push_code_point(text, *character),
        Piece::Line(file, line) => push_line(text, inputs, *file, *line),
        Piece::Excerpt(file, offset) => push_excerpt(text, inputs, *file, *offset),
    }
}

// Adds two texts with a mark between them, in quotes.
fn push_joined(text: &mut String, one: &str, mark: &str, rest: &str) -> Result<(), AllocError>
    ensures { OnOk result (Extends (string_bytes text.old) (string_bytes text.new)) }
{
    text.push_str("\"")?;
    push_shown(text, front(one.as_bytes()))?;
    text.push_str(mark)?;
    push_shown(text, front(rest.as_bytes()))?;
    text.push_str("\"")
}

// Adds a keyword and a name in quotes.
fn push_statement(text: &mut String, keyword: &str, name: &str) -> Result<(), AllocError>
    ensures { OnOk result (Extends (string_bytes text.old) (string_bytes text.new)) }
{
    push_shown(text, front(keyword.as_bytes()))?;
    text.push_str(" ")?;
    push_quoted(text, name)
}

// Adds a number with a comma before each three digits.
fn push_number(text: &mut String, number: u64) -> Result<(), AllocError>
    ensures { OnOk result (Extends (string_bytes text.old) (string_bytes text.new)) }
{
    let digits = format!(in *text.allocator(); "{number}")?;
    let count = digits.len();
    for (place, digit) in digits.chars().enumerate() {
        let left = count.saturating_sub(place);
        if place > 0 && left % 3 == 0 {
            text.push(',')?;
        }
        text.push(digit)?;
    }
    Ok(())
}

// Adds the name of a file and a line of it.
fn push_line(text: &mut String, inputs: &[Input], file: u32, line: u64) -> Result<(), AllocError>
    ensures { OnOk result (Extends (string_bytes text.old) (string_bytes text.new)) }
{
    if let Some(input) = inputs.get(file as usize) {
        push_shown(text, input.name.as_bytes())?;
    }
    let place = format!(in *text.allocator(); ":{line}")?;
    text.push_str(place.as_str())
}

// Adds a line of a file with a caret under this offset.
fn push_excerpt(
    text: &mut String,
    inputs: &[Input],
    file: u32,
    offset: u64,
) -> Result<(), AllocError>
    ensures { OnOk result (Extends (string_bytes text.old) (string_bytes text.new)) }
{
    let alloc = *text.allocator();
    let Some(input) = inputs.get(file as usize) else {
        return Ok(());
    };
    text.push_str("\n")?;
    let place = usize::try_from(offset).unwrap_or(0);
    let shown = excerpt(alloc, &input.bytes, place.min(input.bytes.len()))?;
    text.push_str(shown.trim_end())
}

fn push_pieces(text: &mut String, inputs: &[Input], pieces: &[Piece<'_>]) -> Result<(), AllocError>
    ensures { OnOk result (Extends (string_bytes text.old) (string_bytes text.new)) }
{
    for piece in pieces {
        push_piece(text, inputs, piece)?;
    }
    Ok(())
}

/// Adds what is said of a refusal that is about a word.
pub fn push_around(
    text: &mut String,
    inputs: &[Input],
    telling: &Message<'_>,
    word: &str,
) -> Result<(), AllocError>
    // The text is extended, and quotes the word.
    ensures grows { OnOk result (Extends (string_bytes text.old) (string_bytes text.new)) }
    // It quotes the word.
    ensures names { OnOk result (Quotes word.now (string_bytes text.new)) }
{
    push_pieces(text, inputs, &telling.before)?;
    push_quoted(text, word)?;
    push_pieces(text, inputs, &telling.after)?;
    Ok(())
}

/// Adds what is said of a refusal that is about no word.
pub fn push_plain(
    text: &mut String,
    inputs: &[Input],
    telling: &Message<'_>,
) -> Result<(), AllocError>
    ensures { OnOk result (Extends (string_bytes text.old) (string_bytes text.new)) }
{
    push_pieces(text, inputs, &telling.before)?;
    push_pieces(text, inputs, &telling.after)?;
    Ok(())
}
