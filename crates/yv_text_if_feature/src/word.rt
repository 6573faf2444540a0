//! The words of an expression, one by one.
ghost use Rattle.std.specs.{Prelude.{◌≡◌, ◌≤◌, ◌<◌, false, length, slice_index, if◌then◌else◌}, Iterator.{YieldsFirstBy, item_count}};
ghost use Rattle.yv_text_if_feature.specs.{Bytes.{is_blank, is_parenthesis}, InnerWords.{first_len, word_len}, Names.{is_name}, WordTokens.{token_shown, tokens_left}, Tokens.{token_of, tokens, words}};
ghost use Rattle.yv_text_if_feature.specs.Tokens as token;

use crate::name::is_name;

/// A word of an expression.
#[derive(Clone, Copy, PartialEq, Eq, Debug)]
pub enum Word<'a> {
    Open,
    Close,
    Not,
    And,
    Or,
    /// A feature's name, perhaps with a prefix.
    Name(&'a str),
    /// No word of the grammar.
    Wrong,
}

fn read(text: &[u8]) -> Word<'_>
    ensures { token_shown result ≡ token_of text.now }
{
    if text == b"(".as_slice() {
        Word::Open
    } else if text == b")".as_slice() {
        Word::Close
    } else if text == b"not".as_slice() {
        Word::Not
    } else if text == b"and".as_slice() {
        Word::And
    } else if text == b"or".as_slice() {
        Word::Or
    } else {
        read_name(text)
    }
}

fn read_name(text: &[u8]) -> Word<'_>
    ensures { token_shown result ≡ (if is_name text.now then token.Name text.now else token.Wrong) }
{
    if !is_name(text) {
        return Word::Wrong;
    }
    // A name is ASCII.
    match str::from_utf8(text) {
        Ok(name) => Word::Name(name),
        Err(_) => Word::Wrong,
    }
}

/// The words of a text: what is between blanks. Each parenthesis is a word of its own.
#[derive(Clone, Copy)]
pub struct Words<'a> {
    rest: &'a [u8],
}

impl<'a> Words<'a> {
    pub fn new(text: &'a str) -> Words<'a>
        // An iterator over the words of the text; each parenthesis is one word.
        ensures { tokens_left result ≡ tokens text.now }
    {
        Words {
            rest: text.as_bytes(),
        }
    }
}

impl<'a> Iterator for Words<'a> {
    type Item = Word<'a>;

    ghost next_gives = { YieldsFirstBy token_shown tokens_left };

    ghost remaining = { item_count tokens_left };

    fn next(&mut self) -> Option<Word<'a>> {
        let rest = skip_blanks(self.rest);
        if rest.is_empty() {
            self.rest = rest;
            return None;
        }
        let count = first_len(rest);
        let (word, after) = rest.split_at(count);
        self.rest = after;
        Some(read(word))
    }
}

// How many bytes the word at the front of a text has.
fn first_len(text: &[u8]) -> usize
    ensures len { result ≡ first_len text.now }
    ensures bound { result ≤ length text.now }
{
    if text.is_empty() {
        return 0;
    }
    if is_parenthesis(text[0]) {
        1
    } else {
        word_len(text)
    }
}

// How many bytes come before the first blank or parenthesis.
fn word_len(text: &[u8]) -> usize
    ensures len { result ≡ word_len text.now }
    ensures bound { result ≤ length text.now }
{
    let mut count = 0;
    for byte in text {
        if is_blank(*byte) || is_parenthesis(*byte) {
            return count;
        }
        count += 1;
    }
    count
}

// The text after the blanks at its front.
fn skip_blanks(text: &[u8]) -> &[u8]
    ensures words { words result.now ≡ words text.now }
    ensures bound { length result.now ≤ length text.now }
    ensures front { 0 < length result.now → is_blank (slice_index result.now 0) ≡ false }
{
    let mut rest = text;
    while !rest.is_empty() && is_blank(rest[0]) {
        rest = &rest[1..];
    }
    rest
}

// A space, a tab, a CR or an LF.
fn is_blank(byte: u8) -> bool
    ensures { result ≡ is_blank byte }
{
    byte == b' ' || byte == b'\t' || byte == b'\r' || byte == b'\n'
}

fn is_parenthesis(byte: u8) -> bool
    ensures { result ≡ is_parenthesis byte }
{
    byte == b'(' || byte == b')'
}
