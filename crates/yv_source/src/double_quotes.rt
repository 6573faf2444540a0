//! What a double-quoted text says, written in one pass: blanks that may come before a line break
//! wait until it is known whether they do. Runs in which nothing is stripped or escaped are written
//! at once.

ghost use Rattle.std.specs.{Prelude.{◌≡◌, ◌≤◌, ◌<◌, ◌^◌, ◌+◌, ◌-◌, OnOk, IfOk, IfSome, IsTrue, IsCharBoundary, take, length, slice_index, string_bytes, true, false, []}, Cow.{cow_str_bytes}, Char.{encode_utf8}, List.{list_all}, Str.{chars}};
ghost use Rattle.yv_source.specs.{Escapes.{all_pairs_good}, Quotes.{is_gap, quoted_value, strip}, Legal.{most_bytes}, Place.{column_of}, Inner.Plain.{is_plain, is_no_feed}, Inner.Writer.{put_character, flush, keep, keep_plain, keep_spaces, settle, take_in, trail, all_of, fresh, with_left, is_in_run, ends_well, is_at_rest, with_run, Runs, TakesEach, BeginsEscape}};

use crate::place::column_after;
use crate::source::front_of;
use memchr::{memchr, memchr2, memchr3};
use std::alloc::{AllocError, Global};
use std::borrow::CowStr;
use std::marker::Model;

/// What was written of a text so far.
#[derive(Drop)]
struct Writer {
    out: String,
    /// Spaces and tabs that a line break may follow.
    gap: String,
    /// A CR that may belong to one.
    cr: bool,
    /// The character before is a backslash that begins an escape.
    escaped: bool,
    /// How many columns of the line are still stripped.
    left: usize,
}

impl Model for Writer {
    ghost use Rattle.std.specs.Prelude.{string_bytes};
    ghost use Rattle.yv_source.specs.Inner.Writer.{WriterState};

    ghost Value = { WriterState };

    ghost view = { λ w. record { out = string_bytes w.out; gap = string_bytes w.gap; cr = w.cr; escaped = w.escaped; left = w.left } };
}

/// What a double-quoted text says whose quote comes after this text: the text itself, where
/// stripping and escapes leave it as it is.
pub(crate) fn read_quoted<'a>(
    alloc: Global,
    text: &'a str,
    front: &[u8],
) -> Result<CowStr<'a>, AllocError>
    requires { length front.now ≤ most_bytes }
    ensures { IfOk result (λ said. cow_str_bytes said
        ≡ quoted_value (column_of front.now) text.now) }
{
    if is_plain_text(text) {
        return Ok(CowStr::Borrowed(text));
    }
    let mut said = write_quoted(alloc, text, column_for(text, front))?;
    if said.as_str() == text {
        Ok(CowStr::Borrowed(text))
    } else {
        said.shrink_to_fit();
        Ok(CowStr::Owned(said))
    }
}

// How many columns are stripped of the lines of a text that comes after this front, but for the
// first; if it has one line only, any number will do. So the columns of a line are counted once at
// most, however many texts it has.
fn column_for(text: &str, front: &[u8]) -> usize
    requires { length front.now ≤ most_bytes }
    ensures strips { strip result text.now ≡ strip (column_of front.now) text.now }
    ensures bound { result < 2 ^ 40 }
{
    if is_one_line(text) {
        return 0;
    }
    column_after(front)
}

// Whether no character ends a line.
fn is_one_line(text: &str) -> bool
    ensures { IsTrue result → IsTrue (list_all is_no_feed (chars text.now)) }
{
    memchr(b'\n', text.as_bytes()).is_none()
}

// Whether no character ends a line or begins an escape.
fn is_plain_text(text: &str) -> bool
    ensures { IsTrue result → IsTrue (list_all is_plain (chars text.now)) }
{
    memchr2(b'\n', b'\\', text.as_bytes()).is_none()
}

// What a double-quoted text says, in a text of its own.
fn write_quoted(alloc: Global, text: &str, column: usize) -> Result<String, AllocError>
    requires { column < 2 ^ 40 }
    ensures says { IfOk result (λ said. string_bytes said ≡ quoted_value column text.now) }
    // What is stripped makes no backslash pair good or bad.
    ensures pairs { all_pairs_good false (strip column text.now) ≡ all_pairs_good false text.now }
{
    let mut writer = Writer::new(alloc);
    let indent = column + 1;
    let mut at = 0;
    loop {
        at += writer.take_escapes(&text[at..])?;
        at += writer.take_run(&text[at..])?;
        let Some(c) = front_of(&text[at..]) else {
            writer.trail()?;
            return writer.end();
        };
        writer.take_in(indent, c)?;
        at += c.len_utf8();
    }
}

// How many bytes at the front of a text neither end a line nor begin an escape, the last of them
// being no blank that a line break may follow.
fn run_len(bytes: &[u8]) -> usize
    ensures inside { IsTrue (list_all is_in_run (take result bytes.now)) }
    ensures well { IsTrue (ends_well (take result bytes.now)) }
    ensures boundary { IsCharBoundary bytes.now result }
{
    len_before_gap(bytes, run_end(bytes))
}

// How many bytes there are before the first that ends a line or begins an escape.
fn run_end(bytes: &[u8]) -> usize
    ensures within { result ≤ length bytes.now }
    ensures inside { IsTrue (list_all is_in_run (take result bytes.now)) }
    ensures ascii { result < length bytes.now → slice_index bytes.now result < 128 }
{
    memchr3(b'\n', b'\r', b'\\', bytes).unwrap_or(bytes.len())
}

// How many bytes there are before the spaces and tabs at a place.
fn len_before_gap(bytes: &[u8], end: usize) -> usize
    requires end { end ≤ length bytes.now }
    ensures within { result ≤ end }
    ensures well { IsTrue (ends_well (take result bytes.now)) }
    ensures gap { result < end → slice_index bytes.now result < 128 }
{
    let mut len = end;
    while len > 0 {
        if !is_gap(bytes[len - 1]) {
            return len;
        }
        len -= 1;
    }
    0
}

// The character that an escape says with which a text begins.
fn front_escape(bytes: &[u8]) -> Option<char>
    ensures { IfSome result (BeginsEscape bytes.now) }
{
    match bytes {
        [b'\\', b'n', ..] => Some('\n'),
        [b'\\', b't', ..] => Some('\t'),
        [b'\\', b'"', ..] => Some('"'),
        [b'\\', b'\\', ..] => Some('\\'),
        _ => None,
    }
}

fn is_gap(byte: u8) -> bool
    ensures { result ≡ is_gap byte }
{
    byte == b' ' || byte == b'\t'
}

impl Writer {
    fn new(alloc: Global) -> Writer
        ensures { result ≡ fresh }
    {
        Writer {
            out: String::new(alloc),
            gap: String::new(alloc),
            cr: false,
            escaped: false,
            left: 0,
        }
    }

    // Takes the front of a text that is kept as it is, and gives the number of its bytes. It's none
    // where an earlier character waits, or where the start of a line is stripped.
    fn take_run(&mut self, text: &str) -> Result<usize, AllocError>
        ensures run { IfOk result (λ len. Runs self.old (take len text.now) self.new) }
        ensures boundary { IfOk result (IsCharBoundary text.now) }
    {
        if !self.is_at_rest() {
            return Ok(0);
        }
        let len = run_len(text.as_bytes());
        self.out.push_str(&text[..len])?;
        Ok(len)
    }

    // Takes the escapes that a text begins with, and gives the number of their bytes. It takes none
    // where an earlier character waits, or where the start of a line is stripped.
    fn take_escapes(&mut self, text: &str) -> Result<usize, AllocError>
        ensures takes { IfOk result (λ len. TakesEach self.old (take len text.now) self.new) }
        ensures within { IfOk result (λ len. len ≤ length text.now) }
    {
        if !self.is_at_rest() {
            return Ok(0);
        }
        let bytes = text.as_bytes();
        let mut len = 0;
        while let Some(c) = front_escape(&bytes[len..]) {
            self.write(c)?;
            len += 2;
        }
        Ok(len)
    }

    // Writes a character as it is.
    fn write(&mut self, c: char) -> Result<(), AllocError>
        ensures { OnOk result (self.new ≡ with_run (encode_utf8 c) self.old) }
    {
        self.out.push(c)
    }

    fn is_at_rest(&self) -> bool
        ensures { result ≡ is_at_rest self.now }
    {
        self.left == 0 && self.gap.is_empty() && !self.cr && !self.escaped
    }

    // Takes a character.
    fn take_in(&mut self, indent: usize, c: char) -> Result<(), AllocError>
        ensures { OnOk result (self.new ≡ take_in indent c self.old) }
    {
        match c {
            '\n' => {
                self.keep(c)?;
                self.left = indent;
                Ok(())
            }
            _ if self.left == 0 => self.keep(c),
            ' ' => {
                self.left -= 1;
                Ok(())
            }
            '\t' => self.take_tab(),
            _ => {
                self.left = 0;
                self.keep(c)
            }
        }
    }

    // Strips a tab, or a part of it.
    fn take_tab(&mut self) -> Result<(), AllocError>
        ensures { OnOk result
            (self.new ≡ keep_spaces (8 - self.old.left) (with_left (self.old.left - 8) self.old)) }
    {
        if self.left >= 8 {
            self.left -= 8;
            return Ok(());
        }
        let rest = 8 - self.left;
        self.left = 0;
        self.keep_spaces(rest)
    }

    fn keep_spaces(&mut self, count: usize) -> Result<(), AllocError>
        ensures { OnOk result (self.new ≡ keep_spaces count self.old) }
    {
        for _ in 0..count {
            self.keep(' ')?;
        }
        Ok(())
    }

    // Takes a character that isn't stripped at its line's start.
    fn keep(&mut self, c: char) -> Result<(), AllocError>
        ensures { OnOk result (self.new ≡ keep c self.old) }
    {
        if !self.cr {
            return self.keep_plain(c);
        }
        if c == '\n' {
            self.gap.clear();
            self.cr = false;
            self.put('\r')?;
            return self.put('\n');
        }
        self.settle()?;
        self.keep_plain(c)
    }

    // The same, where no CR comes before.
    fn keep_plain(&mut self, c: char) -> Result<(), AllocError>
        ensures { OnOk result (self.new ≡ keep_plain c self.old) }
    {
        match c {
            ' ' | '\t' => self.gap.push(c),
            '\r' => {
                self.cr = true;
                Ok(())
            }
            '\n' => {
                self.gap.clear();
                self.put('\n')
            }
            _ => {
                self.flush()?;
                self.put(c)
            }
        }
    }

    // Keeps a CR that belongs to no line break.
    fn settle(&mut self) -> Result<(), AllocError>
        ensures { OnOk result (self.new ≡ settle self.old) }
    {
        self.cr = false;
        self.flush()?;
        self.put('\r')
    }

    // Keeps the spaces and tabs.
    fn flush(&mut self) -> Result<(), AllocError>
        ensures { OnOk result (self.new ≡ flush self.old) }
    {
        if self.gap.is_empty() {
            return Ok(());
        }
        if self.escaped {
            self.out.push('\\')?;
            self.escaped = false;
        }
        self.out.push_str(self.gap.as_str())?;
        self.gap.clear();
        Ok(())
    }

    // Writes a character, or reads an escape.
    fn put(&mut self, c: char) -> Result<(), AllocError>
        ensures { OnOk result (self.new ≡ put_character c self.old) }
    {
        if !self.escaped {
            if c == '\\' {
                self.escaped = true;
                return Ok(());
            }
            return self.out.push(c);
        }
        self.escaped = false;
        match c {
            'n' => self.out.push('\n'),
            't' => self.out.push('\t'),
            '"' | '\\' => self.out.push(c),
            _ => {
                self.out.push('\\')?;
                self.out.push(c)
            }
        }
    }

    // Keeps what may have came before a line break.
    fn trail(&mut self) -> Result<(), AllocError>
        ensures { OnOk result (self.new ≡ trail self.old) }
    {
        if self.cr {
            self.settle()?;
        }
        self.flush()
    }

    fn end(mut self) -> Result<String, AllocError>
        ensures { IfOk result (λ said. string_bytes said ≡ all_of self) }
    {
        if self.escaped {
            self.out.push('\\')?;
        }
        Ok(self.out)
    }
}
