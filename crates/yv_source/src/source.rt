//! A file's text.

ghost use Rattle.std.specs.{Prelude.{◌≡◌, ◌≤◌, ◌↔◌, ◌++◌, [], length, take, drop, encode_utf8, OnOk, IfOk, IfSome, IfNone, IsTrue, Err}, Char.{len_utf8}, List.{list_all}, Str.{chars}};
ghost use Rattle.yv_text_statement.specs.declared.refusal.Refusal.{Refusal as TheRefusal};
ghost use Rattle.yv_source.specs.{Answer.{IsBadFile}, Legal.{most_bytes, is_legal, IsIllegalAt, IsLegalFile}, Inner.Plain.{is_common}};

use crate::fault::refusal;
use std::alloc::Global;
use std::marker::Model;
use std::str;
use yv_text_statement::{Code, Refusal, Stop, is_legal};

/// How many bytes a file may have.
pub const MOST_BYTES: usize = 4_194_304;

// How many bytes are compared at once.
const BLOCK: usize = 64;

/// The source of statements: a file's name and text. The text is UTF-8, has only legal characters
/// and at most `MOST_BYTES` bytes.
#[derive(Drop)]
pub struct Source {
    name: String,
    text: String,
}

impl Model for Source {
    ghost use Rattle.std.specs.Prelude.{string_bytes};
    ghost use Rattle.yv_source.specs.File.{File};

    ghost Value = { File };

    ghost view = { λ s. record { name = string_bytes s.name; text = string_bytes s.text } };

    ghost use Rattle.yv_source.specs.Legal.{IsLegalText};

    ghost invariant = { λ s. IsLegalText (string_bytes s.text) };
}

impl Source {
    ghost use Rattle.std.specs.Prelude.{◌≡◌, ◌↔◌, ◌⊎◌, OnOk, IfOk};
    ghost use Rattle.yv_text_statement.specs.declared.refusal.Refusal.{Refusal};
    ghost use Rattle.yv_source.specs.{Answer.{IsBadFile}, Legal.{IsLegalFile}};

    /// The text of a file, or what is refused: TooLarge at offset 0, else NotUtf8 at the first byte
    /// that isn't UTF-8, else BadCharacter at the first character that isn't legal (RFC 7950,
    /// section 14, yang-char). The name is what messages call the file by, and isn't looked at.
    pub fn new(alloc: Global, name: &str, bytes: &[u8]) -> Result<Source, Stop>
        // The source has this name and these bytes.
        ensures source { IfOk result
            (λ source. source ≡ record { name = name.now; text = bytes.now }) }
        // They are UTF-8, at most 4,194,304 bytes, of legal characters.
        ensures legal { OnOk result (IsLegalFile bytes.now) }
        // A refusal is returned exactly if it is that of a bad file.
        ensures refuses { (r : Refusal) → (result ≡ Err (Stop.Fault r)) ↔ IsBadFile bytes.now r }
        // `PatternBuild` is never returned.
        ensures never_built { result ≡ Err Stop.PatternBuild → ⊥ }

        // For a legal file its source is returned, or out of memory.
        ensures only_legal { IsLegalFile bytes.now
            → (result ≡ Ok (record { name = name.now; text = bytes.now }))
            ⊎ (result ≡ Err Stop.NoMemory) }
    {
        let text = match legal_text(bytes) {
            Ok(text) => text,
            Err(refusal) => return Err(Stop::Fault(refusal)),
        };
        let name = String::from_str(alloc, name)?;
        let text = String::from_str(alloc, text)?;
        Ok(Source { name, text })
    }

    /// The file's name.
    pub fn name(&self) -> &str
        ensures { result.now ≡ self.now.name }
    {
        self.name.as_str()
    }

    /// The file's text, with its byte order mark where it has one.
    pub fn text(&self) -> &str
        // The text of the file.
        ensures value { result.now ≡ self.now.text }
        // It is legal.
        ensures legal { IsLegalFile self.now.text }
    {
        self.text.as_str()
    }
}

/// The text that a file's bytes are, or why they are none.
pub(crate) fn legal_text(bytes: &[u8]) -> Result<&str, Refusal>
    ensures text { IfOk result (λ text. text.now ≡ bytes.now) }
    ensures legal { OnOk result (IsLegalFile bytes.now) }
    ensures refuses { (r : TheRefusal) → (result ≡ Err r) ↔ IsBadFile bytes.now r }
{
    if bytes.len() > MOST_BYTES {
        return Err(refusal(Code::TooLarge, bytes, 0));
    }
    let text = match str::from_utf8(bytes) {
        Ok(text) => text,
        Err(fault) => return Err(refusal(Code::NotUtf8, bytes, fault.valid_up_to())),
    };
    if let Some(at) = first_illegal(text) {
        return Err(refusal(Code::BadCharacter, bytes, at));
    }
    Ok(text)
}

// The offset of the first character that isn't legal. Only characters that aren't common are
// decoded.
fn first_illegal(text: &str) -> Option<usize>
    requires { length text.now ≤ most_bytes }
    ensures finds { IfSome result (IsIllegalAt text.now) }
    ensures within { IfSome result (λ at. at ≤ length text.now) }
    ensures none { IfNone result (IsTrue (list_all is_legal (chars text.now))) }
{
    let bytes = text.as_bytes();
    let mut at = 0;
    loop {
        at += common_len(&bytes[at..]);
        let Some(c) = front_of(&text[at..]) else {
            return None;
        };
        if !is_legal(c) {
            return Some(at);
        }
        at += c.len_utf8();
    }
}

// How many common characters a text begins with: first whole blocks of them, then bytes.
fn common_len(bytes: &[u8]) -> usize
    ensures within { result ≤ length bytes.now }
    ensures common { IsTrue (list_all is_common (take result bytes.now)) }
{
    for i in blocks_len(bytes)..bytes.len() {
        if !is_common(bytes[i]) {
            return i;
        }
    }
    bytes.len()
}

// How many bytes the blocks have that a text begins with and that have only common characters. No
// block is looked at where the first character isn't common, so that texts with few of them don't
// take longer.
fn blocks_len(bytes: &[u8]) -> usize
    ensures within { result ≤ length bytes.now }
    ensures common { IsTrue (list_all is_common (take result bytes.now)) }
{
    let mut len = 0;
    while bytes.len() - len >= BLOCK && is_common(bytes[len]) {
        if !are_common(&bytes[len..len + BLOCK]) {
            return len;
        }
        len += BLOCK;
    }
    len
}

// Whether all bytes are common characters. It looks at every byte in any case, so that many are
// compared at once.
fn are_common(bytes: &[u8]) -> bool
    ensures { result ≡ list_all is_common bytes.now }
{
    let mut all = true;
    for byte in bytes {
        all &= is_common(*byte);
    }
    all
}

// Whether a byte is a character that almost all texts consist of: one of ASCII that isn't a
// control, or a tab or a part of a line break.
fn is_common(byte: u8) -> bool
    ensures { result ≡ is_common byte }
{
    matches!(byte, b' '..=b'~' | b'\t' | b'\n' | b'\r')
}

// The character at a text's front.
pub(crate) fn front_of(text: &str) -> Option<char>
    ensures none { IfNone result (text.now ≡ []) }
    ensures some { IfSome result (λ c. text.now ≡ encode_utf8 c ++ drop (len_utf8 c) text.now) }
{
    text.chars().next()
}
