//! What is said of a file that is not the text of a statement.
ghost use Rattle.std.specs.Prelude.{OnOk, string_bytes};
ghost use Rattle.yv_note_text.specs.Quotes.{Extends};

use crate::file_forms::{form_of_letters, other_form};
use crate::syntax::tell_syntax;
use crate::tokens::{tell_escape, tell_token};
use std::alloc::{AllocError, Global};
use yv_base_streams::Input;
use yv_note_statements::{Message, push_plain};
use yv_text_statement::{Code, Refusal};

// The character at the front of a text that is UTF-8 there.
fn character_of(rest: &[u8]) -> Option<char> {
    match str::from_utf8(character_bytes(rest)?) {
        Ok(text) => text.chars().next(),
        Err(_) => None,
    }
}

// The bytes of the character at the front of a text that is UTF-8 there.
fn character_bytes(rest: &[u8]) -> Option<&[u8]> {
    let size = match *rest.first()? {
        0..=127 => 1,
        128..=223 => 2,
        224..=239 => 3,
        _ => 4,
    };
    rest.get(..size)
}

/// These bytes as a text; no text, if they are none.
pub(crate) fn text_of(bytes: &[u8]) -> &str {
    str::from_utf8(bytes).unwrap_or("")
}

// Adds the character at the front of a text.
fn tell_character(telling: &mut Message<'_>, rest: &[u8]) {
    telling.sentence(Code::BadCharacter);
    if let Some(character) = character_of(rest) {
        telling.character(" It is ", character, ".");
    }
}

// Adds what is wrong at a place of a file that can't be read.
fn tell_unread<'a>(
    telling: &mut Message<'a>,
    bytes: &'a [u8],
    refusal: &Refusal,
) -> Result<(), AllocError> {
    let place = usize::try_from(refusal.offset).unwrap_or(usize::MAX);
    let (front, rest) = bytes.split_at(place.min(bytes.len()));
    match refusal.code {
        Code::BadCharacter => tell_character(telling, rest),
        Code::BadToken => return tell_token(telling, front, rest),
        Code::BadEscape => tell_escape(telling, rest),
        Code::BadSyntax => return tell_syntax(telling, refusal.file, front, rest),
        code => telling.sentence(code),
    }
    telling.say(match refusal.code {
        Code::NotUtf8 => other_form(bytes),
        Code::BadCharacter => form_of_letters(bytes),
        Code::TooLarge => " Split the module.",
        _ => "",
    });
    Ok(())
}

/// Adds what is said of a file that can't be read as a statement.
pub fn push_unread(
    alloc: Global,
    text: &mut String,
    inputs: &[Input],
    bytes: &[u8],
    refusal: &Refusal,
) -> Result<(), AllocError>
    ensures { OnOk result (Extends (string_bytes text.old) (string_bytes text.new)) }
{
    let mut telling = Message::new(alloc);
    tell_unread(&mut telling, bytes, refusal)?;
    telling.outcome()?;
    push_plain(text, inputs, &telling)
}
