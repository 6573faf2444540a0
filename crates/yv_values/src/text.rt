//! Values of string types.
ghost use Rattle.std.specs.{Prelude.{◌≡◌, IfOk, length}, Str.{chars}};
ghost use Rattle.yv_values.specs.Texts.{text_in};

use crate::plain::TextType;
use crate::value::Value;
use std::alloc::{AllocError, Global};
use std::rc::RcStr;
use yv_base_numbers::Integer;
use yv_pattern::Matchers;
use yv_text_statement::is_legal_text;

/// The text, where it is a value of the type, by these matchers of its patterns.
pub fn text_in<'t>(
    alloc: Global,
    matchers: &mut Matchers<'t>,
    plain: &'t TextType,
    text: &str,
) -> Result<Option<Value>, AllocError>
    ensures { IfOk result (λ found. found ≡ text_in plain.now.lengths plain.now.patterns text.now) }
{
    if plain.lengths.holds(Integer::Natural(character_count(text)))
        && is_legal_text(text)
        && plain.patterns.pass(alloc, matchers, text)?
    {
        Ok(Some(Value::text(RcStr::from_str(alloc, text)?)))
    } else {
        Ok(None)
    }
}

fn character_count(text: &str) -> u64
    ensures { result ≡ length (chars text.now) }
{
    text.chars().count() as u64
}
