//! Values of defaults' texts.
ghost use Rattle.std.specs.Prelude.{◌≡◌, ◌==◌, IfOk, position};
ghost use Rattle.yv_values.specs.{Scopes.{text_value, place_of, truth_of, identity_in_scope}, Types.{plain_of}};

use crate::identity::{colon, identity_in};
use crate::members::Members;
use crate::plain::PlainType;
use crate::scope::{Scope, module_of};
use crate::value::Value;
use crate::value_check::string_in;
use crate::whole::whole_among;
use std::alloc::{AllocError, Global};
use yv_base_numbers::based_integer_of;
use yv_pattern::Matchers;

/// The value of a `default` statement's text, where the type has one. The scope is that of the file
/// in which it is written. Whole numbers may be hexadecimal or octal (RFC 7950, section 9.2.1).
pub fn read_text(
    alloc: Global,
    plain: &PlainType,
    text: &str,
    scope: &Scope,
) -> Result<Option<Value>, AllocError>
    ensures { IfOk result
        (λ found. found ≡ text_value (plain_of plain.now) text.now (place_of scope.now)) }
{
    read_text_with(alloc, &mut Matchers::none(alloc), plain, text, scope)
}

/// The same, by the matchers that are kept of the type's patterns from one text to the next.
pub fn read_text_with<'t>(
    alloc: Global,
    matchers: &mut Matchers<'t>,
    plain: &'t PlainType,
    text: &str,
    scope: &Scope,
) -> Result<Option<Value>, AllocError>
    ensures { IfOk result
        (λ found. found ≡ text_value (plain_of plain.now) text.now (place_of scope.now)) }
{
    match plain {
        PlainType::Whole(whole) => Ok(whole_among(whole, based_integer_of(text.as_bytes()))),
        PlainType::Boolean => Ok(truth_of(text)),
        PlainType::Identity(members) => identity_in_scope(alloc, members, scope, text.as_bytes()),
        // The other types read it like a string of JSON. None of them uses the module's name.
        _ => string_in(alloc, matchers, plain, "", text),
    }
}

fn truth_of(text: &str) -> Option<Value>
    ensures { result ≡ truth_of text.now }
{
    if text == "true" {
        Some(Value::boolean(true))
    } else if text == "false" {
        Some(Value::boolean(false))
    } else {
        None
    }
}

fn identity_in_scope(
    alloc: Global,
    members: &Members,
    scope: &Scope,
    text: &[u8],
) -> Result<Option<Value>, AllocError>
    ensures { IfOk result
        (λ found. found
        ≡ identity_in_scope members.now (place_of scope.now) text.now
        (position (λ b. b == 58) text.now)) }
{
    match colon(text) {
        Some(at) => match module_of(&scope.prefixes, &text[..at]) {
            Some(module) => identity_in(alloc, members, module, &text[at + 1..]),
            None => Ok(None),
        },
        None => identity_in(alloc, members, scope.module.as_bytes(), text),
    }
}
