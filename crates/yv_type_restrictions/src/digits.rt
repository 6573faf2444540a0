//! The digits that a type states.
ghost use Rattle.std.specs.Prelude.{◌≡◌};
ghost use Rattle.yv_type_restrictions.specs.Types.{digits_of_type, few_digits, stated_digits};
ghost use Rattle.yv_base_numbers.specs.Numbers.{integer_of};

use crate::restriction::child;
use yv_base_numbers::{Integer, integer_of};
use yv_link_scopes::name_of;
use yv_text_statement::{Keyword, Statement};

// The number that a text writes, where decimal64 may have so many digits.
fn few_digits(text: &[u8]) -> Option<u32>
    ensures { result ≡ few_digits (integer_of text.now) }
{
    match integer_of(text) {
        Some(Integer::Natural(digits)) => {
            if digits <= 18 {
                Some(digits as u32)
            } else {
                None
            }
        }
        _ => None,
    }
}

// The digits after the point that a type statement states.
fn stated_digits(statement: &Statement<'_>) -> Option<u32>
    ensures { result ≡ stated_digits statement.now }
{
    match child(Keyword::FractionDigits, statement) {
        Some(stated) => few_digits(name_of(stated).as_bytes()),
        None => None,
    }
}

/// The digits with which the built-in type is meant that a type statement names: none where
/// decimal64 states none.
pub(crate) fn digits_of_type(statement: &Statement<'_>) -> Option<u32>
    ensures { result ≡ digits_of_type statement.now }
{
    if name_of(statement) == "decimal64" {
        stated_digits(statement)
    } else {
        Some(0)
    }
}
