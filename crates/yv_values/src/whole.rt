//! Values of whole-number types.
ghost use Rattle.std.specs.Prelude.{◌≡◌, option_map, option_and_then};
ghost use Rattle.serde_json.specs.{View.{view, number_view}, Find.{as_integer}};
ghost use Rattle.yv_base_numbers.specs.Numbers.{integer};
ghost use Rattle.yv_values.specs.Reads.{whole_in, whole_from};

use crate::plain::WholeType;
use crate::value::Value;
use serde_json::{Number, Value as Json};
use yv_base_numbers::{Integer, integer_of};

/// The whole number of a JSON number, or of a text where the type is of 64 bits.
pub fn whole_of(plain: &WholeType, json: &Json) -> Option<Value>
    ensures { result ≡ whole_from plain.now.is_text plain.now.spans (view json.now) }
{
    if plain.is_text {
        match json {
            Json::String(text) => whole_among(plain, integer_of(text.as_bytes())),
            _ => None,
        }
    } else {
        match json {
            Json::Number(number) => whole_among(plain, integer_in(number)),
            _ => None,
        }
    }
}

/// The value of the number, where the type has it.
pub fn whole_among(plain: &WholeType, number: Option<Integer>) -> Option<Value>
    ensures { result ≡ option_and_then (whole_in plain.now.spans) (option_map integer number) }
{
    match number {
        Some(number) if plain.spans.holds(number) => Some(Value::whole(number)),
        _ => None,
    }
}

fn integer_in(number: &Number) -> Option<Integer>
    ensures { option_map integer result ≡ as_integer (number_view number.now) }
{
    match number.as_u64() {
        Some(natural) => Some(Integer::Natural(natural)),
        None => match number.as_i64() {
            Some(signed) if signed < 0 => Some(Integer::Below((-1 - signed) as u64)),
            _ => None,
        },
    }
}
