//! Values of decimal64 types.
ghost use Rattle.std.specs.Prelude.{◌≡◌, option_map, option_and_then};
ghost use Rattle.yv_base_numbers.specs.Numbers.{integer, scaled_of};
ghost use Rattle.yv_values.specs.Reads.{decimal_in};

use crate::plain::DecimalType;
use crate::value::Value;
use yv_base_numbers::{Integer, scaled_of};

/// The decimal that the text writes, where the type has it.
pub fn decimal_in(plain: &DecimalType, text: &[u8]) -> Option<Value>
    ensures { result ≡ option_and_then
        (decimal_in plain.now.digits plain.now.spans)
        (scaled_of plain.now.digits text.now) }
{
    decimal_among(plain, scaled_of(plain.digits, text))
}

fn decimal_among(plain: &DecimalType, number: Option<Integer>) -> Option<Value>
    ensures { result ≡ option_and_then
        (decimal_in plain.now.digits plain.now.spans)
        (option_map integer number) }
{
    match number {
        Some(number) if plain.spans.holds(number) => { Some(Value::decimal(plain.digits, number)) }
        _ => None,
    }
}
