//! Built-in types before any restriction.
ghost use Rattle.std.specs.{Prelude.{◌≡◌, ◌∷◌, [], true, int_le, pos, negsuc, Some, IfOk}, Option.{option_map}};
ghost use Rattle.yv_base_numbers.specs.Numbers.{integer};
ghost use Rattle.yv_values.specs.Types.{plain_of, wholes};
ghost use Rattle.yv_type_restrictions.specs.BuiltIn.{built_in, signed_range, unsigned_range, whole_type};

use std::alloc::{AllocError, Global};
use yv_base_numbers::{Integer, Intervals, Span};
use yv_values::{DecimalType, PatternTests, PlainType, TextType, WholeType};

/// The built-in type of a name before any restriction, decimal64 with so many fraction digits (RFC
/// 7950, sections 9.2 to 9.5, 9.8 and 9.11). Of the other built-in types, whose values their own
/// statements give, there is none. It takes constant time.
pub fn built_in(alloc: Global, name: &str, digits: u32) -> Result<Option<PlainType>, AllocError>
    ensures { IfOk result (λ found. option_map plain_of found ≡ built_in name.now digits) }
{
    if name == "decimal64" {
        let spans = signed_range(alloc, 9_223_372_036_854_775_807)?;
        Ok(Some(PlainType::Decimal(DecimalType { digits, spans })))
    } else if name == "string" {
        let lengths = unsigned_range(alloc, u64::MAX)?;
        let patterns = PatternTests::none(alloc)?;
        Ok(Some(PlainType::Text(TextType { lengths, patterns })))
    } else if name == "binary" {
        Ok(Some(PlainType::Binary(unsigned_range(alloc, u64::MAX)?)))
    } else if name == "boolean" {
        Ok(Some(PlainType::Boolean))
    } else if name == "empty" {
        Ok(Some(PlainType::Empty))
    } else {
        whole_type(alloc, name)
    }
}

fn whole_type(alloc: Global, name: &str) -> Result<Option<PlainType>, AllocError>
    ensures { IfOk result (λ found. option_map plain_of found ≡ whole_type name.now) }
{
    if name == "int8" {
        wholes(signed_range(alloc, 127)?, false)
    } else if name == "int16" {
        wholes(signed_range(alloc, 32_767)?, false)
    } else if name == "int32" {
        wholes(signed_range(alloc, 2_147_483_647)?, false)
    } else if name == "int64" {
        wholes(signed_range(alloc, 9_223_372_036_854_775_807)?, true)
    } else if name == "uint8" {
        wholes(unsigned_range(alloc, 255)?, false)
    } else if name == "uint16" {
        wholes(unsigned_range(alloc, 65_535)?, false)
    } else if name == "uint32" {
        wholes(unsigned_range(alloc, 4_294_967_295)?, false)
    } else if name == "uint64" {
        wholes(unsigned_range(alloc, 18_446_744_073_709_551_615)?, true)
    } else {
        Ok(None)
    }
}

fn wholes(spans: Intervals, is_text: bool) -> Result<Option<PlainType>, AllocError>
    ensures { IfOk result (λ found. option_map plain_of found ≡ Some (wholes is_text spans)) }
{
    Ok(Some(PlainType::Whole(WholeType { is_text, spans })))
}

// The numbers with a sign up to this one: as many are below zero as aren't.
fn signed_range(alloc: Global, highest: u64) -> Result<Intervals, AllocError>
    ensures { IfOk result (λ all. all ≡ record { low = negsuc highest; high = pos highest } ∷ []) }
{
    all_between(alloc, Integer::Below(highest), Integer::Natural(highest))
}

// The natural numbers up to this one.
fn unsigned_range(alloc: Global, highest: u64) -> Result<Intervals, AllocError>
    ensures { IfOk result (λ all. all ≡ record { low = pos 0; high = pos highest } ∷ []) }
{
    all_between(alloc, Integer::Natural(0), Integer::Natural(highest))
}

// The one interval from the low number to the high one.
fn all_between(alloc: Global, low: Integer, high: Integer) -> Result<Intervals, AllocError>
    requires { int_le (integer low) (integer high) ≡ true }
    ensures { IfOk result (λ all. all ≡ record { low = integer low; high = integer high } ∷ []) }
{
    match Intervals::new(vec![in alloc; Span { low, high }]?)? {
        Some(intervals) => Ok(intervals),
        None => unreachable!(),
    }
}
