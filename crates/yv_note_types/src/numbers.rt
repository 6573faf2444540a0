//! Types of numbers, and the numbers that defaults are.
use crate::restrictions::digits_of;
use yv_base_numbers::{Integer, based_integer_of, scaled_of};
use yv_note_statements::{Site, is_among};

static WHOLE_NUMBERS: &str = "int8 int16 int32 int64 uint8 uint16 uint32 uint64";

/// How the defaults of a type of numbers are read.
#[derive(Clone, Copy)]
pub(crate) enum Notation {
    Whole,
    /// With so many digits after the point, if it is known how many.
    Decimal(Option<u32>),
}

impl Notation {
    /// That of a type, if its built-in type is one of numbers.
    pub(crate) fn of(chain: &[Site<'_, '_>]) -> Option<Notation> {
        let first = chain.last()?;
        if first.argument() == "decimal64" {
            Some(Notation::Decimal(digits_of(first)))
        } else if is_among(first.argument(), WHOLE_NUMBERS) {
            Some(Notation::Whole)
        } else {
            None
        }
    }

    /// The number that a default is.
    pub(crate) fn number(self, text: &str) -> Option<Integer> {
        match self {
            Notation::Whole => based_integer_of(text.as_bytes()),
            Notation::Decimal(digits) => scaled_of(digits?, text.as_bytes()),
        }
    }
}
