//! Ranges, lengths and patterns.
use crate::spread::Spread;
use std::alloc::{AllocError, Global};
use yv_base_numbers::{Integer, integer_of, is_at_most, scaled_of};
use yv_note_statements::{Message, Site, chain};
use yv_text_statement::Keyword;

// A bound as it is written, and as a number.
#[derive(Clone, Copy)]
struct Bound<'a> {
    text: &'a str,
    number: Integer,
}

// From one bound to the other.
#[derive(Clone, Copy)]
struct Part<'a> {
    low: Bound<'a>,
    high: Bound<'a>,
}

// What the bounds of a part are read by: the digits after the point, and what `min` and `max` mean.
#[derive(Clone, Copy)]
pub(crate) struct Reading<'a> {
    digits: Option<u32>,
    least: Bound<'a>,
    greatest: Bound<'a>,
}

const NATURAL: Bound<'static> = Bound {
    text: "0",
    number: Integer::Natural(0),
};

const HUGE: Bound<'static> = Bound {
    text: "18446744073709551615",
    number: Integer::Natural(18_446_744_073_709_551_615),
};

/// The least and the greatest number of a built-in type, or of lengths.
pub(crate) fn limits_of(built_in: &str) -> Option<(&'static str, &'static str)> {
    match built_in {
        "int8" => Some(("-128", "127")),
        "int16" => Some(("-32768", "32767")),
        "int32" => Some(("-2147483648", "2147483647")),
        "int64" => Some(("-9223372036854775808", "9223372036854775807")),
        "uint8" => Some(("0", "255")),
        "uint16" => Some(("0", "65535")),
        "uint32" => Some(("0", "4294967295")),
        "uint64" | "string" | "binary" => Some(("0", "18446744073709551615")),
        _ => None,
    }
}

fn bound_of(digits: Option<u32>, text: &str) -> Option<Bound<'_>> {
    let number = match digits {
        Some(digits) => scaled_of(digits, text.as_bytes())?,
        None => integer_of(text.as_bytes())?,
    };
    Some(Bound { text, number })
}

impl<'a> Reading<'a> {
    fn bound_in(&self, written: &'a str) -> Option<Bound<'a>> {
        match written.trim() {
            "min" => Some(self.least),
            "max" => Some(self.greatest),
            text => bound_of(self.digits, text),
        }
    }

    // Most parts are a number without blanks, which is read only once.
    fn part(&self, written: &'a str) -> Option<Part<'a>> {
        if let Some(only) = bound_of(self.digits, written) {
            return Some(Part {
                low: only,
                high: only,
            });
        }
        let (low, high) = written.split_once("..").unwrap_or((written, written));
        let low = self.bound_in(low)?;
        let high = self.bound_in(high)?;
        Some(Part { low, high })
    }

    // The first part of a restriction that can be read.
    fn first_part(&self, restriction: &'a str) -> Option<Part<'a>> {
        for written in restriction.split('|') {
            if let Some(part) = self.part(written) {
                return Some(part);
            }
        }
        None
    }

    // The last part of a restriction that can be read.
    fn last_part(&self, restriction: &'a str) -> Option<Part<'a>> {
        for written in restriction.rsplit('|') {
            if let Some(part) = self.part(written) {
                return Some(part);
            }
        }
        None
    }

    /// Marks the numbers that are in a part of a restriction that is read like this.
    pub(crate) fn mark(&self, restriction: &'a str, spread: &mut Spread) {
        for written in restriction.split('|') {
            if let Some(part) = self.part(written) {
                spread.mark(part.low.number, part.high.number);
            }
        }
    }

    /// Whether a number is between the least and the greatest.
    pub(crate) fn is_within(&self, number: Integer) -> bool {
        is_at_most(self.least.number, number) && is_at_most(number, self.greatest.number)
    }
}

// Whether the one number is below the other.
fn is_below(one: Integer, other: Integer) -> bool {
    !is_at_most(other, one)
}

/// The digits after the point of a decimal64.
pub(crate) fn digits_of(first: &Site<'_, '_>) -> Option<u32> {
    first
        .child(Keyword::FractionDigits)?
        .argument()
        .parse::<u32>()
        .ok()
}

/// How a restriction of the built-in type of this chain of types is read.
pub(crate) fn widest_of<'a>(chain: &[Site<'_, 'a>]) -> Option<Reading<'a>> {
    let first = chain.last()?;
    widest(first.argument(), digits_of(first))
}

// How a restriction of a type is read: by the nearest restriction of a type that it is derived
// from, or by its built-in type.
fn reading_of<'a>(alloc: Global, site: &Site<'_, 'a>) -> Result<Option<Reading<'a>>, AllocError> {
    let Some(restricted) = site.parent() else {
        return Ok(None);
    };
    let chain = chain(alloc, &restricted)?;
    let Some(mut reading) = widest_of(&chain) else {
        return Ok(None);
    };
    for derived in chain.iter().rev() {
        if derived.number != restricted.number {
            reading = narrow(reading, derived.child(site.kind()));
        }
    }
    Ok(Some(reading))
}

// How a restriction of a built-in type is read.
fn widest<'a>(built_in: &str, digits: Option<u32>) -> Option<Reading<'a>> {
    if digits.is_some() {
        return Some(Reading {
            digits,
            least: Bound {
                text: "the least of the type",
                number: Integer::Below(9_223_372_036_854_775_807),
            },
            greatest: Bound {
                text: "the greatest of the type",
                number: Integer::Natural(9_223_372_036_854_775_807),
            },
        });
    }
    let (least, greatest) = limits_of(built_in)?;
    Some(Reading {
        digits: None,
        least: bound_of(None, least).unwrap_or(NATURAL),
        greatest: bound_of(None, greatest).unwrap_or(HUGE),
    })
}

// The same within a restriction: by its least and its greatest number.
fn narrow<'a>(reading: Reading<'a>, restriction: Option<Site<'_, 'a>>) -> Reading<'a> {
    let Some(restriction) = restriction else {
        return reading;
    };
    let written = restriction.argument();
    match (reading.first_part(written), reading.last_part(written)) {
        (Some(first), Some(last)) => Reading {
            digits: reading.digits,
            least: first.low,
            greatest: last.high,
        },
        _ => reading,
    }
}

/// Adds what is wrong with a `range` or a `length`.
pub fn tell_restriction<'a>(
    telling: &mut Message<'a>,
    site: &Site<'_, 'a>,
) -> Result<(), AllocError> {
    telling.subject_statement(site, " is wrong.");
    if let Some(reading) = reading_of(telling.alloc(), site)? {
        say_parts(telling, site, &reading);
    }
    Ok(())
}

// What is wrong with a part of a restriction.
#[derive(Clone, Copy)]
enum Fault<'a> {
    Unread(&'a str),
    /// A bound, how it compares with another one, and this.
    Order(Bound<'a>, &'static str, Bound<'a>),
}

impl<'a> Reading<'a> {
    // What is wrong with a part that comes after one that ends with this bound.
    fn fault(&self, part: &Part<'a>, before: Option<Bound<'a>>) -> Option<Fault<'a>> {
        let (low, high) = (part.low, part.high);
        if is_below(high.number, low.number) {
            return Some(Fault::Order(low, " is above ", high));
        }
        if is_below(self.greatest.number, high.number) {
            return Some(Fault::Order(high, ABOVE, self.greatest));
        }
        if is_below(low.number, self.least.number) {
            return Some(Fault::Order(low, BELOW, self.least));
        }
        match before {
            Some(end) if is_at_most(low.number, end.number) => {
                Some(Fault::Order(low, OVERLAPPING, end))
            }
            _ => None,
        }
    }
}

const ABOVE: &str = " is above the greatest that is allowed, ";

const BELOW: &str = " is below the least that is allowed, ";

const OVERLAPPING: &str = " has to be above the part before it, which ends with ";

// In so many bytes of a restriction the part that is wrong is looked for. A restriction may have
// millions of parts, and to read each once more takes longer than a note may.
const MOST_READ: usize = 65_536;

// Adds which part of a restriction is wrong.
fn say_parts<'a>(telling: &mut Message<'a>, site: &Site<'_, 'a>, reading: &Reading<'a>) {
    let mut before: Option<Bound<'a>> = None;
    let mut read: usize = 0;
    for written in site.argument().split('|') {
        if read > MOST_READ {
            telling.say(" Its first 65,536 bytes have no wrong part.");
            return;
        }
        read = read.saturating_add(written.len());
        let Some(part) = reading.part(written) else {
            say_fault(telling, reading, Fault::Unread(written.trim()));
            return;
        };
        if let Some(fault) = reading.fault(&part, before) {
            say_fault(telling, reading, fault);
            return;
        }
        before = Some(part.high);
    }
    telling.say(" A part of it is between two parts of the type that is restricted.");
}

fn say_fault<'a>(telling: &mut Message<'a>, reading: &Reading<'a>, fault: Fault<'a>) {
    match fault {
        Fault::Unread(written) => {
            telling.quote(" The part ", written, "");
            telling.say(if reading.digits.is_some() {
                " is neither a number with at most as many digits after the point as `fraction-digits` says, nor two of them with `..` between."
            } else {
                " is neither a whole number nor two of them with `..` between."
            });
            telling.say(if written.is_ascii() {
                ""
            } else {
                " It has a character outside ASCII; quotes are `\"` and `'`."
            });
        }
        Fault::Order(one, words, other) => {
            telling.quote(" The bound ", one.text, words);
            telling.quote("", other.text, ".");
        }
    }
}
