//! Counts, and intervals of numbers and of lengths.
use itoa::Buffer;
use std::alloc::AllocError;
use yv_values::{Integer, Span};

/// How many intervals are listed, and of a union how many types.
const MOST_LISTED: usize = 4;

/// What intervals are of.
#[derive(Clone, Copy)]
pub(crate) enum Scale {
    /// Numbers with so many digits after the point.
    Places(usize),
    /// Lengths of texts.
    Lengths,
}

/// Adds a count, and the word for what is counted.
pub fn push_count(
    text: &mut String,
    count: u64,
    one: &str,
    several: &str,
) -> Result<(), AllocError> {
    text.push_str(Buffer::new().format(count))?;
    text.push_str(" ")?;
    text.push_str(if count == 1 { one } else { several })
}

/// Adds lengths, of many the first 4, and the word for what they count.
pub(crate) fn push_lengths(
    text: &mut String,
    spans: &[Span],
    one: &str,
    several: &str,
) -> Result<(), AllocError> {
    push_spans(text, spans, Scale::Lengths)?;
    text.push_str(" ")?;
    text.push_str(if ends_with_one(spans) { one } else { several })
}

// Whether the last number that is written for lengths is 1.
fn ends_with_one(spans: &[Span]) -> bool {
    match spans.last() {
        Some(last) => {
            last.low == Integer::Natural(1) && (last.high == last.low || is_unbounded(last))
        }
        None => false,
    }
}

// Whether an interval of lengths has no greatest one.
fn is_unbounded(span: &Span) -> bool {
    span.high == Integer::Natural(u64::MAX)
}

/// Adds intervals, of many the first 4.
pub(crate) fn push_spans(
    text: &mut String,
    spans: &[Span],
    scale: Scale,
) -> Result<(), AllocError> {
    push_list(text, spans, " or ", "others", |text, span| {
        push_span(text, span, scale)
    })
}

/// Adds items with these words between them: of many the first 4, and that there are others.
pub(crate) fn push_list<T, F: Fn(&mut String, &T) -> Result<(), AllocError>>(
    text: &mut String,
    items: &[T],
    or: &str,
    others: &str,
    push: F,
) -> Result<(), AllocError>
    requires { F.IsAlwaysCallable push }
{
    for (place, item) in items.iter().enumerate() {
        if place > 0 {
            text.push_str(or)?;
        }
        if place >= MOST_LISTED {
            return text.push_str(others);
        }
        push(text, item)?;
    }
    Ok(())
}

fn push_span(text: &mut String, span: &Span, scale: Scale) -> Result<(), AllocError> {
    match scale {
        Scale::Places(places) => push_ends(text, span, places),
        Scale::Lengths if is_unbounded(span) => {
            text.push_str("at least ")?;
            push_number(text, span.low, 0)
        }
        Scale::Lengths => push_ends(text, span, 0),
    }
}

fn push_ends(text: &mut String, span: &Span, places: usize) -> Result<(), AllocError> {
    push_number(text, span.low, places)?;
    if span.low != span.high {
        text.push_str("..")?;
        push_number(text, span.high, places)?;
    }
    Ok(())
}

fn push_number(text: &mut String, number: Integer, places: usize) -> Result<(), AllocError> {
    match number {
        Integer::Natural(natural) => push_scaled(text, Buffer::new().format(natural), places),
        Integer::Below(below) => {
            text.push_str("-")?;
            push_scaled(text, Buffer::new().format(u128::from(below) + 1), places)
        }
    }
}

// Adds digits, so many of them after a point.
fn push_scaled(text: &mut String, digits: &str, places: usize) -> Result<(), AllocError> {
    let missing = places.saturating_add(1).saturating_sub(digits.len());
    for before in 0..missing {
        push_digit(text, b'0', before == 1)?;
    }
    let whole = digits.len().saturating_sub(places);
    for (place, digit) in digits.as_bytes().iter().enumerate() {
        let is_first = place == whole && places > 0 && missing < 2;
        push_digit(text, *digit, is_first)?;
    }
    Ok(())
}

// Adds a digit, with the point before it if it is the first one after the point.
fn push_digit(text: &mut String, digit: u8, is_first: bool) -> Result<(), AllocError> {
    if is_first {
        text.push('.')?;
    }
    text.push(char::from(digit))?;
    Ok(())
}
