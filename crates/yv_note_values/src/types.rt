//! What is said of a value that no type of its node reads.
use crate::failed_pattern::{failed_pattern, push_failure};
use crate::listed_names::{push_bits, push_enums, push_guess, push_identities};
use crate::numbers::{Scale, push_count, push_lengths, push_list, push_spans};
use crate::type_chain::TypeChain;
use crate::union_members::{have_typedef, push_members};
use crate::values::push_written;
use crate::yang_files::{FileStatement, YangFiles};
use serde_json::{Number, Value};
use std::alloc::{AllocError, Global};
use yv_nodes::Node;
use yv_note_text::push_quoted;
use yv_text_statement::is_legal_text;
use yv_values::{DecimalType, Integer, Intervals, PlainType, TextType, WholeType};

/// A value, if there is one; of a text also the number of its characters, and whether YANG allows
/// them. The text is read once for all types of a union, since it may be as long as a document.
#[derive(Clone, Copy)]
struct Written<'v> {
    value: Option<&'v Value>,
    length: Option<u64>,
    is_legal: bool,
}

impl<'v> Written<'v> {
    fn new(value: Option<&'v Value>) -> Written<'v> {
        match value {
            Some(Value::String(written)) => Written {
                value,
                length: Some(written.as_str().chars().count() as u64),
                is_legal: is_legal_text(written.as_str()),
            },
            _ => Written {
                value,
                length: None,
                is_legal: true,
            },
        }
    }

    // The text, where the value is one.
    fn string(&self) -> Option<&'v str> {
        match self.value {
            Some(Value::String(written)) => Some(written.as_str()),
            _ => None,
        }
    }
}

/// Adds what the type of a node expects in place of a value, that value, and what may be meant by
/// it. Where a string fails a pattern, and the files are there, it adds that pattern and its place.
pub fn push_type(
    text: &mut String,
    node: &Node,
    value: Option<&Value>,
    files: Option<&YangFiles<'_, '_>>,
) -> Result<(), AllocError> {
    let alloc = *text.allocator();
    let written = Written::new(value);
    let chain = TypeChain::read(alloc, files, node)?;
    if let Some((site, files)) = failure(alloc, node, &written, &chain, files)? {
        return push_failure(text, &files, &site, written.string().unwrap_or(""));
    }
    push_quoted(text, node.type_text())?;
    text.push_str(if have_values(alloc, node.types())? {
        " expects "
    } else {
        " accepts "
    })?;
    push_expected(text, node, &chain, &written)?;
    push_instead(text, node.types(), value)?;
    push_guess(text, node.types(), value)
}

// The pattern that a value fails, where it is a string whose length and characters fit its type.
fn failure<'d, 's>(
    alloc: Global,
    node: &Node,
    written: &Written<'_>,
    chain: &TypeChain<'d, 's>,
    files: Option<&YangFiles<'d, 's>>,
) -> Result<Option<(FileStatement<'d, 's>, YangFiles<'d, 's>)>, AllocError> {
    match (node.types(), written.string(), files) {
        ([PlainType::Text(plain)], Some(string), Some(files)) if has_fit_form(plain, written) => {
            let site = failed_pattern(alloc, chain, string)?;
            Ok(site.map(|site| (site, *files)))
        }
        _ => Ok(None),
    }
}

// Whether a string has the length and the characters that a type allows.
fn has_fit_form(plain: &TextType, written: &Written<'_>) -> bool {
    written.is_legal
        && written
            .length
            .is_some_and(|length| plain.lengths.holds(Integer::Natural(length)))
}

// Adds what the types of a node expect: of a union with typedefs their names.
fn push_expected(
    text: &mut String,
    node: &Node,
    chain: &TypeChain<'_, '_>,
    written: &Written<'_>,
) -> Result<(), AllocError> {
    let members = chain.members(*text.allocator())?;
    if have_typedef(&members) {
        push_members(text, &members)
    } else {
        push_types(text, node.types(), written)
    }
}

// Adds the value that types don't expect, if there is one that they do.
fn push_instead(
    text: &mut String,
    types: &[PlainType],
    value: Option<&Value>,
) -> Result<(), AllocError> {
    let Some(value) = value else {
        return Ok(());
    };
    if !have_values(*text.allocator(), types)? {
        return Ok(());
    }
    text.push_str(", not ")?;
    push_written(text, value)
}

// Whether one of these types has a value.
fn have_values(alloc: Global, types: &[PlainType]) -> Result<bool, AllocError> {
    for plain in types {
        if has_values(alloc, plain)? {
            return Ok(true);
        }
    }
    Ok(false)
}

fn has_values(alloc: Global, plain: &PlainType) -> Result<bool, AllocError> {
    match plain {
        PlainType::Enumeration(names) => Ok(!names.as_slice().is_empty()),
        PlainType::Identity(members) => Ok(!members.front(alloc, 1)?.is_empty()),
        _ => Ok(true),
    }
}

// Adds what types expect in place of a value, of many the first 4.
fn push_types(
    text: &mut String,
    types: &[PlainType],
    written: &Written<'_>,
) -> Result<(), AllocError> {
    push_list(text, types, ", or ", "something else", |text, plain| {
        push_plain(text, plain, written)
    })
}

// Adds what a type expects (RFC 7951, section 6).
fn push_plain(
    text: &mut String,
    plain: &PlainType,
    written: &Written<'_>,
) -> Result<(), AllocError> {
    match plain {
        PlainType::Whole(whole) => push_whole(text, whole, written),
        PlainType::Decimal(decimal) => push_decimal(text, decimal),
        PlainType::Text(plain) => push_text(text, plain, written),
        PlainType::Boolean => text.push_str("true or false without quotes"),
        PlainType::Enumeration(names) => push_enums(text, names.as_slice()),
        PlainType::Bits(names) => push_bits(text, names.as_slice()),
        PlainType::Binary(lengths) => {
            text.push_str("a base64 string")?;
            push_size(text, lengths, "octet", "octets")
        }
        PlainType::Identity(members) => push_identities(text, members),
        PlainType::Empty => text.push_str("[null]"),
    }
}

fn push_whole(
    text: &mut String,
    whole: &WholeType,
    written: &Written<'_>,
) -> Result<(), AllocError> {
    if whole.is_text {
        text.push_str("a quoted whole number")?;
    } else {
        text.push_str("a whole number")?;
        text.push_str(unlike_a_whole_number(written.value))?;
    }
    text.push_str(" in ")?;
    push_spans(text, whole.spans.spans(), Scale::Places(0))
}

// How a whole number without quotes is written, by what is written instead. A number past 64 bits
// is read alike with and without a point or an exponent.
fn unlike_a_whole_number(value: Option<&Value>) -> &'static str {
    match value {
        Some(Value::Number(number)) if is_whole(number) => "",
        Some(Value::Number(number)) if is_past_64_bits(number) => " of at most 64 bits",
        Some(Value::Number(_)) => " without a decimal point or exponent",
        _ => " without quotes",
    }
}

fn is_whole(number: &Number) -> bool {
    number.as_u64().is_some() || number.as_i64().is_some()
}

// Whether a number that isn't read as a whole one is past those of 64 bits.
fn is_past_64_bits(number: &Number) -> bool {
    match number.as_f64() {
        Some(float) => float >= PAST_GREATEST || float <= LEAST,
        None => false,
    }
}

/// The number after the greatest whole one of 64 bits.
const PAST_GREATEST: f64 = 18_446_744_073_709_551_616.0;

/// The least whole number of 64 bits. One below it by a few is rounded to it.
const LEAST: f64 = -9_223_372_036_854_775_808.0;

fn push_decimal(text: &mut String, decimal: &DecimalType) -> Result<(), AllocError> {
    text.push_str("a quoted number in ")?;
    push_spans(
        text,
        decimal.spans.spans(),
        Scale::Places(decimal.digits as usize),
    )?;
    text.push_str(" with at most ")?;
    push_count(
        text,
        u64::from(decimal.digits),
        "decimal place",
        "decimal places",
    )
}

// A text of a length and of characters that fit is one that a pattern rules out.
fn push_text(text: &mut String, plain: &TextType, written: &Written<'_>) -> Result<(), AllocError> {
    match written.length {
        Some(length) if !plain.lengths.holds(Integer::Natural(length)) => {
            text.push_str("a string")?;
            push_size(text, &plain.lengths, "character", "characters")
        }
        Some(_) if !written.is_legal => {
            text.push_str("a string without control characters or noncharacters")
        }
        Some(_) => text.push_str("a string that matches all of its patterns"),
        None => {
            text.push_str("a quoted string")?;
            push_size(text, &plain.lengths, "character", "characters")
        }
    }
}

// Adds lengths, where they are bounded.
fn push_size(
    text: &mut String,
    lengths: &Intervals,
    one: &str,
    several: &str,
) -> Result<(), AllocError> {
    let is_bounded = !lengths.holds(Integer::Natural(0))
        || !lengths.holds(Integer::Natural(u64::MAX));
    if is_bounded {
        text.push_str(" of ")?;
        push_lengths(text, lengths.spans(), one, several)?;
    }
    Ok(())
}
