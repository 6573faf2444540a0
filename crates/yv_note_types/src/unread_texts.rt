//! Defaults that are no values of their type.
use crate::numbers::Notation;
use crate::restrictions::{Reading, widest_of};
use crate::spread::Spread;
use crate::values::nearest_with;
use std::alloc::{AllocError, Global};
use std::collections::BTreeMap;
use yv_base_numbers::Integer;
use yv_note_statements::Site;
use yv_text_statement::Keyword;

/// How many bits of a default are looked at.
const MOST_WORDS: usize = 8;

/// The first of these defaults that is surely not a value of a type. Patterns, lengths, identities
/// and unions are not looked at. The statements of the type are read once, whatever the defaults.
pub(crate) fn first_unread<'s, 'a>(
    alloc: Global,
    chain: &[Site<'s, 'a>],
    defaults: &[Site<'s, 'a>],
) -> Result<Option<Site<'s, 'a>>, AllocError> {
    let Some(first) = chain.last() else {
        return Ok(None);
    };
    match first.argument() {
        "boolean" => Ok(first_no_boolean(defaults)),
        "empty" => Ok(defaults.first().copied()),
        "enumeration" => first_with_unknown(alloc, chain, Keyword::Enum, defaults),
        "bits" => first_with_unknown(alloc, chain, Keyword::Bit, defaults),
        _ => match Notation::of(chain) {
            Some(notation) => first_outside(alloc, chain, notation, defaults),
            None => Ok(None),
        },
    }
}

fn first_no_boolean<'s, 'a>(defaults: &[Site<'s, 'a>]) -> Option<Site<'s, 'a>> {
    defaults.iter().copied().find(|default| default.argument() != "true"
        && default.argument() != "false")
}

// The place of the first of these words that is not the name of an item of a type. None also if no
// type of the chain has items.
fn first_unknown(
    alloc: Global,
    chain: &[Site<'_, '_>],
    keyword: Keyword,
    words: &[&str],
) -> Result<Option<usize>, AllocError> {
    let Some(site) = nearest_with(chain, keyword) else {
        return Ok(None);
    };
    let mut unknown = BTreeMap::new(alloc);
    for (place, word) in words.iter().enumerate() {
        let _ = unknown.entry(word.as_bytes())?.or_insert(place);
    }
    for child in site.children() {
        if child.is(keyword) {
            let _ = unknown.remove(&child.argument().as_bytes());
        }
    }
    Ok(unknown.values().copied().min())
}

// The bits in a default that are looked at.
fn push_bits<'a>(words: &mut Vec<&'a str>, text: &'a str) -> Result<(), AllocError> {
    for word in text.split(' ').take(MOST_WORDS) {
        if !word.is_empty() {
            words.push(word)?;
        }
    }
    Ok(())
}

// The first default that is not the name of an item of a type; for bits, the first with a word that
// is none.
fn first_with_unknown<'s, 'a>(
    alloc: Global,
    chain: &[Site<'s, 'a>],
    keyword: Keyword,
    defaults: &[Site<'s, 'a>],
) -> Result<Option<Site<'s, 'a>>, AllocError> {
    let mut words = Vec::new(alloc);
    let mut ends = Vec::new(alloc);
    for default in defaults {
        if keyword == Keyword::Bit {
            push_bits(&mut words, default.argument())?;
        } else {
            words.push(default.argument())?;
        }
        ends.push(words.len())?;
    }
    match first_unknown(alloc, chain, keyword, &words)? {
        Some(place) => {
            let number = ends.partition_point(|end| *end <= place);
            Ok(defaults.get(number).copied())
        }
        None => Ok(None),
    }
}

/// The first word of a default that is not a bit of a type, among those that are looked at.
pub(crate) fn unknown_bit<'a>(
    alloc: Global,
    chain: &[Site<'_, '_>],
    text: &'a str,
) -> Result<Option<&'a str>, AllocError> {
    let mut words = Vec::new(alloc);
    push_bits(&mut words, text)?;
    match first_unknown(alloc, chain, Keyword::Bit, &words)? {
        Some(place) => Ok(words.get(place).copied()),
        None => Ok(None),
    }
}

// The first default that is not a number within a type's limits and each `range`.
fn first_outside<'s, 'a>(
    alloc: Global,
    chain: &[Site<'s, 'a>],
    notation: Notation,
    defaults: &[Site<'s, 'a>],
) -> Result<Option<Site<'s, 'a>>, AllocError> {
    let Some(reading) = widest_of(chain) else {
        return Ok(defaults.first().copied());
    };
    let mut numbers = Vec::new(alloc);
    for default in defaults {
        match notation.number(default.argument()) {
            Some(number) if reading.is_within(number) => numbers.push(number)?,
            _ => break,
        }
    }
    for site in chain {
        if let Some(range) = site.child(Keyword::Range) {
            let count = count_inside(alloc, &reading, range.argument(), &numbers)?;
            numbers.truncate(count);
        }
    }
    Ok(defaults.get(numbers.len()).copied())
}

// How many of the first of these numbers are in a part of a restriction.
fn count_inside(
    alloc: Global,
    reading: &Reading<'_>,
    restriction: &str,
    numbers: &[Integer],
) -> Result<usize, AllocError> {
    let mut spread = Spread::of(alloc, numbers)?;
    reading.mark(restriction, &mut spread);
    Ok(
        numbers
            .iter()
            .take_while(|number| spread.is_marked(**number))
            .count(),
    )
}
