//! Defaults that are the same value.
use crate::numbers::Notation;
use std::alloc::{AllocError, Global};
use std::collections::BTreeMap;
use yv_base_numbers::Integer;
use yv_note_statements::Site;

/// How long texts are that are compared as numbers.
const MOST_DIGITS: usize = 64;

// What two defaults have in common that are the same value, as far as their texts show.
#[derive(Clone, Copy, PartialEq, Eq, PartialOrd, Ord)]
enum Value<'a> {
    Number(Integer),
    Text(&'a [u8]),
}

// A default of a type as a number, if it is one, else as a text.
fn value_of(notation: Option<Notation>, text: &str) -> Value<'_> {
    match notation {
        Some(notation) if text.len() <= MOST_DIGITS => match notation.number(text) {
            Some(number) => Value::Number(number),
            None => Value::Text(text.as_bytes()),
        },
        _ => Value::Text(text.as_bytes()),
    }
}

/// The first of these defaults that is the same value as one before it, after the first that is.
pub(crate) fn first_repeated<'s, 'a>(
    alloc: Global,
    types: &[Site<'s, 'a>],
    defaults: &[Site<'s, 'a>],
) -> Result<Option<(Site<'s, 'a>, Site<'s, 'a>)>, AllocError> {
    let notation = Notation::of(types);
    let mut firsts = BTreeMap::new(alloc);
    for default in defaults {
        let value = value_of(notation, default.argument());
        if let Some(first) = firsts.get(&value) {
            return Ok(Some((*first, *default)));
        }
        let _ = firsts.insert(value, *default)?;
    }
    Ok(None)
}
