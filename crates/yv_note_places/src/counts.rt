//! How many members a text has, and a value.
use crate::colons::count_colons;
use serde_json::{Map, Value};

/// Whether a text has more members than the value that was read of it: then some are repeated. It
/// takes one pass over each.
pub fn has_repeated_members(text: &[u8], value: &Value) -> bool {
    count_colons(text) > members(value)
}

// How many members the objects of a value have, at any depth.
#[cycle(count)]
fn members(value: &Value) -> u64 {
    match value {
        Value::Array(items) => members_of_items(items),
        Value::Object(members) => members_of_object(members),
        _ => 0,
    }
}

#[cycle(count)]
fn members_of_items(items: &Vec<Value>) -> u64 {
    let mut total: u64 = 0;
    for item in items {
        if has_values(item) {
            total = total.saturating_add(members(item));
        }
    }
    total
}

#[cycle(count)]
fn members_of_object(object: &Map<String, Value>) -> u64 {
    let mut total = object.len() as u64;
    for value in object.values() {
        if has_values(value) {
            total = total.saturating_add(members(value));
        }
    }
    total
}

// Most values have none: a test of them takes less time than a call.
fn has_values(value: &Value) -> bool {
    matches!(value, Value::Array(_) | Value::Object(_))
}
