//! How many members and items a document has.
ghost use Rattle.std.specs.Prelude.{◌≡◌, min};
ghost use Rattle.serde_json.specs.View.{view, items_view, members_view};
ghost use Rattle.yv_validate.specs.Size.{size, items_size, members_size};

use serde_json::{Map, Value};

/// The members of objects and the items of arrays of a document, at any depth; where there are more
/// than 2^64 - 1, that number.
#[cycle(count)]
pub fn size(value: &Value) -> u64
    ensures { result ≡ min (size (view value.now)) 18446744073709551615 }
{
    match value {
        Value::Array(items) => items_size(items),
        Value::Object(members) => members_size(members),
        _ => 0,
    }
}

#[cycle(count)]
fn items_size(items: &Vec<Value>) -> u64
    ensures { result ≡ min (items_size (items_view items.now.items)) 18446744073709551615 }
{
    let mut total: u64 = 0;
    for item in items {
        total = total.saturating_add(1).saturating_add(size(item));
    }
    total
}

#[cycle(count)]
fn members_size(members: &Map<String, Value>) -> u64
    ensures { result ≡ min (members_size (members_view members.now.entries)) 18446744073709551615 }
{
    let mut total: u64 = 0;
    for (_, member) in members.iter() {
        total = total.saturating_add(1).saturating_add(size(member));
    }
    total
}
