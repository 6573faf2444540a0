//! Whether a written node exists.
ghost use Rattle.std.specs.Prelude.{◌≡◌};
ghost use Rattle.serde_json.specs.{Data.{array}, View.{view, items_view}};
ghost use Rattle.yv_walk.specs.Existence.{has_items, is_there as exists};

use serde_json::Value;
use yv_node_content::NodeKind;

/// Whether a node of this kind that is written so exists (RFC 7950, sections 7.5 to 7.11): a list
/// or leaf-list that is written as an empty array has no entry, and operations, choices and cases
/// are never written.
pub fn is_there(kind: NodeKind, value: &Value) -> bool
    ensures { result ≡ exists kind (view value.now) }
{
    match kind {
        NodeKind::List | NodeKind::LeafList => is_filled(value),
        _ => kind.is_data(),
    }
}

fn is_filled(value: &Value) -> bool
    ensures { result ≡ has_items (view value.now) }
{
    match value {
        Value::Array(items) => any_item(items),
        _ => true,
    }
}

fn any_item(items: &Vec<Value>) -> bool
    ensures { result ≡ has_items (array (items_view items.now.items)) }
{
    0 < items.as_slice().len()
}
