//! What is known of items before any augment is applied.
ghost use Rattle.std.specs.Prelude.{◌≡◌};
ghost use Rattle.yv_expand_rounds.specs.Labels.{is_named};

use yv_expand_statements::StatementKind;

/// The label of an item: the number of its module and name together: two items have the same number
/// exactly where they have the same module and the same name; its kind; and whether an augment of a
/// module gives it, and it isn't below another node that this augment gives.
#[derive(Clone, Copy, Debug, PartialEq, Eq)]
pub struct Label {
    pub name: usize,
    pub kind: StatementKind,
    pub given: bool,
}

/// Whether an item is a node of this name.
pub(crate) fn is_named(labels: &[Label], name: usize, item: usize) -> bool
    ensures { result ≡ is_named labels.now name item }
{
    match labels.get(item) {
        Some(label) => label.kind.is_node() && label.name == name,
        None => false,
    }
}
