//! What the nodes above a node say of it.
ghost use Rattle.std.specs.Prelude.{◌≡◌, ◌∷◌, List};
ghost use Rattle.yv_nodes.specs.Tree.{Label};
ghost use Rattle.yv_node_checks.specs.{Above.{is_keyless}, InnerAncestry.{ancestry_of}};

use yv_node_content::NodeKind;
use yv_nodes::Node;

/// What a node and those above it are to what is below them.
#[derive(Clone, Copy)]
pub(crate) struct Ancestry {
    /// One of them is an operation or a notification.
    pub(crate) in_operation: bool,
    /// One of them is a list without key.
    pub(crate) in_keyless: bool,
}

impl Ancestry {
    /// That of no node.
    pub(crate) const TOP: Ancestry = Ancestry {
        in_operation: false,
        in_keyless: false,
    };

    /// That of a node below those that this one describes.
    pub(crate) fn below(self, node: &Node) -> Ancestry
        ensures { (ls : List Label) → self ≡ ancestry_of ls → result
            ≡ ancestry_of (node.now.label ∷ ls) }
    {
        Ancestry {
            in_operation: node.kind().is_operation_or_notification() || self.in_operation,
            in_keyless: is_keyless(node) || self.in_keyless,
        }
    }
}

/// A list without key.
pub(crate) fn is_keyless(node: &Node) -> bool
    ensures { result ≡ is_keyless node.now.label }
{
    node.kind() == NodeKind::List && !node.has_key()
}
