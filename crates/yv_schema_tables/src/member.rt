//! What JSON members call nodes, in numbers.
ghost use Rattle.std.specs.Prelude.{◌≡◌};
ghost use Rattle.yv_schema_tables.specs.InnerTables.{front_of};

use yv_nodes::Node;

/// What a JSON member calls a node (RFC 7951, section 4), in numbers: only these are hashed, and
/// never a text that a stranger chooses.
#[derive(Clone, Copy, Debug, PartialEq, Eq, Hash)]
pub(crate) struct Member {
    /// The file of the module whose name comes first, where one does.
    pub(crate) module_file: Option<u32>,
    /// The number of the node's name.
    pub(crate) name: u32,
}

/// The module whose name comes before a node's name, where this module is around: its own module,
/// unless it is the same.
pub(crate) fn front_of(around: Option<u32>, node: &Node) -> Option<u32>
    ensures { result ≡ front_of around node.now.label }
{
    match around {
        Some(module_file) if module_file == node.module_file() => None,
        _ => Some(node.module_file()),
    }
}
