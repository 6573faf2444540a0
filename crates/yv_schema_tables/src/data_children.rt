//! The nodes below one parent, with choices and cases opened.
ghost use Rattle.std.specs.Prelude.{◌≡◌, ◌++◌, [], ◌∷◌, not, true, IfOk, OnOk, if◌then◌else◌};
ghost use Rattle.yv_node_content.specs.Kinds.{is_case, is_data};
ghost use Rattle.yv_schema_tables.specs.InnerSits.{HaveTrees, inner_of, inside_of, told_of};

use std::alloc::{AllocError, Global};
use yv_node_content::NodeKind;
use yv_nodes::{Node, NodeId, Nodes};

/// Numbers of the nodes below one parent, those in its choices and cases among them, in order.
#[derive(Drop)]
pub(crate) struct DataChildren {
    /// Those that are data nodes: the members of an object name them.
    pub(crate) inside: Vec<NodeId>,
    /// Those that are not cases: their names have to differ.
    pub(crate) told: Vec<NodeId>,
}

impl DataChildren {
    /// The nodes of these numbers, opened.
    pub(crate) fn of(
        alloc: Global,
        nodes: &Nodes,
        numbers: &[NodeId],
    ) -> Result<DataChildren, AllocError>
        requires { HaveTrees nodes.now.rows numbers.now }
        ensures inside { IfOk result
            (λ opened. opened.inside.items ≡ inside_of nodes.now.rows numbers.now) }
        ensures tells { IfOk result
            (λ opened. opened.told.items ≡ told_of nodes.now.rows numbers.now) }
    {
        let mut opened = DataChildren {
            inside: Vec::new(alloc),
            told: Vec::new(alloc),
        };
        opened.add(nodes, numbers)?;
        Ok(opened)
    }

    // Adds the nodes of these numbers, and those in choices and cases among them.
    fn add(&mut self, nodes: &Nodes, numbers: &[NodeId]) -> Result<(), AllocError>
        requires { HaveTrees nodes.now.rows numbers.now }
        ensures inside { OnOk result
            (self.new.inside.items ≡ self.old.inside.items
            ++ inside_of nodes.now.rows numbers.now) }
        ensures tells { OnOk result
            (self.new.told.items ≡ self.old.told.items ++ told_of nodes.now.rows numbers.now) }
    {
        for number in numbers {
            let node = nodes.get(*number);
            self.note(node, *number)?;
            self.add(nodes, inner(node))?;
        }
        Ok(())
    }

    // Adds the number of one node.
    fn note(&mut self, node: &Node, number: NodeId) -> Result<(), AllocError>
        ensures inside { OnOk result (self.new.inside.items ≡ self.old.inside.items
            ++ (if not (is_data node.now.label.defined.kind) then [] else number ∷ [])) }
        ensures tells { OnOk result (self.new.told.items ≡ self.old.told.items
            ++ (if is_case node.now.label.defined.kind then [] else number ∷ [])) }
    {
        let kind = node.kind();
        push_unless(&mut self.inside, !kind.is_data(), number)?;
        push_unless(&mut self.told, is_case(kind), number)?;
        Ok(())
    }
}

/// Whether all of these are data nodes. Then there is no choice or case to open: they are the nodes
/// of the object, and their names have to differ.
pub(crate) fn are_data(nodes: &Nodes, numbers: &[NodeId]) -> bool
    requires { HaveTrees nodes.now.rows numbers.now }
    ensures inside { result ≡ true → inside_of nodes.now.rows numbers.now ≡ numbers.now }
    ensures tells { result ≡ true → told_of nodes.now.rows numbers.now ≡ numbers.now }
{
    for number in numbers {
        let kind = nodes.get(*number).kind();
        if !kind.is_data() {
            return false;
        }
    }
    true
}

/// Whether it is a case.
pub(crate) fn is_case(kind: NodeKind) -> bool
    ensures { result ≡ is_case kind }
{
    matches!(kind, NodeKind::Case)
}

// Adds a number that isn't left out.
fn push_unless(
    numbers: &mut Vec<NodeId>,
    is_left_out: bool,
    number: NodeId,
) -> Result<(), AllocError>
    ensures { OnOk result
        (numbers.new.items ≡ numbers.old.items ++ (if is_left_out then [] else number ∷ [])) }
{
    if is_left_out {
        return Ok(());
    }
    numbers.push(number)?;
    Ok(())
}

// The children of a choice or case, and none of another node.
fn inner(node: &Node) -> &[NodeId]
    ensures { result.now ≡ inner_of node.now }
{
    let all = node.children();
    if node.kind().is_passed() {
        all
    } else {
        &all[..0]
    }
}
