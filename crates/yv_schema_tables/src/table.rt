//! The families of nodes below one parent.
ghost use Rattle.std.specs.Prelude.{◌≡◌, ◌<◌, All, length, IfOk, Some};
ghost use Rattle.yv_text_statement.specs.Order.{IsLeast};
ghost use Rattle.yv_node_content.specs.Kinds.{is_choice};
ghost use Rattle.yv_schema_tables.specs.{DuplicateNodes.{names_that_differ}, InnerNames.{AreOfNodes}, InnerSits.{HaveTrees, family_in, inside_of, pick_trees}, InnerTables.{IsDirectory, IsOfRow, Namesakes, labels_at}};

use crate::data_children::{DataChildren, are_data, is_case};
use crate::directory::Directory;
use crate::member::{Member, front_of};
use std::alloc::{AllocError, Global};
use yv_node_content::NodeKind;
use yv_nodes::{Node, NodeId, Nodes};
use yv_text_statement::{Code, Refusal, lesser};

/// What members name below one parent, and the least refusal of a node whose module and name an
/// earlier one has.
#[derive(Drop)]
pub(crate) struct Family {
    pub(crate) directory: Directory,
    pub(crate) duplicate: Option<Refusal>,
}

impl Family {
    /// The family below a node, where the nodes' names have these numbers: nothing is found below a
    /// choice or case.
    pub(crate) fn below(
        alloc: Global,
        nodes: &Nodes,
        names: &[u32],
        node: &Node,
    ) -> Result<Family, AllocError>
        requires names { AreOfNodes nodes.now.rows names.now }
        requires trees { HaveTrees nodes.now.rows node.now.children }
        ensures directory { IfOk result
            (λ family. IsOfRow nodes.now.rows node.now family.directory) }
        ensures duplicates { IfOk result
            (λ family. IsLeast (Namesakes (family_in nodes.now.rows node.now)) family.duplicate) }
    {
        let around = Some(node.module_file());
        if is_choice(node.kind()) {
            let cases = Family::from_nodes(alloc, nodes, names, around, node.children())?;
            return Ok(Family {
                directory: Directory::new(alloc),
                duplicate: cases.duplicate,
            });
        }
        if is_case(node.kind()) {
            return Family::from_nodes(alloc, nodes, names, around, &[]);
        }
        Family::of(alloc, nodes, names, around, node.children())
    }

    /// The family of the nodes of these numbers and names, with choices and cases opened, where
    /// this module is around.
    pub(crate) fn of(
        alloc: Global,
        nodes: &Nodes,
        names: &[u32],
        around: Option<u32>,
        numbers: &[NodeId],
    ) -> Result<Family, AllocError>
        requires names { AreOfNodes nodes.now.rows names.now }
        requires trees { HaveTrees nodes.now.rows numbers.now }
        ensures directory { IfOk result
            (λ family. IsDirectory nodes.now.rows around (inside_of nodes.now.rows numbers.now)
            family.directory) }
        ensures duplicates { IfOk result
            (λ family. IsLeast
            (Namesakes (names_that_differ (pick_trees nodes.now.rows numbers.now)))
            family.duplicate) }
    {
        if are_data(nodes, numbers) {
            return Family::from_nodes(alloc, nodes, names, around, numbers);
        }
        Family::of_opened_nodes(alloc, nodes, names, around, numbers)
    }

    // The same where choices or cases may be among the nodes.
    fn of_opened_nodes(
        alloc: Global,
        nodes: &Nodes,
        names: &[u32],
        around: Option<u32>,
        numbers: &[NodeId],
    ) -> Result<Family, AllocError>
        requires names { AreOfNodes nodes.now.rows names.now }
        requires trees { HaveTrees nodes.now.rows numbers.now }
        ensures directory { IfOk result
            (λ family. IsDirectory nodes.now.rows around (inside_of nodes.now.rows numbers.now)
            family.directory) }
        ensures duplicates { IfOk result
            (λ family. IsLeast
            (Namesakes (names_that_differ (pick_trees nodes.now.rows numbers.now)))
            family.duplicate) }
    {
        let opened = DataChildren::of(alloc, nodes, numbers)?;
        if opened.told == opened.inside {
            return Family::from_nodes(alloc, nodes, names, around, &opened.inside);
        }
        // The table of those whose names have to differ is let go before the one that stays is
        // made.
        let duplicate = Family::from_nodes(alloc, nodes, names, around, &opened.told)?.duplicate;
        let inside = Family::from_nodes(alloc, nodes, names, around, &opened.inside)?;
        Ok(Family {
            directory: inside.directory,
            duplicate,
        })
    }

    // The family of just these nodes.
    fn from_nodes(
        alloc: Global,
        nodes: &Nodes,
        names: &[u32],
        around: Option<u32>,
        numbers: &[NodeId],
    ) -> Result<Family, AllocError>
        requires names { AreOfNodes nodes.now.rows names.now }
        requires numbers { All (λ c. c.0 < length nodes.now.rows) numbers.now }
        ensures directory { IfOk result
            (λ family. IsDirectory nodes.now.rows around numbers.now family.directory) }
        ensures duplicates { IfOk result
            (λ family. IsLeast (Namesakes (labels_at nodes.now.rows numbers.now))
            family.duplicate) }
    {
        let mut directory = Directory::with_room(alloc, numbers.len())?;
        let mut duplicate = None;
        for child in numbers {
            let node = nodes.get(*child);
            let module_file = front_of(around, node);
            let name = names[child.0 as usize];
            let member = Member { module_file, name };
            let repeated = directory.keep_first(member, *child)?;
            let here = node.refusal_if(repeated, Code::DuplicateNode);
            duplicate = lesser(duplicate, here);
        }
        directory.settle();
        Ok(Family {
            directory,
            duplicate,
        })
    }
}

fn is_choice(kind: NodeKind) -> bool
    ensures { result ≡ is_choice kind }
{
    matches!(kind, NodeKind::Choice)
}
