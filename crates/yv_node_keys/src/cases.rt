//! The default cases of choices.
ghost use Rattle.std.specs.{Prelude.{◌≡◌}, List.{find}, Option.{option_map}};
ghost use Rattle.yv_text_statement.specs.TextInFile.{written_of};
ghost use Rattle.yv_node_keys.specs.{Numbers.{children_at, default_of, default_case_at, is_called_at}, InnerNamesakes.{NamesDefault}};
ghost use Rattle.yv_nodes.specs.InnerNamesakes.{HaveName};

use crate::node_numbers::{children_at, is_called_at, module_file_at, node_at};
use yv_node_content::NodeKind;
use yv_nodes::{Node, NodeId, Nodes};
use yv_text_statement::WrittenText;

// What the default of a choice says, where there is one.
fn default_of(node: Option<&Node>) -> Option<&WrittenText>
    ensures { option_map (λ written. written_of written.now) result
        ≡ default_of (option_map (λ n. n.now) node.entry) }
{
    match node {
        Some(node) if node.kind() == NodeKind::Choice => node.own_default(),
        _ => None,
    }
}

// Whether the node of a number has this module and this name, which the namesake has, if there is
// one: then names are read only where it is not known that the same is said of both nodes.
fn is_named(
    nodes: &Nodes,
    number: NodeId,
    module_file: u32,
    name: &str,
    namesake: Option<NodeId>,
) -> bool
    requires { HaveName nodes.now.rows name.now namesake }
    ensures { result ≡ is_called_at nodes.now.rows module_file name.now number }
{
    match namesake {
        Some(namesake) if number.number() < nodes.len() => {
            nodes.get(number).module_file() == module_file && nodes.have_one_name(number, namesake)
        }
        _ => is_called_at(nodes.all(), number, module_file, name),
    }
}

/// Of these nodes the first that has this module and this name, which the namesake has, if there is
/// one.
pub(crate) fn first_called(
    nodes: &Nodes,
    module_file: u32,
    name: &str,
    namesake: Option<NodeId>,
    children: &[NodeId],
) -> Option<NodeId>
    requires { HaveName nodes.now.rows name.now namesake }
    ensures { result ≡ find (is_called_at nodes.now.rows module_file name.now) children.now }
{
    children.iter().copied().find(|child| is_named(nodes, *child, module_file, name, namesake))
}

/// The default case of a choice. A namesake of the case, if there is one, has the name that the
/// default says.
pub(crate) fn default_case(
    nodes: &Nodes,
    choice: NodeId,
    namesake: Option<NodeId>,
) -> Option<NodeId>
    requires { NamesDefault nodes.now.rows choice.0 namesake }
    ensures { result ≡ default_case_at nodes.now.rows choice }
{
    match default_of(node_at(nodes.all(), choice)) {
        Some(written) => first_called(
            nodes,
            module_file_at(nodes.all(), choice),
            written.text.as_str(),
            namesake,
            children_at(nodes.all(), choice),
        ),
        None => None,
    }
}
