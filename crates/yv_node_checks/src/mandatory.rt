//! Mandatory nodes, and what is wrong with defaults.
ghost use Rattle.std.specs.{Prelude.{◌≡◌, ℕ, Some, IfOk, IfSome, length, slice_get, ◌<◌}, List.{find, list_any}};
ghost use Rattle.yv_text_statement.specs.Order.{IsLeast};
ghost use Rattle.yv_node_content.specs.Definition.{own_default};
ghost use Rattle.yv_nodes.specs.{Tree.{Forest}, Places.{Place, places}};
ghost use Rattle.yv_node_checks.specs.{Mandatory.{BadByDefault, BadOfDefault, forbids_default_as, has_unfit_default, is_caseless, is_crowded, has_duplicate_default, is_illegible, is_needed, is_overruled}, InnerBelow.{AreBelow, case_among, is_named_at, is_needed_at, is_undone_at, kept_at}, InnerNamesakes.{AreCases, NamesDefault, case_at}};
ghost use Rattle.yv_node_content.specs.Kinds.{has_values};
ghost use Rattle.yv_nodes.specs.InnerNamesakes.{HaveName};
ghost use Rattle.yv_nodes.specs.InnerSpots.{AreRows};

use std::alloc::{AllocError, Global};
use yv_node_content::NodeKind;
use yv_nodes::{Node, NodeId, Nodes};
use yv_text_statement::{Code, Refusal, lesser};
use yv_values::Defaults;

/// The least refusal of the defaults of a choice, a leaf or a leaf-list, or of `mandatory true` or
/// `min-elements` beside a default.
pub(crate) fn least_by_default(alloc: Global, nodes: &Nodes) -> Result<Option<Refusal>, AllocError>
    ensures { (ts : Forest) → AreRows nodes.now.rows ts
        → IfOk result (λ least. IsLeast (BadByDefault ts) least) }
{
    let below = mandatory_below(alloc, nodes.all())?;
    let mut cases = Vec::with_capacity(alloc, nodes.len() as usize)?;
    let mut least = None;
    for number in 0..nodes.len() {
        let case = next_case(nodes, &cases, NodeId(number));
        let here = wrong_default(nodes.all(), &below, nodes.get(NodeId(number)), case);
        least = lesser(least, here);
        cases.push(case)?;
    }
    Ok(least)
}

// Of each node whether a mandatory node is directly under it. Children come after their parents, so
// that they are known first.
fn mandatory_below(alloc: Global, nodes: &[Node]) -> Result<Vec<bool>, AllocError>
    ensures { (ts : Forest) → AreRows nodes.now ts
        → IfOk result (λ below. AreBelow ts below.items 0) }
{
    let mut below = vec![in alloc; false; nodes.len()]?;
    for number in (0..nodes.len()).rev() {
        let inner = any_needed(nodes, &below, nodes[number].children());
        below[number] = inner;
    }
    Ok(below)
}

// Whether a mandatory node is directly under the node of this number.
fn kept_at(below: &[bool], number: NodeId) -> bool
    ensures { result ≡ kept_at below.now number }
{
    below
        .get(number.number() as usize)
        .copied()
        .unwrap_or(false)
}

// Whether a node is mandatory, where this says that a node directly under it is.
fn is_needed(node: &Node, below: bool) -> bool
    ensures { result ≡ is_needed node.now.label below }
{
    match node.kind() {
        NodeKind::Leaf | NodeKind::Choice | NodeKind::Anydata | NodeKind::Anyxml => {
            node.mandatory()
        }
        NodeKind::List | NodeKind::LeafList => node.min() > 0,
        NodeKind::Container => !node.presence() && below,
        _ => false,
    }
}

// Whether the node of a number is mandatory.
fn is_needed_at(nodes: &[Node], below: &[bool], number: NodeId) -> bool
    ensures { result ≡ is_needed_at nodes.now below.now number }
{
    match nodes.get(number.number() as usize) {
        Some(node) => is_needed(node, kept_at(below, number)),
        None => false,
    }
}

// Whether one of these nodes is mandatory.
fn any_needed(nodes: &[Node], below: &[bool], children: &[NodeId]) -> bool
    ensures { result ≡ list_any (is_needed_at nodes.now below.now) children.now }
{
    children
        .iter()
        .any(|child| is_needed_at(nodes, below, *child))
}

// Whether the node of a number has this module and this name.
fn is_named_at(nodes: &[Node], module_file: u32, name: &str, number: NodeId) -> bool
    ensures { result ≡ is_named_at nodes.now module_file name.now number }
{
    match nodes.get(number.number() as usize) {
        Some(node) => node.module_file() == module_file && node.name() == name,
        None => false,
    }
}

// The same, where the namesake has this name, if there is one: then names are read only where it is
// not known that the same is said of both nodes.
fn is_named(
    nodes: &Nodes,
    module_file: u32,
    name: &str,
    namesake: Option<NodeId>,
    number: NodeId,
) -> bool
    requires { HaveName nodes.now.rows name.now namesake }
    ensures { result ≡ is_named_at nodes.now.rows module_file name.now number }
{
    match namesake {
        Some(namesake) if number.number() < nodes.len() => {
            nodes.get(number).module_file() == module_file && nodes.have_one_name(number, namesake)
        }
        _ => is_named_at(nodes.all(), module_file, name, number),
    }
}

// Of these nodes the first that has this module and this name, which the namesake has, if there is
// one.
fn first_named(
    nodes: &Nodes,
    module_file: u32,
    name: &str,
    namesake: Option<NodeId>,
    children: &[NodeId],
) -> Option<NodeId>
    requires { HaveName nodes.now.rows name.now namesake }
    ensures { result ≡ find (is_named_at nodes.now.rows module_file name.now) children.now }
{
    children.iter().copied().find(|child| is_named(nodes, module_file, name, namesake, *child))
}

// The default case of a choice. The namesake has the name that its default says, if there is one.
fn default_case(nodes: &Nodes, node: &Node, namesake: Option<NodeId>) -> Option<NodeId>
    requires { NamesDefault nodes.now.rows (own_default node.now.label.defined) namesake }
    ensures { result
        ≡ case_among nodes.now.rows node.now.label.module_file (own_default node.now.label.defined)
        node.now.children }
{
    match node.own_default() {
        Some(written) => first_named(
            nodes,
            node.module_file(),
            written.text.as_str(),
            namesake,
            node.children(),
        ),
        None => None,
    }
}

// The default case of the node of a number, where these are known of the first nodes.
fn kept_case(cases: &[Option<NodeId>], number: NodeId) -> Option<NodeId>
    ensures { IfSome result (λ case. slice_get cases.now number.0 ≡ Some (Some case)) }
{
    match cases.get(number.number() as usize) {
        Some(case) => *case,
        None => None,
    }
}

// The default case of the next node, where those of the nodes before it are known. That of an
// earlier node of which the same is said shows which name is meant.
fn next_case(nodes: &Nodes, cases: &[Option<NodeId>], next: NodeId) -> Option<NodeId>
    requires within { next.0 < length nodes.now.rows }
    requires cases { AreCases nodes.now.rows cases.now }
    ensures { result ≡ case_at nodes.now.rows next.0 }
{
    let first = nodes.first_alike(next);
    default_case(nodes, nodes.get(next), kept_case(cases, first))
}

// Whether a mandatory node is directly under a case.
fn is_undone(nodes: &[Node], below: &[bool], case: Option<NodeId>) -> bool
    ensures { result ≡ is_undone_at nodes.now below.now case }
{
    let Some(case) = case else {
        return false;
    };
    match nodes.get(case.number() as usize) {
        Some(node) if node.kind() == NodeKind::Case => kept_at(below, case),
        Some(node) => is_needed(node, kept_at(below, case)),
        None => false,
    }
}

// Whether a node may have no default of its own.
fn forbids_default(node: &Node) -> bool
    ensures { result ≡ forbids_default_as node.now.label.defined.kind node.now.label.defined }
{
    match node.kind() {
        NodeKind::Leaf | NodeKind::Choice => node.mandatory(),
        NodeKind::LeafList => node.min() > 0,
        _ => false,
    }
}

// It has one nevertheless.
fn is_overruled(node: &Node) -> bool
    ensures { result ≡ is_overruled node.now.label }
{
    forbids_default(node) && node.own_default().is_some()
}

// A choice whose default isn't a case of it, where this says whether it is one.
fn is_caseless(node: &Node, found: bool) -> bool
    ensures { result ≡ is_caseless node.now.label found }
{
    node.kind() == NodeKind::Choice && (node.own_default().is_some() && !found)
}

// Whether a node of this kind has values.
fn has_values(kind: NodeKind) -> bool
    ensures { result ≡ has_values kind }
{
    matches!(kind, NodeKind::Leaf | NodeKind::LeafList)
}

// A leaf or leaf-list of which no type reads one of its defaults.
fn is_illegible(node: &Node) -> bool
    ensures { result ≡ is_illegible node.now.label }
{
    has_values(node.kind())
        && (!(node.is_key() || node.mandatory())
            && node.defaults().len() < node.count_defaults_said())
}

// A node with more defaults of its own than it may have.
fn is_crowded(node: &Node) -> bool
    ensures { result ≡ is_crowded node.now.label }
{
    node.own_defaults().len() > Defaults::MOST
}

// A configuration node that has one value twice by its defaults.
fn has_duplicate_default(node: &Node) -> bool
    ensures { result ≡ has_duplicate_default node.now.label }
{
    node.config() && node.repeats_default()
}

// A node whose defaults don't give it values, or not these.
fn has_unfit_default(node: &Node) -> bool
    ensures { result ≡ has_unfit_default node.now.label }
{
    is_illegible(node) || is_crowded(node) || has_duplicate_default(node)
}

// What is wrong with a node's defaults, where this is its default case, if it has one.
fn wrong_default(
    nodes: &[Node],
    below: &[bool],
    node: &Node,
    case: Option<NodeId>,
) -> Option<Refusal>
    ensures { (ts : Forest) (i : ℕ) (p : Place) → AreRows nodes.now ts → AreBelow ts below.now 0
        → slice_get nodes.now i ≡ Some node.now → slice_get (places ts) i ≡ Some p → case
        ≡ case_among nodes.now node.now.label.module_file (own_default node.now.label.defined)
        node.now.children
        → IsLeast (BadOfDefault p) result }
{
    let overruled = node.refusal_if(is_overruled(node), Code::BadMandatory);
    let undone = node.refusal_if(is_undone(nodes, below, case), Code::BadMandatory);
    let caseless = node.refusal_if(is_caseless(node, case.is_some()), Code::BadDefault);
    let unfit = node.refusal_if(has_unfit_default(node), Code::BadDefault);
    lesser(lesser(overruled, undone), lesser(caseless, unfit))
}
