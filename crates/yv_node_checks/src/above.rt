//! What the nodes above a node say against it.
ghost use Rattle.std.specs.{Prelude.{◌≡◌, ◌<◌, ◌^◌, ◌∷◌, List, IfOk, length}, Option.{option_map}};
ghost use Rattle.yv_text_statement.specs.Order.{IsLeast};
ghost use Rattle.yv_nodes.specs.{Tree.{Forest, Label}, Places.{Place}};
ghost use Rattle.yv_node_checks.specs.{Above.{AtNearest, BadBelow, BadByAbove, bars_nested, has_if_feature, is_misconfigured, is_misfit, is_misplaced, lacks_key, line}, InnerAncestry.{ancestry_at, ancestry_of, is_some_case, is_some_config, label_in, nearest_of}};
ghost use Rattle.yv_nodes.specs.InnerSpots.{AreRows};

use crate::lineage::{Ancestry, is_keyless};
use crate::node_numbers::node_at;
use std::alloc::{AllocError, Global};
use yv_node_content::NodeKind;
use yv_nodes::{Node, NodeId};
use yv_text_statement::{Code, Refusal, lesser};

/// The least refusal of a `config` statement, a key or an operation by the nodes above it.
pub(crate) fn least_by_above(alloc: Global, nodes: &[Node]) -> Result<Option<Refusal>, AllocError>
    requires { length nodes.now < 2 ^ 32 }
    ensures { (ts : Forest) → AreRows nodes.now ts
        → IfOk result (λ least. IsLeast (BadByAbove ts) least) }
{
    let mut lineage = Vec::new(alloc);
    let mut least = None;
    for node in nodes {
        let above = ancestry_at(&lineage, node.parent());
        let here = wrong_below(node, above, node_at(nodes, node.parent()));
        least = lesser(least, here);
        lineage.push(above.below(node))?;
    }
    Ok(least)
}

// What is kept of the node of a number: the root has no such number.
fn ancestry_at(lineage: &[Ancestry], parent: NodeId) -> Ancestry
    ensures { result ≡ ancestry_at lineage.now parent }
{
    lineage
        .get(parent.number() as usize)
        .copied()
        .unwrap_or(Ancestry::TOP)
}

// What the nodes above a node say against it.
fn wrong_below(node: &Node, above: Ancestry, nearest: Option<&Node>) -> Option<Refusal>
    ensures { (p : Place) → node.now.label ≡ p.label → above ≡ ancestry_of p.above
        → option_map label_in (option_map (λ n. n.now) nearest.entry) ≡ nearest_of p.above
        → IsLeast (BadBelow p) result }
{
    let own = above.below(node);
    let config = node.refusal_if(is_misconfigured(node, nearest, own), Code::BadConfig);
    let operation = node.refusal_if(is_misplaced(node, above, nearest), Code::BadOperation);
    let keyless = node.refusal_if(lacks_key(node), Code::BadKey);
    let misfit = at_nearest(nearest, is_misfit(node, nearest, own));
    lesser(lesser(config, operation), lesser(keyless, misfit))
}

// `config true` below what isn't a configuration.
fn is_misconfigured(node: &Node, nearest: Option<&Node>, own: Ancestry) -> bool
    ensures { (p : Place) → node.now.label ≡ p.label
        → option_map label_in (option_map (λ n. n.now) nearest.entry) ≡ nearest_of p.above
        → own ≡ ancestry_of (line p) → result ≡ is_misconfigured p }
{
    !own.in_operation && (node.stated_config() == Some(true) && !inherited_config(nearest))
}

// Whether a node below this one is configuration, unless it says otherwise: at the top it is.
fn inherited_config(nearest: Option<&Node>) -> bool
    ensures { result
        ≡ is_some_config (option_map label_in (option_map (λ n. n.now) nearest.entry)) }
{
    match nearest {
        Some(node) => node.config(),
        None => true,
    }
}

// An action or notification where none may be.
fn is_misplaced(node: &Node, above: Ancestry, nearest: Option<&Node>) -> bool
    ensures { (p : Place) → node.now.label ≡ p.label → above ≡ ancestry_of p.above
        → option_map label_in (option_map (λ n. n.now) nearest.entry) ≡ nearest_of p.above
        → result ≡ is_misplaced p }
{
    match node.kind() {
        NodeKind::Action => bars_nested(above, nearest) || nearest.is_none(),
        NodeKind::Notification => bars_nested(above, nearest),
        _ => false,
    }
}

// Whether no action and no notification may be below these nodes.
fn bars_nested(above: Ancestry, nearest: Option<&Node>) -> bool
    ensures { (ls : List Label) → above ≡ ancestry_of ls
        → option_map label_in (option_map (λ n. n.now) nearest.entry) ≡ nearest_of ls
        → result ≡ bars_nested ls }
{
    above.in_operation || above.in_keyless || is_case(nearest)
}

// Whether the nearest node above is a case.
fn is_case(nearest: Option<&Node>) -> bool
    ensures { result ≡ is_some_case (option_map label_in (option_map (λ n. n.now) nearest.entry)) }
{
    match nearest {
        Some(node) => node.kind() == NodeKind::Case,
        None => false,
    }
}

// A list of configuration without key.
fn lacks_key(node: &Node) -> bool
    ensures { (p : Place) → node.now.label ≡ p.label → result ≡ lacks_key p }
{
    is_keyless(node) && node.config()
}

// Whether an `if-feature` statement is at a node.
fn has_if_feature(node: &Node) -> bool
    ensures { result ≡ has_if_feature node.now.label }
{
    !node.features().is_empty()
}

// A key that has a condition, or isn't as its list.
fn is_misfit(node: &Node, nearest: Option<&Node>, own: Ancestry) -> bool
    ensures { (p : Place) → node.now.label ≡ p.label
        → option_map label_in (option_map (λ n. n.now) nearest.entry) ≡ nearest_of p.above
        → own ≡ ancestry_of (line p) → result ≡ is_misfit p }
{
    node.is_key()
        && (has_if_feature(node)
            || (!own.in_operation && node.config() != inherited_config(nearest)))
}

// The refusal at the nearest node above, where there is cause.
fn at_nearest(nearest: Option<&Node>, is_wrong: bool) -> Option<Refusal>
    ensures { (ls : List Label) → option_map label_in (option_map (λ n. n.now) nearest.entry)
        ≡ nearest_of ls
        → IsLeast (AtNearest ls is_wrong) result }
{
    match nearest {
        Some(list) => list.refusal_if(is_wrong, Code::BadKey),
        None => None,
    }
}
