//! The link of one leafref.
ghost use Rattle.std.specs.{Prelude.{◌≡◌, map, reverse, IfOk, Some}, Option.{option_map}};
ghost use Rattle.yv_node_leafrefs.specs.InnerWays.{is_path, link_of_path, upwards};

use crate::inner_nodes::above_at;
use crate::leafref::Leafref;
use std::alloc::{AllocError, Global};
use yv_nodes::{Link, NodeId};

// So many nodes down to a target, each below the one before it: none where not as many stand there.
fn way(
    alloc: Global,
    above: &[Option<u32>],
    target: NodeId,
    count: usize,
) -> Result<Option<Vec<NodeId>>, AllocError>
    ensures { IfOk result (λ way. option_map (λ way. map (λ n. n.0) way.items) way
        ≡ option_map reverse (upwards above.now count (Some target.0))) }
{
    let mut way = Vec::new(alloc);
    let mut place = Some(target.number());
    for _ in 0..count {
        let Some(number) = place else {
            return Ok(None);
        };
        way.push(NodeId(number))?;
        place = above_at(above, number);
    }
    way.reverse();
    Ok(Some(way))
}

// Whether a path begins at another place than the leafref itself.
fn is_path(climbs: Option<usize>) -> bool
    ensures { result ≡ is_path climbs }
{
    match climbs {
        None => true,
        Some(count) => count != 0,
    }
}

/// The link of a leafref that says this and refers to the target, by the containers and lists above
/// nodes.
pub(crate) fn link_to(
    alloc: Global,
    above: &[Option<u32>],
    leafref: &Leafref,
    target: NodeId,
) -> Result<Option<Link>, AllocError>
    ensures { IfOk result (λ link. link ≡ link_of_path above.now leafref.now target.0) }
{
    if !is_path(leafref.climbs()) {
        return Ok(None);
    }
    match way(alloc, above, target, leafref.steps().len())? {
        None => Ok(None),
        Some(steps) => Ok(Some(Link {
            climbs: leafref.climbs(),
            steps,
            target,
            is_required: leafref.is_required(),
        })),
    }
}
