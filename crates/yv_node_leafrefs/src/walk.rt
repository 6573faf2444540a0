//! Where paths lead.
ghost use Rattle.std.specs.Prelude.{◌≡◌, ◌↔◌, ◌<◌, ℕ, List, Option, Some, map, length};
ghost use Rattle.yv_node_content.specs.Steps.{Step};
ghost use Rattle.yv_node_leafrefs.specs.{Ways.{Climbs, Begins, Leads}, InnerNames.{told_of, stride_of}, InnerOutline.{rows_in}, InnerIndex.{IsDraft, target_of_stride, table_of}, declared.outline.Outline.{Outline}};

use crate::draft::Draft;
use crate::index::rank;
use crate::strides::Stride;

// The place to which so many `../` climb from a node.
fn climb(draft: &Draft<'_>, number: u32, climbs: usize) -> Option<Option<u32>>
    requires within { number < length draft.now.above.items }
    requires inner { (o : Outline) × IsDraft o draft.now }
    ensures { (o : Outline) → IsDraft o draft.now → (b : Option ℕ)
        → (result ≡ Some b) ↔ Climbs (rows_in o) climbs (Some number) b }
{
    let mut place = Some(number);
    for _ in 0..climbs {
        let Some(below) = place else {
            return None;
        };
        place = draft.above[below as usize];
    }
    Some(place)
}

/// The place at which the path of a node begins.
pub(crate) fn start(draft: &Draft<'_>, number: u32, climbs: Option<usize>) -> Option<Option<u32>>
    requires within { number < length draft.now.above.items }
    requires inner { (o : Outline) × IsDraft o draft.now }
    ensures { (o : Outline) → IsDraft o draft.now → (a : Option ℕ) → (result ≡ Some a)
        ↔ Begins (rows_in o) number climbs a }
{
    match climbs {
        None => Some(None),
        Some(count) => climb(draft, number, count),
    }
}

// The node that a step means below a place, the node that has the path being of the module of this
// number.
fn target_of_stride(
    draft: &Draft<'_>,
    own: u32,
    place: Option<u32>,
    stride: Option<Stride>,
) -> Option<u32>
    ensures { result ≡ target_of_stride (table_of draft.now.index) own place stride }
{
    match stride {
        Some(stride) => {
            let module_file = stride.module_file.unwrap_or(own);
            draft.index.get((rank(place), module_file, stride.name))
        }
        None => None,
    }
}

/// The node to which steps lead from a place.
pub(crate) fn walk(
    draft: &Draft<'_>,
    own: u32,
    strides: &[Option<Stride>],
    start: Option<u32>,
) -> Option<u32>
    ensures { (o : Outline) (steps : List (Option Step)) → IsDraft o draft.now
        → strides.now ≡ map (stride_of (told_of draft.now.names)) steps
        → (c : ℕ) → (result ≡ Some c) ↔ Leads (rows_in o) own steps start (Some c) }
{
    let mut place = start;
    for stride in strides {
        let node = target_of_stride(draft, own, place, *stride)?;
        place = Some(node);
    }
    place
}
