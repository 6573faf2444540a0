//! What is wrong with leafrefs.
ghost use Rattle.std.specs.Prelude.{◌≡◌, ◌<◌, ◌↔◌, ℕ, Some, None, length, slice_get, IsTrue};
ghost use Rattle.yv_text_statement.specs.Order.{IsLeast};
ghost use Rattle.yv_nodes.specs.Rows.{Row};
ghost use Rattle.yv_node_leafrefs.specs.{Bad.{BadLeafrefs, BadLeafref, IsLost}, Targets.{LeadsTo, RefersTo}, InnerOutline.{rows_in, schema_in}, InnerIndex.{IsDraft}, InnerGraph.{AreTargets, AreLeafrefCycles}};

use crate::draft::Draft;
use crate::outline::Outline;
use crate::targets::is_leafref;
use yv_text_statement::{Code, Refusal, lesser};

// Whether a node with this target is a leafref that refers to nothing.
fn is_lost(outline: &Outline<'_>, draft: &Draft<'_>, target: Option<u32>, number: u32) -> bool
    requires draft { IsDraft outline.now draft.now }
    requires target { (x : ℕ) → (target ≡ Some x) ↔ RefersTo (schema_in outline.now) number x }
    requires within { number < length (rows_in outline.now) }
    ensures { (row : Row) → slice_get (rows_in outline.now) number ≡ Some row
        → IsTrue result ↔ IsLost (schema_in outline.now) number row }
{
    if !is_leafref(outline, draft, number) {
        return false;
    }
    target.is_none()
}

// The least that is wrong with a node with this target, if the mark says whether a cycle is.
fn node_refusal(
    outline: &Outline<'_>,
    draft: &Draft<'_>,
    number: usize,
    target: Option<u32>,
    is_cyclic: bool,
) -> Option<Refusal>
    requires draft { IsDraft outline.now draft.now }
    requires within { number < length (rows_in outline.now) }
    requires target { (x : ℕ) → (target ≡ Some x) ↔ RefersTo (schema_in outline.now) number x }
    requires cycle { IsTrue is_cyclic ↔ LeadsTo (schema_in outline.now) number number }
    ensures { (row : Row) → slice_get (rows_in outline.now) number ≡ Some row
        → IsLeast (BadLeafref (schema_in outline.now) number row) result }
{
    let node = &outline.nodes[number];
    let is_lost = is_lost(outline, draft, target, number as u32);
    let lost = node.refusal_if(is_lost, Code::BadPath);
    let cycle = node.refusal_if(is_cyclic, Code::PathCycle);
    lesser(lost, cycle)
}

/// The least that is wrong with all.
pub(crate) fn first_refusal(
    outline: &Outline<'_>,
    draft: &Draft<'_>,
    targets: &[Option<u32>],
    marks: &[bool],
) -> Option<Refusal>
    requires draft { IsDraft outline.now draft.now }
    requires each { length targets.now ≡ length (rows_in outline.now) }
    requires targets { AreTargets (schema_in outline.now) targets.now }
    requires each_mark { length marks.now ≡ length (rows_in outline.now) }
    requires marks { AreLeafrefCycles (schema_in outline.now) marks.now }
    ensures { IsLeast (BadLeafrefs (schema_in outline.now)) result }
{
    let mut least = None;
    for number in 0..outline.nodes.len() {
        let fault = node_refusal(outline, draft, number, targets[number], marks[number]);
        least = lesser(least, fault);
    }
    least
}
