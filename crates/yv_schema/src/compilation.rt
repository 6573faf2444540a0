//! The compilation of files.
ghost use Rattle.std.specs.Prelude.{◌≡◌, ◌<◌, ◌≤◌, ℕ, length, IfOk, OnOk, Some, None, Err};
ghost use Rattle.yv_text_statement.specs.{declared.refusal.Refusal.{Refusal}, declared.refusal.Stop.TheVariants.{Fault, NoMemory, PatternBuild}, Order.{IsLeast}, Selection.{selected_of}};
ghost use Rattle.yv_link_scopes.specs.RowList.{rows_of};
ghost use Rattle.yv_type_restrictions.specs.Types.{HasTypePattern};
ghost use Rattle.yv_nodes.specs.{Rows.{whole}, Tree.{count}};
ghost use Rattle.yv_schema_tables.specs.Sound.{IsSound};
ghost use Rattle.yv_schema.specs.{LinkedLeafrefs.{AreLinked}, Module.{modules_of}, Notes.{AreNotes}, Refuses.{Refuses, RefusesBeforeTypes}, Schema.{AreReferences, IsSchema}, Siblings.{DefaultsAreCases, SiblingsDiffer}, Units.{TakeUnits}};

use crate::conformance::first_bad_file;
use crate::phases::of_linked;
use std::alloc::Global;
use yv_link::laws::links_have_phases;
use yv_link::link;
use yv_schema_tables::Schema;
use yv_text_statement::{Selection, Statement, Stop};

/// The schema of the modules that are implemented, by the statements of the files of all modules
/// (RFC 7950, sections 5.1 and 7.1), or the least refusal by phase, file, offset and code.
/// Statements that are outside the profile, such as `must`, are refused as `Unsupported`. If these
/// modules expand to more units than the limit, they are refused as `TooManyNodes` before anything
/// is built. `PatternBuild` says that the library of regular expressions doesn't build a pattern of
/// the dialect. More than 2^32 files are answered as if memory ran out; so are more than 2^32 - 3
/// statements that fit the tables of the language.
pub fn compile(
    alloc: Global,
    files: &[Statement<'_>],
    selection: &Selection,
    limit: u32,
) -> Result<Schema, Stop>
    // The schema's tree is one of these files: the nodes that conditions leave of the tree to which
    // the implemented modules expand, each as its statement and its refines say it, by what types
    // mean (plain types, and defaults by typedefs), with its leafrefs resolved: the values of
    // each have the types at the end of its chain.
    ensures schema { IfOk result (λ s. IsSchema (selected_of selection.now) files.now (whole s)) }
    // The limit is this one.
    ensures limit { IfOk result (λ s. s.limit ≡ limit) }
    // The modules are those of the files, under this selection: implemented or not, in order.
    ensures modules { IfOk result
        (λ s. s.modules ≡ modules_of (selected_of selection.now) files.now) }
    // The notes are those of the augments that add nodes, each with its target.
    ensures augments { IfOk result
        (λ s. AreNotes (selected_of selection.now) files.now s.augments) }
    // The links are those of the leafrefs: where each path leads, and what each step means.
    ensures references { IfOk result
        (λ s. AreReferences (selected_of selection.now) files.now s.links) }
    // Each leafref has its link, and nothing else has one.
    ensures links { IfOk result
        (λ s. AreLinked (selected_of selection.now) files.now (whole s) s.links) }
    // The schema has at most as many nodes as the files have units.
    ensures units { IfOk result
        (λ s. (units : ℕ) → TakeUnits (selected_of selection.now) files.now units
        → count (whole s) ≤ units) }
    // The schema is sound, as validation needs it.
    ensures sound { IfOk result IsSound }
    // The names of siblings differ.
    ensures siblings { IfOk result (λ s. SiblingsDiffer (whole s)) }
    // Where a choice has a default, one of its cases is that.
    ensures cases { IfOk result (λ s. DefaultsAreCases (whole s)) }
    // A schema is returned only if nothing is refused.
    ensures clear { OnOk result
        (IsLeast (Refuses (selected_of selection.now) files.now limit) None) }
    // A refusal is the least that applies, by phase, file, offset and code.
    ensures refusal { (r : Refusal) → result ≡ Err (Fault r)
        → IsLeast (Refuses (selected_of selection.now) files.now limit) (Some r) }
    // `PatternBuild` is returned only if a type has a pattern.
    ensures builds { result ≡ Err PatternBuild → HasTypePattern files.now }
    // Then nothing is refused that comes before the types.
    ensures before { result ≡ Err PatternBuild
        → IsLeast (RefusesBeforeTypes (selected_of selection.now) files.now limit) None }
    // More than 2^32 files are answered with `NoMemory`.
    ensures many { 4294967296 < length files.now → result ≡ Err NoMemory }
    // Files of which a schema is returned have at most 2^32 - 3 statements.
    ensures few { OnOk result (length (rows_of files.now) ≤ 4294967293) }
{
    links_have_phases();
    if files.len() > 4_294_967_296 {
        return Err(Stop::NoMemory);
    }
    if let Some(refusal) = first_bad_file(files) {
        return Err(Stop::Fault(refusal));
    }
    let linked = match link(alloc, files, selection) {
        Ok(linked) => linked,
        Err(stop) => return Err(stop),
    };
    of_linked(alloc, &linked, selection, limit)
}
