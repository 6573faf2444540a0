//! From the parts of a schema to the schema.
ghost use Rattle.std.specs.Prelude.{◌≡◌, ◌≢◌, IfOk, OnOk, Some, None, Ok, Err};
ghost use Rattle.yv_text_statement.specs.{declared.refusal.Refusal.{Refusal}, declared.refusal.Stop.TheVariants.{Fault, PatternBuild}, Order.{IsLesser}};
ghost use Rattle.yv_schema.specs.{InnerBasis.{NumberedBasis, leafrefs_of, stated_of}, InnerNotes.{notes_of}, InnerBuild.{HasLeast, IsFirst}, InnerParts.{AreParts, AreReady}};
ghost use Rattle.yv_nodes.specs.Rows.{whole};
ghost use Rattle.yv_node_leafrefs.specs.{Resolution.{IsTyped}, Links.{AreLinks}};
ghost use Rattle.yv_schema_tables.specs.Sound.{IsSound};

use crate::parts::SchemaParts;
use std::alloc::Global;
use yv_schema_tables::Schema;
use yv_text_statement::{Refusal, Stop, lesser};

/// The schema of these parts, or the least refusal of what is wrong with its nodes.
pub(crate) fn build(alloc: Global, parts: SchemaParts) -> Result<Schema, Stop>
    requires { AreReady parts }
    ensures schema { (b : NumberedBasis) → AreParts b parts
        → IfOk result (λ s. IsTyped (leafrefs_of b) (stated_of b) (whole s)) }
    ensures limit { IfOk result (λ s. s.limit ≡ parts.nodes.limit) }
    ensures modules { IfOk result (λ s. s.modules ≡ parts.modules.items) }
    ensures augments { (b : NumberedBasis) → AreParts b parts
        → IfOk result (λ s. s.augments ≡ notes_of b) }
    ensures references { (b : NumberedBasis) → AreParts b parts
        → IfOk result (λ s. AreLinks (leafrefs_of b) s.links) }
    ensures sound { IfOk result IsSound }
    ensures clear { (b : NumberedBasis) → AreParts b parts → OnOk result (HasLeast b None) }
    ensures refusal { (b : NumberedBasis) → AreParts b parts
        → (r : Refusal) → result ≡ Err (Fault r) → HasLeast b (Some r) }
    ensures builds { result ≢ Err PatternBuild }
{
    let SchemaParts {
        nodes,
        top,
        modules,
        notes,
        links,
        wrong,
    } = parts;
    with_refusal(
        Schema::number_nodes(alloc, nodes, top, modules, notes, links),
        wrong,
    )
}

// The lesser of both refusals, or a schema where there is none.
fn with_refusal(numbered: Result<Schema, Stop>, wrong: Option<Refusal>) -> Result<Schema, Stop>
    ensures clear { IfOk result (λ s. (numbered ≡ Ok s) × (wrong ≡ None)) }
    ensures sound { IfOk result IsSound }
    ensures refusal { (r : Refusal) → result ≡ Err (Fault r) → IsFirst numbered wrong r }
    ensures builds { numbered ≢ Err PatternBuild → result ≢ Err PatternBuild }
{
    match numbered {
        Ok(schema) => {
            // Every schema is sound.
            let _top = schema.children(Schema::ROOT);
            match wrong {
                Some(wrong) => Err(Stop::Fault(wrong)),
                None => Ok(schema),
            }
        }
        Err(stop) => Err(first_stop(stop, wrong)),
    }
}

// What stops the building of a schema, or the lesser of both refusals where that is one.
fn first_stop(stop: Stop, wrong: Option<Refusal>) -> Stop
    ensures refusal { (r : Refusal) → result ≡ Fault r → (duplicate : Refusal)
        × (stop ≡ Fault duplicate) × IsLesser (Some duplicate) wrong (Some r) }
    ensures builds { result ≡ PatternBuild → stop ≡ PatternBuild }
{
    match stop {
        Stop::Fault(duplicate) => {
            Stop::Fault(lesser(Some(duplicate), wrong).unwrap_or(duplicate))
        }
        other => other,
    }
}
