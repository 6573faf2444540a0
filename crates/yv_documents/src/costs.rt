//! What the validation of a document costs.
ghost use Rattle.std.specs.Prelude.{◌≡◌, ◌≤◌, ◌+◌, ◌*◌, ◌++◌, ◌∷◌, [], IfOk, codes, decimal, string_bytes};
ghost use Rattle.serde_json.specs.View.{view};
ghost use Rattle.yv_values.specs.Count.{count_up};
ghost use Rattle.yv_validate.specs.Size.{size as data_size};
ghost use Rattle.yv_base_streams.specs.{Stream.{has_failed, stream_inner}, Pages.{Adds, paged_output}};
ghost use Rattle.yv_documents.specs.{Lines.{ended_line}, Steps.{cost_with, steps_line, weight_of}};

use itoa::Buffer;
use serde_json::Value;
use std::alloc::{AllocError, Global};
use std::io::Write;
use yv_base_streams::{Counted, Page};
use yv_json_lines::ValidationCost;
use yv_schema_tables::Schema;
use yv_validate::size;

/// The cost of the validation of a document against a schema, where so many steps were counted.
pub fn cost_of(schema: &Schema, document: &Value, steps: u64) -> ValidationCost
    // The document has at most 16,777,216 members and items.
    requires { data_size (view document.now) ≤ 16777216 }
    // It has the number of the document's members and items, these steps, and the most steps that a
    // validation of the document against the schema takes.
    ensures { result ≡ cost_with schema.now (view document.now) steps }
{
    weighed_cost(weight(schema), document, steps)
}

// The most steps for each member and item.
pub(crate) fn weight(schema: &Schema) -> u64
    ensures { result ≡ count_up (weight_of schema.now) }
{
    let measures = schema.measures();
    let sum = measures.m.saturating_add(measures.u);
    sum.saturating_add(measures.w).saturating_add(1)
}

// The cost where there are at most so many steps for each member and item.
pub(crate) fn weighed_cost(weight: u64, document: &Value, steps: u64) -> ValidationCost
    requires { data_size (view document.now) ≤ 16777216 }
    ensures size { result.size ≡ data_size (view document.now) }
    ensures steps { result.steps ≡ steps }
    ensures bound { result.bound ≡ count_up ((data_size (view document.now) + 1) * weight) }
{
    let size = size(document);
    let bound = (size + 1).saturating_mul(weight);
    ValidationCost { size, steps, bound }
}

/// The line of a cost.
pub fn steps_text(alloc: Global, cost: &ValidationCost) -> Result<String, AllocError>
    // It has the steps and the most steps, and ends with a line feed.
    ensures { IfOk result (λ text. string_bytes text ≡ ended_line (steps_line cost.now)) }
{
    let steps = cost.steps;
    let bound = cost.bound;
    format!(in alloc; "steps: {steps} of {bound}\n")
}

// Puts the line of a cost.
pub(crate) fn put_steps<W: Write>(page: &mut Page, writer: &mut Counted<W>, cost: &ValidationCost)
    ensures { Adds (ended_line (steps_line cost.now))
        (paged_output W.contents writer.old page.old)
        (paged_output W.contents writer.new page.new) }
{
    page.put(writer, b"steps: ");
    page.put(writer, Buffer::new().format(cost.steps).as_bytes());
    page.put(writer, b" of ");
    page.put(writer, Buffer::new().format(cost.bound).as_bytes());
    page.put(writer, b"\n");
}
