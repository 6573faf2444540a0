//! What is said of a document.
ghost use Rattle.std.specs.Prelude.{◌≡◌, ◌≤◌, [], IfOk, option_map, string_bytes};
ghost use Rattle.serde_json.specs.{Data.{depth}, View.{view}};
ghost use Rattle.yv_validate.specs.{Faults.{faults as all_faults}, Size.{size}};
ghost use Rattle.yv_documents.specs.{Document.{MeetsLimits, document_view, document_text}, DocumentLines.{faults_in}, Steps.{cost_if}, VerdictText.{checked_text, with_end}};
ghost use Rattle.yv_run.specs.{Output.{cost_end, data_printed, faults_verdict, printed_of, reading_printed}, PersonNotes.{faults_of}};

use crate::print::{Body, Output};
use crate::status::Verdict;
use serde_json::Value;
use std::alloc::{AllocError, Global};
use yv_documents::{Document, cost_of, read_document, steps_text};
use yv_schema::Schema;
use yv_text_statement::Kind;
use yv_validate::{Fault, validate};

/// The result of checking a document, and the document that its bytes are: what a note on it is
/// made of.
#[derive(Drop)]
pub struct CheckResult {
    pub output: Output<'static>,
    pub document: Document,
}

/// What is said of a document of these bytes, which is checked as one of this kind, and what its
/// validation cost, where measures are asked for.
pub fn of_data(
    alloc: Global,
    schema: &Schema,
    bytes: &[u8],
    kind: Kind,
    measures: bool,
) -> Result<CheckResult, AllocError>
    // The document's faults against the schema in order, as a document of this kind, or that it is
    // valid, too large or not JSON.
    ensures prints { IfOk result
        (λ c. printed_of c.output ≡ data_printed measures kind schema.now bytes.now) }
    // The document is what these bytes are.
    ensures document { IfOk result (λ c. document_view c.document ≡ document_text bytes.now) }
    // The faults are those of the definition for it.
    ensures faults { IfOk result
        (λ c. faults_of c.output.body ≡ faults_in kind schema.now (document_text bytes.now)) }
{
    let document = read_document(alloc, bytes)?;
    let output = of_document(alloc, schema, &document, kind, measures)?;
    Ok(CheckResult { output, document })
}

// What is said of a document, which is checked as one of this kind.
fn of_document(
    alloc: Global,
    schema: &Schema,
    document: &Document,
    kind: Kind,
    measures: bool,
) -> Result<Output<'static>, AllocError>
    requires { MeetsLimits document.now }
    ensures prints { IfOk result
        (λ o. printed_of o
        ≡ reading_printed measures kind schema.now (document_view document.now)) }
    ensures faults { IfOk result
        (λ o. faults_of o.body ≡ faults_in kind schema.now (document_view document.now)) }
{
    match document {
        Document::TooLarge => bad_input(alloc, "data: too large\n"),
        Document::NotJson => bad_input(alloc, "data: not JSON\n"),
        Document::Json(json) => {
            let (faults, end) = find_faults(alloc, schema, json, kind, measures)?;
            Ok(of_faults(faults, end))
        }
    }
}

// The faults of a document, and the line of what its validation cost, where measures are asked for.
fn find_faults(
    alloc: Global,
    schema: &Schema,
    document: &Value,
    kind: Kind,
    measures: bool,
) -> Result<(Vec<Fault>, Option<String>), AllocError>
    requires size { size (view document.now) ≤ 16777216 }
    requires nests { depth (view document.now) ≤ 127 }
    ensures faults { IfOk result
        (λ f. f.0.items ≡ all_faults kind schema.now (view document.now)) }
    ensures end { IfOk result
        (λ f. option_map string_bytes f.1
        ≡ cost_end (cost_if measures kind schema.now (view document.now))) }
{
    let report = validate(alloc, schema, document, kind)?;
    if !measures {
        return Ok((report.faults, None));
    }
    let cost = cost_of(schema, document, report.steps);
    Ok((report.faults, Some(steps_text(alloc, &cost)?)))
}

// What is said of a document that can't be read.
fn bad_input(alloc: Global, text: &str) -> Result<Output<'static>, AllocError>
    ensures prints { IfOk result
        (λ o. printed_of o ≡ record { text = text.now; verdict = Verdict.BadInput }) }
    ensures faults { IfOk result (λ o. faults_of o.body ≡ []) }
{
    let text = String::from_str(alloc, text)?;
    Ok(Output {
        body: Body::Text(text),
        verdict: Verdict::BadInput,
    })
}

// That a document is valid, or its faults, and then this text.
fn of_faults(faults: Vec<Fault>, end: Option<String>) -> Output<'static>
    ensures prints { printed_of result ≡ record {
      text = with_end (checked_text faults.items) (option_map string_bytes end);
      verdict = faults_verdict faults.items;
    } }
    ensures faults { faults_of result.body ≡ faults.items }
{
    let verdict = verdict_on(faults.as_slice());
    Output {
        body: Body::Faults(faults, end),
        verdict,
    }
}

// The verdict on a document with these faults.
fn verdict_on(faults: &[Fault]) -> Verdict
    ensures { result ≡ faults_verdict faults.now }
{
    if faults.is_empty() {
        Verdict::Clean
    } else {
        Verdict::Refused
    }
}
