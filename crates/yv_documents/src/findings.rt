//! What is found of a document.
ghost use Rattle.std.specs.Prelude.{◌≡◌, ◌≤◌, [], IfOk, None, length};
ghost use Rattle.serde_json.specs.View.{view};
ghost use Rattle.yv_validate.specs.Size.{size as data_size};
ghost use Rattle.yv_documents.specs.{Document.{MeetsLimits, document_view, document_text}, DocumentLines.{faults_in}, DocumentResults.{reading_verdict}, Steps.{cost_if, cost_with}, InnerReply.{cost_said}};

use crate::document::{Document, read_document};
use crate::measured_validator::MeasuredValidator;
use crate::reply::Reply;
use serde_json::Value;
use std::alloc::{AllocError, Global};
use yv_json_lines::{DocumentVerdict, ValidationCost};
use yv_validate::{Fault, Kind};

// A document, its faults, where it could be validated, and the verdict on it.
#[derive(Drop)]
pub(crate) struct Findings {
    pub(crate) document: Document,
    pub(crate) faults: Vec<Fault>,
    verdict: DocumentVerdict,
}

// What a document of these bytes is, its faults as one of this kind, and the verdict, which has the
// cost if measures are asked for.
pub(crate) fn find(
    alloc: Global,
    validator: &MeasuredValidator<'_>,
    kind: Kind,
    measures: bool,
    bytes: &[u8],
) -> Result<Findings, AllocError>
    ensures document { IfOk result (λ f. document_view f.document ≡ document_text bytes.now) }
    ensures faults { IfOk result
        (λ f. f.faults.items ≡ faults_in kind validator.now (document_text bytes.now)) }
    ensures verdict { IfOk result
        (λ f. f.verdict ≡ reading_verdict measures kind validator.now (document_text bytes.now)) }
{
    let document = read_document(alloc, bytes)?;
    let (faults, verdict) = judge(alloc, validator, kind, measures, &document)?;
    Ok(Findings {
        document,
        faults,
        verdict,
    })
}

// The faults of a document as one of this kind, and the verdict on it.
fn judge(
    alloc: Global,
    validator: &MeasuredValidator<'_>,
    kind: Kind,
    measures: bool,
    document: &Document,
) -> Result<(Vec<Fault>, DocumentVerdict), AllocError>
    requires { MeetsLimits document.now }
    ensures faults { IfOk result
        (λ j. j.0.items ≡ faults_in kind validator.now (document_view document.now)) }
    ensures verdict { IfOk result
        (λ j. j.1 ≡ reading_verdict measures kind validator.now (document_view document.now)) }
{
    match document {
        Document::TooLarge => Ok((Vec::new(alloc), DocumentVerdict::TooLarge)),
        Document::NotJson => Ok((Vec::new(alloc), DocumentVerdict::NotJson)),
        Document::Json(json) => {
            let report = validator.validate(alloc, json, kind)?;
            let verdict = DocumentVerdict::Validated {
                faults: report.faults.len() as u64,
                cost: cost_if(validator, measures, json, report.steps),
            };
            Ok((report.faults, verdict))
        }
    }
}

// The cost of a validation of so many steps, if measures are asked for.
fn cost_if(
    validator: &MeasuredValidator<'_>,
    measures: bool,
    document: &Value,
    steps: u64,
) -> Option<ValidationCost>
    requires { data_size (view document.now) ≤ 16777216 }
    ensures { result ≡ cost_said measures (cost_with validator.now (view document.now) steps) }
{
    if measures {
        Some(validator.cost(document, steps))
    } else {
        None
    }
}

impl Findings {
    // What is said of the document.
    pub(crate) fn reply(&self) -> Reply<'_>
        ensures faults { result.faults.now ≡ self.now.faults.items }
        ensures verdict { result.verdict ≡ self.now.verdict }
    {
        Reply {
            faults: self.faults.as_slice(),
            verdict: self.verdict,
        }
    }
}
