//! What helps a person to fix what was found of a document, or to name a module or a node that is
//! there. It is made after the outcome is written, so that it delays nothing.
ghost use Rattle.std.specs.Prelude.{◌≡◌, IfOk, option_map, string_bytes};
ghost use Rattle.yv_documents.specs.{Document.{document_view, document_text}, Notes.{NotesReading}};
ghost use Rattle.yv_run.specs.{Output.{printed_of, tree_printed}, PersonNotes.{NotesTree, faults_of}};

use crate::checks::CheckResult;
use crate::missing_module::missing_note;
use crate::print::{Body, Output};
use crate::status::Verdict;
use std::alloc::{AllocError, Global};
use yv_base_streams::Input;
use yv_documents::{DocumentSource, NoteBasis, document_note};
use yv_job::{Job, TreeOptions};
use yv_schema::Schema;
use yv_validate::Fault;

impl CheckResult {
    /// Why the document can't be read, of which these are the bytes, or lines on its repeated
    /// members and its first faults, with places in the file of this name.
    pub fn note<'n>(
        &'n self,
        alloc: Global,
        job: &'n Job,
        inputs: &'n [Input],
        schema: &'n Schema,
        name: &'n str,
        bytes: &'n [u8],
    ) -> Result<Option<String>, AllocError>
        ensures { document_view self.now.document ≡ document_text bytes.now
            → IfOk result
            (λ note. NotesReading job.now.explain name.now (document_view self.now.document)
            (faults_of self.now.output.body) bytes.now (option_map string_bytes note)) }
    {
        let basis = NoteBasis {
            job,
            inputs,
            schema,
        };
        let source = DocumentSource {
            name: name.as_bytes(),
            line: None,
            bytes,
        };
        let faults = self.output.body.faults();
        document_note(alloc, &basis, &source, &self.document, faults)
    }
}

impl Body<'_> {
    // The faults of which it has the lines.
    fn faults(&self) -> &[Fault]
        ensures { result.now ≡ faults_of self.now }
    {
        match self {
            Body::Text(_) | Body::Diagrams(_) | Body::Compiled(_) => &[],
            Body::Faults(faults, _) => faults.as_slice(),
        }
    }
}

/// Which module or node is missing of those that are to be drawn, and what there is instead; none,
/// if this output is of diagrams.
pub fn tree_note(
    alloc: Global,
    job: &Job,
    schema: &Schema,
    options: &TreeOptions,
    output: &Output<'_>,
) -> Result<Option<String>, AllocError>
    ensures { printed_of output.now ≡ tree_printed schema.now options.now
        → IfOk result (λ note. NotesTree schema.now options.now (option_map string_bytes note)) }
{
    match output.verdict {
        Verdict::Refused => Ok(Some(missing_note(alloc, schema, job, options)?)),
        Verdict::Clean | Verdict::BadInput => Ok(None),
    }
}
