//! The answer to documents: what is written of each, and its note.
ghost use Rattle.std.specs.Prelude.{◌≡◌, IfOk};
ghost use Rattle.yv_documents.specs.{AskedText.{asked_text, asked_total}, DocumentLines.{asked_level}};

use crate::findings::find;
use crate::measured_validator::MeasuredValidator;
use crate::note_sink::{NoteSink, Notes};
use crate::notes::{DocumentSource, NoteBasis};
use crate::reply::{Reply, write_reply};
use std::alloc::{AllocError, Global};
use std::io::Write;
use yv_base_streams::{Counted, Input, Page};
use yv_batch::{Answer, Content, Fetched, Level, Tally, put_total_line};
use yv_job::{Job, OutputForm, OutputOptions};
use yv_json_lines::{DocumentVerdict, put_run_line};
use yv_schema_tables::Schema;
use yv_validate::Kind;

/// The answer to documents that are validated against a schema. What is to be written of each is
/// written and passed on; then its note is shown. The note is no part of the answer: want of memory
/// for it changes nothing.
#[derive(Drop)]
pub struct DocumentAnswer<'a, N> {
    validator: MeasuredValidator<'a>,
    kind: Kind,
    output: OutputOptions,
    notes: Notes<'a, N>,
}

impl<'a, N> DocumentAnswer<'a, N> {
    ghost use Rattle.yv_documents.specs.AnswerText.{answer_level, answer_text, answer_total};

    /// The answer to documents of this schema, as the job asks, of which these are the files. The
    /// tables of the schema that serve all documents are made here.
    pub fn new(
        alloc: Global,
        schema: &'a Schema,
        job: &'a Job,
        inputs: &'a [Input],
        notes: &'a mut N,
    ) -> Result<DocumentAnswer<'a, N>, AllocError>
        // What is written of a document has the job's form, and says what a document of the job's
        // kind is against this schema.
        ensures text { IfOk result
            (λ a. answer_text a ≡ asked_text job.now.output job.now.kind schema.now) }
        // What is written at the end has the job's form.
        ensures total { IfOk result (λ a. answer_total a ≡ asked_total job.now.output.form) }
        // How good a document is, is said of the job's kind of document against this schema.
        ensures level { IfOk result
            (λ a. answer_level a ≡ asked_level job.now.kind schema.now) }
    {
        let validator = MeasuredValidator::new(alloc, schema)?;
        Ok(DocumentAnswer {
            validator,
            kind: job.kind,
            output: job.output,
            notes: Notes {
                basis: NoteBasis {
                    job,
                    inputs,
                    schema,
                },
                sink: notes,
            },
        })
    }
}

impl<N: NoteSink> Answer for DocumentAnswer<'_, N> {
    ghost use Rattle.yv_documents.specs.AnswerText.{answer_level, answer_text, answer_total};

    ghost text = { answer_text };

    ghost total = { answer_total };

    ghost level = { answer_level };

    fn write<W: Write>(
        &mut self,
        alloc: Global,
        name: &[u8],
        document: &Fetched,
        writer: &mut Counted<W>,
    ) -> Result<Option<Level>, AllocError> {
        let line = document.line;
        let OutputOptions { form, measures } = self.output;
        match &document.content {
            Content::Read(bytes) => {
                let bytes = bytes.as_slice();
                let findings = find(alloc, &self.validator, self.kind, measures, bytes)?;
                let level = write_reply(writer, form, name, line, &findings.reply());
                let source = DocumentSource { name, line, bytes };
                self.notes.show(alloc, &source, &findings);
                Ok(level)
            }
            Content::Unread => {
                let reply = Reply::without_faults(DocumentVerdict::CannotRead);
                Ok(write_reply(writer, form, name, line, &reply))
            }
            Content::NoRoom => {
                let reply = Reply::without_faults(DocumentVerdict::OutOfMemory);
                Ok(write_reply(writer, form, name, line, &reply))
            }
        }
    }

    fn put_total<W: Write>(&self, page: &mut Page, writer: &mut Counted<W>, tally: &Tally) {
        match self.output.form {
            OutputForm::Text => put_total_line(page, writer, tally),
            OutputForm::Json => put_run_line(page, writer, tally.count, tally.valid),
        }
    }
}
