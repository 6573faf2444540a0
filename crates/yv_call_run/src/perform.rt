//! Runs over what is given.
ghost use Rattle.std.specs.Prelude.{◌≡◌, ℕ, List, length, map, string_bytes};
ghost use Rattle.yv_base_streams.specs.{Files.{file_of}, Stream.{stream_inner, IsFresh}};
ghost use Rattle.yv_call.specs.{Documents.{AreNamed}, Fits.{source_names}, Plans.{IsWorkFor, task_asked}, ShelfDocuments.{document_of}, Supplies.{documents_given, kind_of}};
ghost use Rattle.yv_call_run.specs.{InnerOutcomes.{Outcome}, Performs.{DoesAction, RunsBatch, RunsCommand, RunsRules, document_read}};
ghost use Rattle.yv_job.specs.{Jobs.{HasFiles, HasLimit, task_of}, Requests.{RequestAsked, rules_of}};

use crate::sink::NoteText;
use std::alloc::Global;
use std::io::Write;
use yv_base_streams::{Counted, Input};
use yv_call::{Batch, DocumentShelf, Work, shelf_documents};
use yv_job::Job;
use yv_lint::Rules;
use yv_run::{RunEnd, run_all, run_lint, run_with_note};

/// A run that ended, and the notes on documents.
#[derive(Drop)]
pub(crate) struct Performance {
    pub(crate) run: RunEnd,
    pub(crate) notes: String,
}

// Runs the command of a job over a document.
fn run_command<W: Write>(
    alloc: Global,
    job: &Job,
    inputs: &[Input],
    document: &[u8],
    writer: &mut Counted<W>,
) -> RunEnd
    requires files { HasFiles job.now }
    requires limit { HasLimit job.now }
    requires each { length inputs.now ≡ length job.now.files.items }
    requires writer { IsFresh writer.old }
    ensures { Outcome result.status (W.contents (stream_inner writer.old))
        (W.contents (stream_inner writer.new))
        (RunsCommand (task_of job.now) (map file_of inputs.now) document.now result
        (W.contents (stream_inner writer.old)) (W.contents (stream_inner writer.new))) }
{
    let mut reader = Counted::new(document);
    run_with_note(alloc, job, inputs, &mut reader, writer)
}

// Compiles the files of a job, and answers the documents of a batch, which are on a shelf.
fn run_batch<W: Write>(
    alloc: Global,
    job: &Job,
    inputs: &[Input],
    batch: Batch,
    shelf: DocumentShelf<'_>,
    writer: &mut Counted<W>,
) -> Performance
    requires files { HasFiles job.now }
    requires limit { HasLimit job.now }
    requires each { length inputs.now ≡ length job.now.files.items }
    requires writer { IsFresh writer.old }
    ensures { (documents : List (List ℕ))
        → AreNamed (document_of shelf.entry) (map string_bytes batch.names.items) documents
        → Outcome result.run.status (W.contents (stream_inner writer.old))
        (W.contents (stream_inner writer.new))
        (RunsBatch (task_of job.now) (map file_of inputs.now)
        (documents_given (kind_of batch.each) (map string_bytes batch.names.items) documents)
        result.run (W.contents (stream_inner writer.old)) (W.contents (stream_inner writer.new))) }
{
    let mut notes = NoteText::new(alloc, batch.has_labels);
    let mut documents = shelf_documents(batch.each, batch.names, shelf);
    let run = run_all(alloc, job, inputs, &mut documents, &mut notes, writer);
    Performance {
        run,
        notes: notes.into_text(),
    }
}

// Compiles the files of a job, and lists the findings of rules in all of them.
fn run_rules<W: Write>(
    alloc: Global,
    job: &Job,
    inputs: &[Input],
    rules: &Rules,
    writer: &mut Counted<W>,
) -> RunEnd
    requires files { HasFiles job.now }
    requires limit { HasLimit job.now }
    requires each { length inputs.now ≡ length job.now.files.items }
    requires writer { IsFresh writer.old }
    ensures { Outcome result.status (W.contents (stream_inner writer.old))
        (W.contents (stream_inner writer.new))
        (RunsRules (task_of job.now) (map file_of inputs.now) (rules_of rules.now) result
        (W.contents (stream_inner writer.old)) (W.contents (stream_inner writer.new))) }
{
    run_lint(alloc, job, inputs, rules, job.files.len(), writer)
}

// The only document of a command, or nothing.
fn first_document<'a>(documents: &[&'a [u8]]) -> &'a [u8]
    ensures { result.now ≡ document_read (map (λ d. d.now) documents.now) }
{
    match documents {
        [document, ..] => document,
        [] => &[],
    }
}

/// Does what is planned with what is given.
pub(crate) fn perform<W: Write>(
    alloc: Global,
    job: &Job,
    work: Work,
    shelf: DocumentShelf<'_>,
    inputs: &[Input],
    documents: &[&[u8]],
    writer: &mut Counted<W>,
) -> Performance
    requires files { HasFiles job.now }
    requires limit { HasLimit job.now }
    requires each { length inputs.now ≡ length job.now.files.items }
    requires writer { IsFresh writer.old }
    ensures { (asked : RequestAsked) → task_of job.now ≡ task_asked asked → IsWorkFor asked work
        → AreNamed (document_of shelf.entry) (source_names asked.action)
        (map (λ d. d.now) documents.now)
        → Outcome result.run.status (W.contents (stream_inner writer.old))
        (W.contents (stream_inner writer.new))
        (DoesAction asked.action asked (map file_of inputs.now) (map (λ d. d.now) documents.now)
        result.run (W.contents (stream_inner writer.old)) (W.contents (stream_inner writer.new))) }
{
    match work {
        Work::Run => {
            let run = run_command(alloc, job, inputs, first_document(documents), writer);
            Performance {
                run,
                notes: String::new(alloc),
            }
        }
        Work::ValidateAll(batch) => run_batch(alloc, job, inputs, batch, shelf, writer),
        Work::Lint(rules) => {
            let run = run_rules(alloc, job, inputs, &rules, writer);
            Performance {
                run,
                notes: String::new(alloc),
            }
        }
    }
}
