//! A run over many documents: the files are compiled once, and then each document is answered
//! before the next is fetched.
ghost use Rattle.std.specs.Prelude.{◌≡◌, ◌↔◌, ◌⊎◌, true, map, length, IfErr, IfOk, IsErrOf, OnErr, None, Ok, option_map, string_bytes};
ghost use Rattle.yv_job.specs.Jobs.{HasFiles, HasLimit, task_of};
ghost use Rattle.yv_text_statement.specs.Selection.{selected_of};
ghost use Rattle.yv_base_streams.specs.{Stream.{stream_inner, has_failed, IsFresh, FailsOnceAtMost}, Files.{file_of}};
ghost use Rattle.yv_run.specs.{Batches.{AnswersAll, IsFound, RunsAll, StopsBefore}, Compiles.{AreRefused, GiveSchema, HavePattern}, Notes.{NotesPattern}};

use crate::answers::write_refusal;
use crate::compilation::compile_files;
use crate::status::Status;
use crate::whole_run::{Halt, Holdings, RunEnd, pattern_note};
use std::alloc::Global;
use std::io::Write;
use yv_base_streams::{Counted, Input};
use yv_batch::{Documents, answer_all};
use yv_documents::{DocumentAnswer, NoteSink};
use yv_job::Job;
use yv_schema::Schema;
use yv_text_statement::Stop;

/// Compiles the files of a job, and writes the refusal's line; or, if they give a schema, answers
/// all documents of the supply with it, and writes how many of them are valid. Documents are
/// validated whatever the job's command is. The note on a document is shown after its lines were
/// written; the run's own note is on a refusal or on a pattern that isn't built.
pub fn run_all<D: Documents, N: NoteSink, W: Write>(
    alloc: Global,
    job: &Job,
    inputs: &[Input],
    documents: &mut D,
    notes: &mut N,
    writer: &mut Counted<W>,
) -> RunEnd
    // The job has 1 to 256 files.
    requires files { HasFiles job.now }
    // Its limit is within 1 to 1,000,000.
    requires limit { HasLimit job.now }
    // There is an input for each file.
    requires each { length inputs.now ≡ length job.now.files.items }
    // The writer is fresh.
    requires writer { IsFresh writer.old }
    // Unless want of memory or a pattern stopped the run before the first document: the files are
    // refused, the refusal was written, and the note is about it; or the documents were answered by
    // their schema, in order, and the status is that of the worst of them.
    ensures writes { StopsBefore result.status
        ⊎ RunsAll (task_of job.now) (map file_of inputs.now) result
        (D.is_over documents.new) (D.left documents.old) (D.left documents.new)
        (W.contents (stream_inner writer.old)) (W.contents (stream_inner writer.new)) }
    // If the run was stopped then, nothing was written.
    ensures rest { StopsBefore result.status → writer.new ≡ writer.old }
    // And nothing was fetched.
    ensures waits { StopsBefore result.status → documents.new ≡ documents.old }
    // Nothing is fetched unless the files give a schema.
    ensures fetches_on { GiveSchema (selected_of job.now.selection) job.now.limit
        (map file_of inputs.now) ⊎ (documents.new ≡ documents.old) }
    // If the status is `Clean`, `Refused` or `BadInput` and the files are not refused, the supply
    // said that there are no more.
    ensures over { IsFound result.status
        → AreRefused (selected_of job.now.selection) job.now.limit (map file_of inputs.now)
        ⊎ (D.is_over documents.new ≡ true) }
    // `WriteFault` is returned exactly if the writer has failed.
    ensures write_fault { result.status ≡ Status.WriteFault ↔ (has_failed writer.new ≡ true) }
    // At most one call of the writer failed in a way that is not tolerated, and none came after it.
    ensures writer_once { FailsOnceAtMost writer.new }
    // `PatternBuild` is returned only if the files have a pattern and nothing is refused that comes
    // before the types.
    ensures builds { result.status ≡ Status.PatternBuild
        → HavePattern (selected_of job.now.selection) job.now.limit (map file_of inputs.now) }
    // Then a note shows a pattern of the files.
    ensures note_on_pattern { result.status ≡ Status.PatternBuild
        → IfOk result.note
        (λ note. NotesPattern (map file_of inputs.now) (option_map string_bytes note)) }
    // There is no note where memory ran out.
    ensures no_note { result.status ≡ Status.NoMemory → result.note ≡ Ok None }
{
    match run_batch(alloc, job, inputs, documents, notes, writer) {
        Ok(ended) => ended,
        Err(Halt::PatternBuild) => RunEnd {
            status: Status::PatternBuild,
            note: pattern_note(alloc, inputs),
            holdings: Holdings::none(),
        },
        Err(Halt::NoMemory) => RunEnd::stop_with(Status::NoMemory),
        Err(Halt::Read) => unreachable!(),
    }
}

// A run over documents that nothing stops before the first.
fn run_batch<D: Documents, N: NoteSink, W: Write>(
    alloc: Global,
    job: &Job,
    inputs: &[Input],
    documents: &mut D,
    notes: &mut N,
    writer: &mut Counted<W>,
) -> Result<RunEnd, Halt>
    requires { IsFresh writer.old }
    ensures runs { IfOk result
        (λ e. RunsAll (task_of job.now) (map file_of inputs.now) e (D.is_over documents.new)
        (D.left documents.old) (D.left documents.new) (W.contents (stream_inner writer.old))
        (W.contents (stream_inner writer.new))) }
    ensures ends { IfOk result (λ e. StopsBefore e.status → ⊥) }
    ensures write_fault { IfOk result
        (λ e. e.status ≡ Status.WriteFault ↔ (has_failed writer.new ≡ true)) }
    ensures writer_once { FailsOnceAtMost writer.new }
    ensures rest { OnErr result (writer.new ≡ writer.old) }
    ensures waits { OnErr result (documents.new ≡ documents.old) }
    ensures fetches_on { GiveSchema (selected_of job.now.selection) job.now.limit
        (map file_of inputs.now) ⊎ (documents.new ≡ documents.old) }
    ensures never_read { IsErrOf result Halt.Read → ⊥ }
    ensures builds { IsErrOf result Halt.PatternBuild
        → HavePattern (selected_of job.now.selection) job.now.limit (map file_of inputs.now) }
{
    match compile_files(alloc, inputs, &job.selection, job.limit) {
        Ok(schema) => answer_documents(alloc, job, inputs, schema, documents, notes, writer),
        Err(Stop::Fault(refusal)) => write_refusal(alloc, job, inputs, &refusal, writer),
        Err(Stop::PatternBuild) => Err(Halt::PatternBuild),
        Err(Stop::NoMemory) => Err(Halt::NoMemory),
    }
}

// Answers all documents by a schema.
fn answer_documents<D: Documents, N: NoteSink, W: Write>(
    alloc: Global,
    job: &Job,
    inputs: &[Input],
    schema: Schema,
    documents: &mut D,
    notes: &mut N,
    writer: &mut Counted<W>,
) -> Result<RunEnd, Halt>
    requires { IsFresh writer.old }
    ensures answers { IfOk result
        (λ e. AnswersAll job.now.output job.now.kind schema e.status (D.is_over documents.new)
        (D.left documents.old) (D.left documents.new) (W.contents (stream_inner writer.old))
        (W.contents (stream_inner writer.new))) }
    ensures note { IfOk result (λ e. e.note ≡ Ok None) }
    ensures ends { IfOk result (λ e. StopsBefore e.status → ⊥) }
    ensures write_fault { IfOk result
        (λ e. e.status ≡ Status.WriteFault ↔ (has_failed writer.new ≡ true)) }
    ensures writer_once { FailsOnceAtMost writer.new }
    ensures rest { OnErr result (writer.new ≡ writer.old) }
    ensures waits { OnErr result (documents.new ≡ documents.old) }
    ensures no_memory { IfErr result (λ h. h ≡ Halt.NoMemory) }
{
    let end = {
        let mut answer = DocumentAnswer::new(alloc, &schema, job, inputs, notes)?;
        answer_all(alloc, documents, &mut answer, writer)
    };
    Ok(RunEnd {
        status: Status::of_batch(end),
        note: Ok(None),
        holdings: Holdings::of_schema(schema),
    })
}
