//! A run over files that were read: what it writes, and how it ends. The note for a person is made
//! only when all is written.
ghost use Rattle.std.specs.Prelude.{◌≡◌, ◌↔◌, ◌⊎◌, true, ℕ, map, length, IfOk, IsErrOf, OnErr, None, Ok, option_map, string_bytes};
ghost use Rattle.yv_job.specs.Jobs.{HasFiles, HasLimit, task_of};
ghost use Rattle.yv_text_statement.specs.Selection.{ModuleChoice, selected_of};
ghost use Rattle.yv_base_streams.specs.{Stream.{stream_inner, has_failed, IsFresh, FailsOnceAtMost, TakesAtMost}, Files.{file_of}};
ghost use Rattle.yv_run.specs.{declared.whole_run.Halt.TheVariants.{NoMemory}, Compiles.{HavePattern}, Output.{WantsData, IsStopped}, Notes.{NotesPattern, RunsWithNote}, Runs.{Runs, most_read}};

use crate::answers::{write_answer, write_refusal};
use crate::checks::CheckResult;
use crate::compilation::compile_files;
use crate::pattern_laws::a_pattern_of_a_type_is_listed;
use crate::status::Status;
use std::alloc::{AllocError, Global};
use std::io::{Read, Write};
use thiserror::Error;
use yv_base_streams::{Counted, Input};
use yv_job::Job;
use yv_note_refusals::unbuilt_pattern;
use yv_schema::Schema;
use yv_source::laws::{a_bad_file_is_refused_once, a_text_is_spelled_or_refused_once};
use yv_text_statement::Stop;

/// Why there is nothing to write.
#[derive(Debug, Drop, Error)]
pub enum Halt {
    #[error("out of memory")]
    NoMemory,
    #[error("pattern not built")]
    PatternBuild,
    #[error("cannot read")]
    Read,
}

impl From<AllocError> for Halt {
    ghost from_gives = { λ _ h. h ≡ NoMemory };

    fn from(_error: AllocError) -> Halt {
        Halt::NoMemory
    }
}

/// The holdings of a run when it ends: the schema, and the document with what was found in it. To
/// drop it takes time for each node and each value, so a program that ends then may forget it.
#[derive(Drop)]
pub struct Holdings {
    schema: Option<Schema>,
    check: Option<CheckResult>,
}

impl Holdings {
    // Nothing.
    pub(crate) fn none() -> Holdings {
        Holdings {
            schema: None,
            check: None,
        }
    }

    // A schema.
    pub(crate) fn of_schema(schema: Schema) -> Holdings {
        Holdings {
            schema: Some(schema),
            check: None,
        }
    }

    // A schema, and what was said of a document.
    pub(crate) fn of_check(schema: Schema, check: CheckResult) -> Holdings {
        Holdings {
            schema: Some(schema),
            check: Some(check),
        }
    }
}

/// How a run ended, and what helps a person to fix what was found.
#[derive(Drop)]
pub struct RunEnd {
    pub status: Status,
    /// If the files were refused, the place and the cause; if a pattern isn't built, its place; if
    /// there is no such module or node, its name and what there is instead; if the document is not
    /// JSON, the place and why; if it is too large, of what it has too many; if it has faults,
    /// sentences on the first of them. None otherwise. An error if memory ran out when all was
    /// written.
    pub note: Result<Option<String>, AllocError>,
    pub holdings: Holdings,
}

impl RunEnd {
    // A run that was stopped.
    pub(crate) fn stop_with(status: Status) -> RunEnd
        ensures status { result.status ≡ status }
        ensures note { result.note ≡ Ok None }
    {
        RunEnd::stop_with_note(status, Ok(None))
    }

    /// A run that was stopped before it held anything, with this note.
    pub fn stop_with_note(status: Status, note: Result<Option<String>, AllocError>) -> RunEnd
        // The status is this one.
        ensures status { result.status ≡ status }
        // The note is this one.
        ensures note { result.note ≡ note }
    {
        RunEnd {
            status,
            note,
            holdings: Holdings::none(),
        }
    }
}

/// Compiles the files of a job, and writes the outcome: the refusal's line, or how many nodes the
/// schema has, or tree diagrams of its modules, or, where the job is to check a document,
/// what is wrong with what the reader gives, or that it is valid. A refusal and the number of nodes
/// have the form that the job asks for; all else is text: `run_all` writes what is wrong with
/// documents as JSON. After `WriteFault` the writer holds the front of what was to be written;
/// after `NoMemory`, `PatternBuild` and `ReadFault` nothing was written.
pub fn run<R: Read, W: Write>(
    alloc: Global,
    job: &Job,
    inputs: &[Input],
    reader: &mut Counted<R>,
    writer: &mut Counted<W>,
) -> Status
    // The job has 1 to 256 files.
    requires files { HasFiles job.now }
    // Its limit is within 1 to 1,000,000.
    requires limit { HasLimit job.now }
    // There is an input for each file.
    requires each { length inputs.now ≡ length job.now.files.items }
    // The reader is fresh.
    requires reader { IsFresh reader.old }
    // The writer is fresh.
    requires writer { IsFresh writer.old }
    // Unless want of memory, a pattern or the reader stopped the run: of the output of the job's
    // task with these files, and of the bytes that the reader gave, all was appended to what the
    // writer held, and the status is that of the output, or, after `WriteFault`, the first bytes
    // were. Those of the same bytes on which the output depends are consumed from the reader, and
    // no others; none are if no document is needed.
    ensures writes { IsStopped result
        ⊎ Runs (task_of job.now) (map file_of inputs.now) result
        (R.remaining (stream_inner reader.old)) (R.remaining (stream_inner reader.new))
        (W.contents (stream_inner writer.old)) (W.contents (stream_inner writer.new)) }
    // If the run was stopped, nothing was written.
    ensures rest { IsStopped result → writer.new ≡ writer.old }
    // Nothing is read unless the job needs a document and the files are not refused.
    ensures reads_on { WantsData (task_of job.now) (map file_of inputs.now)
        ⊎ (reader.new ≡ reader.old) }
    // `ReadFault` is returned exactly if the reader has failed.
    ensures read_fault { result ≡ Status.ReadFault ↔ (has_failed reader.new ≡ true) }
    // `WriteFault` is returned exactly if the writer has failed.
    ensures write_fault { result ≡ Status.WriteFault ↔ (has_failed writer.new ≡ true) }
    // At most 16,777,217 bytes are consumed from the reader, whatever is returned.
    ensures takes { TakesAtMost most_read (R.remaining (stream_inner reader.old))
        (R.remaining (stream_inner reader.new)) }
    // At most one call of the reader failed in a way that is not tolerated, and none came after it.
    ensures reader_once { FailsOnceAtMost reader.new }
    // The same of the writer.
    ensures writer_once { FailsOnceAtMost writer.new }
    // `PatternBuild` is returned only if the files have a pattern and nothing is refused that comes
    // before the types.
    ensures builds { result ≡ Status.PatternBuild
        → HavePattern (selected_of job.now.selection) job.now.limit (map file_of inputs.now) }
{
    run_with_note(alloc, job, inputs, reader, writer).status
}

/// Does what `run` does, and adds a note that helps a person: why the files are refused, or which
/// of their patterns isn't built, or that there is no such module or node to draw, or why the
/// document is not JSON, or what is wrong with it. It is made when all is written, so that a note
/// that takes long delays nothing, and want of memory for it changes neither what is written nor
/// the status.
pub fn run_with_note<R: Read, W: Write>(
    alloc: Global,
    job: &Job,
    inputs: &[Input],
    reader: &mut Counted<R>,
    writer: &mut Counted<W>,
) -> RunEnd
    // The job has 1 to 256 files.
    requires files { HasFiles job.now }
    // Its limit is within 1 to 1,000,000.
    requires limit { HasLimit job.now }
    // There is an input for each file.
    requires each { length inputs.now ≡ length job.now.files.items }
    // The reader is fresh.
    requires reader { IsFresh reader.old }
    // The writer is fresh.
    requires writer { IsFresh writer.old }
    // Unless the run was stopped, it is as `run` says, and the note is about what was written.
    ensures writes { IsStopped result.status
        ⊎ RunsWithNote (task_of job.now) (map file_of inputs.now) result
        (R.remaining (stream_inner reader.old))
        (R.remaining (stream_inner reader.new)) (W.contents (stream_inner writer.old))
        (W.contents (stream_inner writer.new)) }
    // If the run was stopped, nothing was written.
    ensures rest { IsStopped result.status → writer.new ≡ writer.old }
    // Nothing is read unless the job needs a document and the files are not refused.
    ensures reads_on { WantsData (task_of job.now) (map file_of inputs.now)
        ⊎ (reader.new ≡ reader.old) }
    // `ReadFault` is returned exactly if the reader has failed.
    ensures read_fault { result.status ≡ Status.ReadFault ↔ (has_failed reader.new ≡ true) }
    // `WriteFault` is returned exactly if the writer has failed.
    ensures write_fault { result.status ≡ Status.WriteFault ↔ (has_failed writer.new ≡ true) }
    // At most 16,777,217 bytes are consumed from the reader, whatever is returned.
    ensures takes { TakesAtMost most_read (R.remaining (stream_inner reader.old))
        (R.remaining (stream_inner reader.new)) }
    // At most one call of the reader failed in a way that is not tolerated, and none came after it.
    ensures reader_once { FailsOnceAtMost reader.new }
    // The same of the writer.
    ensures writer_once { FailsOnceAtMost writer.new }
    // `PatternBuild` is returned only if the files have a pattern and nothing is refused that comes
    // before the types.
    ensures builds { result.status ≡ Status.PatternBuild
        → HavePattern (selected_of job.now.selection) job.now.limit (map file_of inputs.now) }
    // Then a note shows a pattern of the files.
    ensures note_on_pattern { result.status ≡ Status.PatternBuild
        → IfOk result.note
        (λ note. NotesPattern (map file_of inputs.now) (option_map string_bytes note)) }
    // There is no note where memory ran out or the reader failed.
    ensures no_note { (result.status ≡ Status.NoMemory) ⊎ (result.status ≡ Status.ReadFault)
        → result.note ≡ Ok None }
{
    match run_job(alloc, job, inputs, reader, writer) {
        Ok(ended) => ended,
        Err(Halt::NoMemory) => RunEnd::stop_with(Status::NoMemory),
        Err(Halt::PatternBuild) => RunEnd {
            status: Status::PatternBuild,
            note: pattern_note(alloc, inputs),
            holdings: Holdings::none(),
        },
        Err(Halt::Read) => RunEnd::stop_with(Status::ReadFault),
    }
}

/// What helps a person to fix a pattern that isn't built.
pub(crate) fn pattern_note(alloc: Global, inputs: &[Input]) -> Result<Option<String>, AllocError>
    ensures { (choice : ModuleChoice) (limit : ℕ)
        → HavePattern choice limit (map file_of inputs.now)
        → IfOk result
        (λ note. NotesPattern (map file_of inputs.now) (option_map string_bytes note)) }
{
    a_bad_file_is_refused_once();
    a_text_is_spelled_or_refused_once();
    a_pattern_of_a_type_is_listed();
    unbuilt_pattern(alloc, inputs)
}

// A run that nothing stops, up to its note.
#[tactic(auto, using(crate::proofs::RunLemmas::takes_none))]
fn run_job<R: Read, W: Write>(
    alloc: Global,
    job: &Job,
    inputs: &[Input],
    reader: &mut Counted<R>,
    writer: &mut Counted<W>,
) -> Result<RunEnd, Halt>
    requires reader { IsFresh reader.old }
    requires writer { IsFresh writer.old }
    ensures runs { IfOk result
        (λ e. RunsWithNote (task_of job.now) (map file_of inputs.now) e
        (R.remaining (stream_inner reader.old))
        (R.remaining (stream_inner reader.new)) (W.contents (stream_inner writer.old))
        (W.contents (stream_inner writer.new))) }
    ensures ends { IfOk result (λ e. IsStopped e.status → ⊥) }
    ensures write_fault { IfOk result
        (λ e. e.status ≡ Status.WriteFault ↔ (has_failed writer.new ≡ true)) }
    ensures writer_once { FailsOnceAtMost writer.new }
    ensures rest { OnErr result (writer.new ≡ writer.old) }
    ensures reads_on { WantsData (task_of job.now) (map file_of inputs.now)
        ⊎ (reader.new ≡ reader.old) }
    ensures read_fault { IsErrOf result Halt.Read ↔ (has_failed reader.new ≡ true) }
    ensures takes { TakesAtMost most_read (R.remaining (stream_inner reader.old))
        (R.remaining (stream_inner reader.new)) }
    ensures reader_once { FailsOnceAtMost reader.new }
    ensures builds { IsErrOf result Halt.PatternBuild
        → HavePattern (selected_of job.now.selection) job.now.limit (map file_of inputs.now) }
{
    match compile_files(alloc, inputs, &job.selection, job.limit) {
        Ok(schema) => write_answer(alloc, job, inputs, schema, reader, writer),
        Err(Stop::Fault(refusal)) => write_refusal(alloc, job, inputs, &refusal, writer),
        Err(Stop::PatternBuild) => Err(Halt::PatternBuild),
        Err(Stop::NoMemory) => Err(Halt::NoMemory),
    }
}
