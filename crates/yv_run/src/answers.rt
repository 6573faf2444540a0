//! What a run answers on files that were compiled: it is written, and only then the note for a
//! person is made.
ghost use Rattle.std.specs.Prelude.{◌≡◌, ◌↔◌, ◌⊎◌, true, map, IfErr, IfOk, IsErrOf, IsSomeAnd, OnErr, None, option_map, string_bytes};
ghost use Rattle.yv_job.specs.Jobs.{asked_of};
ghost use Rattle.yv_base_streams.specs.{Stream.{stream_inner, has_failed, IsFresh, FailsOnceAtMost, TakesAtMost}, Files.{file_of}};
ghost use Rattle.yv_run.specs.{Output.{ReadsData, IsStopped, count_printed, data_printed, refusal_printed, tree_printed}, PersonNotes.{NotesData, NotesTree}, declared.status.Status.{Status}, InnerRun.{HasNote, RunsData, RunsSchema}, Notes.{TellsRefusal}, Runs.{Writes, most_read}};

use crate::checks::of_data;
use crate::notes::tree_note;
use crate::output::write_output;
use crate::print::{of_count, of_refusal, of_tree};
use crate::whole_run::{Halt, Holdings, RunEnd};
use std::alloc::{AllocError, Global};
use std::io::{Read, Write};
use yv_base_streams::{Counted, Input, InputFault, read_up_to};
use yv_job::{Command, Job, OutputOptions, TreeOptions};
use yv_note_refusals::{explanation, other_refusals};
use yv_schema::Schema;
use yv_text_statement::Refusal;

/// What is read of a document: one byte more than it may have, so that its being too large shows.
const DATA_BYTES: usize = 16_777_217;

/// Writes the refusal of files.
pub(crate) fn write_refusal<W: Write>(
    alloc: Global,
    job: &Job,
    inputs: &[Input],
    refusal: &Refusal,
    writer: &mut Counted<W>,
) -> Result<RunEnd, Halt>
    requires { IsFresh writer.old }
    ensures writes { IfOk result
        (λ e. Writes (refusal_printed job.now.output.form (map file_of inputs.now) refusal.now)
        e.status
        (W.contents (stream_inner writer.old)) (W.contents (stream_inner writer.new))) }
    ensures notes { IfOk result
        (HasNote (λ note. IsSomeAnd note (TellsRefusal (map file_of inputs.now) refusal.now))) }
    ensures ends { IfOk result (λ e. IsStopped e.status → ⊥) }
    ensures write_fault { IfOk result
        (λ e. e.status ≡ Status.WriteFault ↔ (has_failed writer.new ≡ true)) }
    ensures writer_once { FailsOnceAtMost writer.new }
    ensures rest { OnErr result (writer.new ≡ writer.old) }
    ensures no_memory { IfErr result (λ h. h ≡ Halt.NoMemory) }
{
    let output = of_refusal(alloc, inputs, refusal, job.output.form)?;
    let status = write_output(&output, writer);
    let note = refusal_note(alloc, job, inputs, refusal);
    Ok(RunEnd {
        status,
        note,
        holdings: Holdings::none(),
    })
}

// What helps a person to fix the files that are refused.
fn refusal_note(
    alloc: Global,
    job: &Job,
    inputs: &[Input],
    refusal: &Refusal,
) -> Result<Option<String>, AllocError>
    ensures { IfOk result
        (λ note. IsSomeAnd (option_map string_bytes note)
        (TellsRefusal (map file_of inputs.now) refusal.now)) }
{
    let mut text = explanation(alloc, inputs, job, refusal)?;
    let others = other_refusals(alloc, inputs, job, refusal)?;
    text.push_str(others.as_str())?;
    Ok(Some(text))
}

/// Writes what was asked of the schema.
#[tactic(auto, using(crate::proofs::RunLemmas::takes_none))]
pub(crate) fn write_answer<R: Read, W: Write>(
    alloc: Global,
    job: &Job,
    inputs: &[Input],
    schema: Schema,
    reader: &mut Counted<R>,
    writer: &mut Counted<W>,
) -> Result<RunEnd, Halt>
    requires reader { IsFresh reader.old }
    requires writer { IsFresh writer.old }
    ensures runs { IfOk result
        (λ e. RunsSchema job.now.explain (asked_of job.now.command) job.now.output job.now.kind
        schema e
        (R.remaining (stream_inner reader.old))
        (R.remaining (stream_inner reader.new)) (W.contents (stream_inner writer.old))
        (W.contents (stream_inner writer.new))) }
    ensures ends { IfOk result (λ e. IsStopped e.status → ⊥) }
    ensures write_fault { IfOk result
        (λ e. e.status ≡ Status.WriteFault ↔ (has_failed writer.new ≡ true)) }
    ensures writer_once { FailsOnceAtMost writer.new }
    ensures rest { OnErr result (writer.new ≡ writer.old) }
    ensures reads_on { ReadsData (asked_of job.now.command) ⊎ (reader.new ≡ reader.old) }
    ensures read_fault { IsErrOf result Halt.Read ↔ (has_failed reader.new ≡ true) }
    ensures takes { TakesAtMost most_read (R.remaining (stream_inner reader.old))
        (R.remaining (stream_inner reader.new)) }
    ensures reader_once { FailsOnceAtMost reader.new }
    ensures never_built { IsErrOf result Halt.PatternBuild → ⊥ }
{
    match &job.command {
        Command::Compile => write_count(schema, job.output, writer),
        Command::Tree(options) => write_tree(alloc, job, schema, options, writer),
        Command::Validate(name) => {
            validate_document(alloc, job, inputs, schema, name.as_str(), reader, writer)
        }
    }
}

// Writes how many nodes the schema has, as these options ask.
fn write_count<W: Write>(
    schema: Schema,
    options: OutputOptions,
    writer: &mut Counted<W>,
) -> Result<RunEnd, Halt>
    requires { IsFresh writer.old }
    ensures writes { IfOk result
        (λ e. Writes (count_printed options schema) e.status
        (W.contents (stream_inner writer.old)) (W.contents (stream_inner writer.new))) }
    ensures notes { IfOk result (HasNote (λ note. note ≡ None)) }
    ensures ends { IfOk result (λ e. IsStopped e.status → ⊥) }
    ensures write_fault { IfOk result
        (λ e. e.status ≡ Status.WriteFault ↔ (has_failed writer.new ≡ true)) }
    ensures writer_once { FailsOnceAtMost writer.new }
    ensures rest { OnErr result (writer.new ≡ writer.old) }
    ensures no_memory { IfErr result (λ h. h ≡ Halt.NoMemory) }
{
    let output = of_count(&schema, options);
    Ok(RunEnd {
        status: write_output(&output, writer),
        note: Ok(None),
        holdings: Holdings::of_schema(schema),
    })
}

// Writes the diagrams that are asked for, or what is missing.
fn write_tree<W: Write>(
    alloc: Global,
    job: &Job,
    schema: Schema,
    options: &TreeOptions,
    writer: &mut Counted<W>,
) -> Result<RunEnd, Halt>
    requires { IsFresh writer.old }
    ensures writes { IfOk result
        (λ e. Writes (tree_printed schema options.now) e.status
        (W.contents (stream_inner writer.old)) (W.contents (stream_inner writer.new))) }
    ensures notes { IfOk result (HasNote (NotesTree schema options.now)) }
    ensures ends { IfOk result (λ e. IsStopped e.status → ⊥) }
    ensures write_fault { IfOk result
        (λ e. e.status ≡ Status.WriteFault ↔ (has_failed writer.new ≡ true)) }
    ensures writer_once { FailsOnceAtMost writer.new }
    ensures rest { OnErr result (writer.new ≡ writer.old) }
    ensures no_memory { IfErr result (λ h. h ≡ Halt.NoMemory) }
{
    let (status, note) = {
        let output = of_tree(alloc, &schema, options)?;
        let status = write_output(&output, writer);
        let note = tree_note(alloc, job, &schema, options, &output);
        (status, note)
    };
    Ok(RunEnd {
        status,
        note,
        holdings: Holdings::of_schema(schema),
    })
}

// Reads the document of the file of this name, and writes what is said of it.
fn validate_document<R: Read, W: Write>(
    alloc: Global,
    job: &Job,
    inputs: &[Input],
    schema: Schema,
    name: &str,
    reader: &mut Counted<R>,
    writer: &mut Counted<W>,
) -> Result<RunEnd, Halt>
    requires reader { IsFresh reader.old }
    requires writer { IsFresh writer.old }
    ensures runs { IfOk result
        (λ e. RunsData job.now.explain name.now job.now.output.measures job.now.kind schema e
        (R.remaining (stream_inner reader.old)) (R.remaining (stream_inner reader.new))
        (W.contents (stream_inner writer.old)) (W.contents (stream_inner writer.new))) }
    ensures ends { IfOk result (λ e. IsStopped e.status → ⊥) }
    ensures write_fault { IfOk result
        (λ e. e.status ≡ Status.WriteFault ↔ (has_failed writer.new ≡ true)) }
    ensures writer_once { FailsOnceAtMost writer.new }
    ensures rest { OnErr result (writer.new ≡ writer.old) }
    ensures read_fault { IsErrOf result Halt.Read ↔ (has_failed reader.new ≡ true) }
    ensures takes { TakesAtMost most_read (R.remaining (stream_inner reader.old))
        (R.remaining (stream_inner reader.new)) }
    ensures reader_once { FailsOnceAtMost reader.new }
    ensures never_built { IsErrOf result Halt.PatternBuild → ⊥ }
{
    match read_up_to(alloc, DATA_BYTES, reader) {
        Ok(bytes) => write_findings(alloc, job, inputs, schema, name, bytes.as_slice(), writer),
        Err(InputFault::Read) => Err(Halt::Read),
        Err(InputFault::NoMemory) => Err(Halt::NoMemory),
    }
}

// Writes what is said of a document of these bytes, in the file of this name.
fn write_findings<W: Write>(
    alloc: Global,
    job: &Job,
    inputs: &[Input],
    schema: Schema,
    name: &str,
    bytes: &[u8],
    writer: &mut Counted<W>,
) -> Result<RunEnd, Halt>
    requires { IsFresh writer.old }
    ensures writes { IfOk result
        (λ e. Writes (data_printed job.now.output.measures job.now.kind schema bytes.now) e.status
        (W.contents (stream_inner writer.old)) (W.contents (stream_inner writer.new))) }
    ensures notes { IfOk result
        (HasNote (NotesData job.now.explain name.now job.now.kind schema bytes.now)) }
    ensures ends { IfOk result (λ e. IsStopped e.status → ⊥) }
    ensures write_fault { IfOk result
        (λ e. e.status ≡ Status.WriteFault ↔ (has_failed writer.new ≡ true)) }
    ensures writer_once { FailsOnceAtMost writer.new }
    ensures rest { OnErr result (writer.new ≡ writer.old) }
    ensures no_memory { IfErr result (λ h. h ≡ Halt.NoMemory) }
{
    let answer = of_data(alloc, &schema, bytes, job.kind, job.output.measures)?;
    let status = write_output(&answer.output, writer);
    let note = answer.note(alloc, job, inputs, &schema, name, bytes);
    Ok(RunEnd {
        status,
        note,
        holdings: Holdings::of_check(schema, answer),
    })
}
