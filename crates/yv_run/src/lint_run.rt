//! A run of `lint`: the files are compiled, and then the findings in them are written.
ghost use Rattle.std.specs.{Prelude.{◌≡◌, ◌↔◌, ◌⊎◌, true, map, take, length, IfErr, IfOk, IsErrOf, OnErr, option_map, string_bytes}, List.{AllZip}};
ghost use Rattle.yv_base_streams.specs.{Stream.{stream_inner, has_failed, IsFresh, FailsOnceAtMost}, Files.{file_of}};
ghost use Rattle.yv_job.specs.Jobs.{HasFiles, HasLimit, task_of};
ghost use Rattle.yv_lint.specs.{Findings.{findings}, RuleChoice.{asked_in}};
ghost use Rattle.yv_run.specs.{Compiles.{HavePattern}, InnerRun.{HasNote, WritesRefusal}, Lints.{NotesFindings, RunsLint, findings_printed, named_paths}, Notes.{NotesPattern}, Output.{IsStopped}, Runs.{Writes}};
ghost use Rattle.yv_source.specs.FileStatements.{IsRead};
ghost use Rattle.yv_text_statement.specs.{Selection.{selected_of}, declared.refusal.Stop.TheVariants.{PatternBuild}};

use crate::answers::write_refusal;
use crate::compilation::compile_statements;
use crate::output::write_output;
use crate::print::of_findings;
use crate::status::Status;
use crate::whole_run::{Halt, Holdings, RunEnd, pattern_note};
use std::alloc::{AllocError, Global};
use std::io::Write;
use yv_base_streams::{Counted, Input};
use yv_job::Job;
use yv_lint::{Finding, Rules, lint};
use yv_note_findings::findings_note;
use yv_source::Texts;
use yv_text_statement::{Statement, Stop};

/// Compiles the files of a job, and writes the refusal's line; or, if they give a schema, the
/// findings of these rules in the files that were named, which are the first of all, and how many
/// there are. Files are linted whatever the job's command is. The note shows each finding, and says
/// how to mend it; or it is as `run_with_note` says.
pub fn run_lint<W: Write>(
    alloc: Global,
    job: &Job,
    inputs: &[Input],
    rules: &Rules,
    named: usize,
    writer: &mut Counted<W>,
) -> RunEnd
    // The job has 1 to 256 files.
    requires files { HasFiles job.now }
    // Its limit is within 1 to 1,000,000.
    requires limit { HasLimit job.now }
    // There is an input for each file.
    requires each { length inputs.now ≡ length job.now.files.items }
    // The writer is fresh.
    requires writer { IsFresh writer.old }
    // Unless want of memory or a pattern stopped the run: what the files come to was written, and
    // the note is about it.
    ensures writes { IsStopped result.status
        ⊎ RunsLint (task_of job.now) (asked_in rules.now) named (map file_of inputs.now) result
        (W.contents (stream_inner writer.old)) (W.contents (stream_inner writer.new)) }
    // If the run was stopped, nothing was written.
    ensures rest { IsStopped result.status → writer.new ≡ writer.old }
    // `ReadFault` is never returned.
    ensures never_reads { result.status ≡ Status.ReadFault → ⊥ }
    // `WriteFault` is returned exactly if the writer has failed.
    ensures write_fault { result.status ≡ Status.WriteFault ↔ (has_failed writer.new ≡ true) }
    // At most one call of the writer failed in a way that is not tolerated, and none came after it.
    ensures writer_once { FailsOnceAtMost writer.new }
    // `PatternBuild` is returned only if the files have a pattern and nothing is refused that comes
    // before the types.
    ensures builds { result.status ≡ Status.PatternBuild
        → HavePattern (selected_of job.now.selection) job.now.limit (map file_of inputs.now) }
    // Then a note shows a pattern of the files.
    ensures note_on_pattern { result.status ≡ Status.PatternBuild
        → IfOk result.note
        (λ note. NotesPattern (map file_of inputs.now) (option_map string_bytes note)) }
{
    match lint_files(alloc, job, inputs, rules, named, writer) {
        Ok(ended) => ended,
        Err(Halt::PatternBuild) => {
            RunEnd::stop_with_note(Status::PatternBuild, pattern_note(alloc, inputs))
        }
        Err(Halt::NoMemory) => RunEnd::stop_with(Status::NoMemory),
        Err(Halt::Read) => unreachable!(),
    }
}

// A run that nothing stops.
fn lint_files<W: Write>(
    alloc: Global,
    job: &Job,
    inputs: &[Input],
    rules: &Rules,
    named: usize,
    writer: &mut Counted<W>,
) -> Result<RunEnd, Halt>
    requires { IsFresh writer.old }
    ensures runs { IfOk result
        (λ e. RunsLint (task_of job.now) (asked_in rules.now) named (map file_of inputs.now) e
        (W.contents (stream_inner writer.old)) (W.contents (stream_inner writer.new))) }
    ensures ends { IfOk result (λ e. IsStopped e.status → ⊥) }
    ensures write_fault { IfOk result
        (λ e. e.status ≡ Status.WriteFault ↔ (has_failed writer.new ≡ true)) }
    ensures writer_once { FailsOnceAtMost writer.new }
    ensures rest { OnErr result (writer.new ≡ writer.old) }
    ensures never_read { IsErrOf result Halt.Read → ⊥ }
    ensures builds { IsErrOf result Halt.PatternBuild
        → HavePattern (selected_of job.now.selection) job.now.limit (map file_of inputs.now) }
{
    let texts = Texts::read(alloc, inputs)?;
    match texts.statements(alloc) {
        Ok(statements) => lint_statements(alloc, job, inputs, &statements, rules, named, writer),
        Err(stop) => write_stop(alloc, job, inputs, stop, writer),
    }
}

// Writes the findings in files of which these are the statements, or what is refused of them.
fn lint_statements<W: Write>(
    alloc: Global,
    job: &Job,
    inputs: &[Input],
    statements: &[Statement<'_>],
    rules: &Rules,
    named: usize,
    writer: &mut Counted<W>,
) -> Result<RunEnd, Halt>
    requires read { AllZip IsRead (map file_of inputs.now) statements.now }
    requires writer { IsFresh writer.old }
    ensures runs { IfOk result
        (λ e. RunsLint (task_of job.now) (asked_in rules.now) named (map file_of inputs.now) e
        (W.contents (stream_inner writer.old)) (W.contents (stream_inner writer.new))) }
    ensures ends { IfOk result (λ e. IsStopped e.status → ⊥) }
    ensures write_fault { IfOk result
        (λ e. e.status ≡ Status.WriteFault ↔ (has_failed writer.new ≡ true)) }
    ensures writer_once { FailsOnceAtMost writer.new }
    ensures rest { OnErr result (writer.new ≡ writer.old) }
    ensures never_read { IsErrOf result Halt.Read → ⊥ }
    ensures builds { IsErrOf result Halt.PatternBuild
        → HavePattern (selected_of job.now.selection) job.now.limit (map file_of inputs.now) }
{
    match compile_statements(alloc, statements, &job.selection, job.limit) {
        Ok(schema) => {
            let list = find_all(alloc, job, inputs, statements, rules, named)?;
            let ended = write_findings(alloc, job, inputs, statements, &list, writer);
            Ok(RunEnd {
                holdings: Holdings::of_schema(schema),
                ..ended
            })
        }
        Err(stop) => write_stop(alloc, job, inputs, stop, writer),
    }
}

// Writes the refusal of files, unless something else stops the run.
fn write_stop<W: Write>(
    alloc: Global,
    job: &Job,
    inputs: &[Input],
    stop: Stop,
    writer: &mut Counted<W>,
) -> Result<RunEnd, Halt>
    requires writer { IsFresh writer.old }
    ensures writes { IfOk result
        (λ e. WritesRefusal job.now.output.form (map file_of inputs.now) stop e
        (W.contents (stream_inner writer.old)) (W.contents (stream_inner writer.new))) }
    ensures ends { IfOk result (λ e. IsStopped e.status → ⊥) }
    ensures write_fault { IfOk result
        (λ e. e.status ≡ Status.WriteFault ↔ (has_failed writer.new ≡ true)) }
    ensures writer_once { FailsOnceAtMost writer.new }
    ensures rest { OnErr result (writer.new ≡ writer.old) }
    ensures never_read { IsErrOf result Halt.Read → ⊥ }
    ensures builds { IsErrOf result Halt.PatternBuild → stop ≡ PatternBuild }
{
    match stop {
        Stop::Fault(refusal) => write_refusal(alloc, job, inputs, &refusal, writer),
        Stop::PatternBuild => Err(Halt::PatternBuild),
        Stop::NoMemory => Err(Halt::NoMemory),
    }
}

// The names of the first files, as many as were named.
fn names_of(alloc: Global, inputs: &[Input], named: usize) -> Result<Vec<&str>, AllocError>
    ensures { IfOk result (λ names. map (λ n. n.now) names.items
        ≡ named_paths named (map file_of inputs.now)) }
{
    let front = &inputs[..named.min(inputs.len())];
    let mut names = Vec::new(alloc);
    for input in front {
        names.push(input.name.as_str())?;
    }
    Ok(names)
}

// The findings in files of which these are the statements.
fn find_all(
    alloc: Global,
    job: &Job,
    inputs: &[Input],
    statements: &[Statement<'_>],
    rules: &Rules,
    named: usize,
) -> Result<Vec<Finding>, AllocError>
    ensures { IfOk result
        (λ list. list.items ≡ findings (asked_in rules.now) (selected_of job.now.selection)
        (named_paths named (map file_of inputs.now)) statements.now) }
{
    let names = names_of(alloc, inputs, named)?;
    lint(alloc, statements, &names, &job.selection, rules)
}

// Writes these findings in files of which these are the statements.
fn write_findings<W: Write>(
    alloc: Global,
    job: &Job,
    inputs: &[Input],
    statements: &[Statement<'_>],
    list: &[Finding],
    writer: &mut Counted<W>,
) -> RunEnd
    requires { IsFresh writer.old }
    ensures writes { Writes
        (findings_printed job.now.output.form (map file_of inputs.now) list.now) result.status
        (W.contents (stream_inner writer.old)) (W.contents (stream_inner writer.new)) }
    ensures notes { HasNote (NotesFindings (map file_of inputs.now) list.now) result }
    ensures ends { IsStopped result.status → ⊥ }
    ensures write_fault { result.status ≡ Status.WriteFault ↔ (has_failed writer.new ≡ true) }
    ensures writer_once { FailsOnceAtMost writer.new }
{
    let status = write_output(&of_findings(inputs, list, job.output.form), writer);
    let note = lint_note(alloc, inputs, statements, list);
    RunEnd {
        status,
        note,
        holdings: Holdings::none(),
    }
}

// What helps a person to mend what was found.
fn lint_note(
    alloc: Global,
    inputs: &[Input],
    statements: &[Statement<'_>],
    list: &[Finding],
) -> Result<Option<String>, AllocError>
    ensures { IfOk result (λ note. NotesFindings (map file_of inputs.now) list.now
        (option_map string_bytes note)) }
{
    if list.is_empty() {
        return Ok(None);
    }
    Ok(Some(findings_note(alloc, inputs, statements, list)?))
}
