//! The text of an outcome.
ghost use Rattle.std.specs.Prelude.{◌≡◌, map, slice_get, IfOk, Err};
ghost use Rattle.yv_base_streams.specs.Files.{file_of};
ghost use Rattle.yv_job.specs.declared.job.OutputForm.TheVariants as form;
ghost use Rattle.yv_run.specs.{FileParts.{bytes_of_file, name_of_file}, Lints.{findings_printed, findings_verdict}, Output.{body_text, count_printed, drawn_printed, measures_if, printed_of, refusal_printed, refusal_text, tree_printed}};

use crate::status::Verdict;
use std::alloc::{AllocError, Global};
use yv_base_positions::column_of;
use yv_base_streams::Input;
use yv_job::{OutputForm, OutputOptions, TreeOptions};
use yv_json_lines::Position;
use yv_lint::Finding;
use yv_schema::Schema;
use yv_schema_tables::Measures;
use yv_text_statement::Refusal;
use yv_tree::{Missing, TreeDiagrams};
use yv_validate::Fault;

/// The result of a compilation, which is put on a page when it is written.
#[derive(Drop)]
pub enum CompilationResult<'a> {
    /// The number of nodes of a schema, and its measures where they are asked for, in a form.
    Count(OutputForm, u64, Option<Measures>),
    /// A refusal as a JSON object: the name of its file, its position there, and its name.
    Refusal(String, Position, &'static str),
    /// The findings in files, in a form.
    Findings(OutputForm, &'a [Input], &'a [Finding]),
}

/// The body of an outcome: what is written of it. Diagrams and the lines of faults aren't text:
/// they may be more than memory holds, since what is short in a module may be shown many times, and
/// a fault has all the names on its way.
#[derive(Drop)]
pub enum Body<'a> {
    Text(String),
    /// The diagrams of modules, which are drawn as they are written.
    Diagrams(TreeDiagrams<'a>),
    /// The faults of a document, of which there may be none, and a text that follows their lines.
    Faults(Vec<Fault>, Option<String>),
    /// The result of a compilation.
    Compiled(CompilationResult<'a>),
}

/// The output of a run: what it writes, and what it found.
#[derive(Drop)]
pub struct Output<'a> {
    pub body: Body<'a>,
    pub verdict: Verdict,
}

/// The line of a refusal in a form, with the name of its file.
pub fn of_refusal(
    alloc: Global,
    inputs: &[Input],
    refusal: &Refusal,
    form: OutputForm,
) -> Result<Output<'static>, AllocError>
    ensures { IfOk result
        (λ o. printed_of o ≡ refusal_printed form (map file_of inputs.now) refusal.now) }
{
    let body = match form {
        OutputForm::Text => refusal_line(alloc, inputs, refusal)?,
        OutputForm::Json => refusal_object(alloc, inputs, refusal)?,
    };
    Ok(Output {
        body,
        verdict: Verdict::Refused,
    })
}

// A refusal as a line of text.
fn refusal_line(
    alloc: Global,
    inputs: &[Input],
    refusal: &Refusal,
) -> Result<Body<'static>, AllocError>
    ensures { IfOk result
        (λ b. body_text b ≡ refusal_text form.Text (map file_of inputs.now) refusal.now) }
{
    let name = name_at(inputs, refusal.file as usize);
    let line = refusal.line;
    let code = refusal.code.name();
    Ok(Body::Text(format!(in alloc; "{name}:{line}: {code}\n")?))
}

// A refusal as a JSON object.
fn refusal_object(
    alloc: Global,
    inputs: &[Input],
    refusal: &Refusal,
) -> Result<Body<'static>, AllocError>
    ensures { IfOk result
        (λ b. body_text b ≡ refusal_text form.Json (map file_of inputs.now) refusal.now) }
{
    let name = String::from_str(alloc, name_at(inputs, refusal.file as usize))?;
    let column = column_of(
        bytes_at(inputs, refusal.file as usize),
        refusal.offset as usize,
    );
    let position = Position {
        line: refusal.line,
        column: column as u64,
        offset: refusal.offset,
    };
    let result = CompilationResult::Refusal(name, position, refusal.code.name());
    Ok(Body::Compiled(result))
}

/// The name of the file of this number, where there is one.
pub(crate) fn name_at(inputs: &[Input], file: usize) -> &str
    ensures { result.now ≡ name_of_file (slice_get (map file_of inputs.now) file) }
{
    match inputs.get(file) {
        Some(input) => input.name.as_str(),
        None => "",
    }
}

/// The bytes of that file.
pub(crate) fn bytes_at(inputs: &[Input], file: usize) -> &[u8]
    ensures { result.now ≡ bytes_of_file (slice_get (map file_of inputs.now) file) }
{
    match inputs.get(file) {
        Some(input) => input.bytes.as_slice(),
        None => &[],
    }
}

/// How many nodes a schema has, and its measures where they are asked for.
pub fn of_count(schema: &Schema, options: OutputOptions) -> Output<'static>
    ensures { printed_of result ≡ count_printed options schema.now }
{
    let (nodes, measures) = (schema.len() as u64, measures_if(schema, options.measures));
    let result = CompilationResult::Count(options.form, nodes, measures);
    Output {
        body: Body::Compiled(result),
        verdict: Verdict::Clean,
    }
}

// What a schema measures, where that is asked for.
fn measures_if(schema: &Schema, is_asked: bool) -> Option<Measures>
    ensures { result ≡ measures_if is_asked schema.now }
{
    if is_asked {
        Some(schema.measures())
    } else {
        None
    }
}

/// The tree diagrams that are asked for, or which there is not: a module, or the node.
pub fn of_tree<'a>(
    alloc: Global,
    schema: &'a Schema,
    options: &'a TreeOptions,
) -> Result<Output<'a>, AllocError>
    ensures { IfOk result
        (λ o. printed_of o ≡ tree_printed schema.entry.now options.entry.now) }
{
    let diagrams = match TreeDiagrams::of(alloc, schema, options)? {
        Ok(diagrams) => diagrams,
        Err(missing) => return of_missing(alloc, missing),
    };
    Ok(Output {
        body: Body::Diagrams(diagrams),
        verdict: Verdict::Clean,
    })
}

// That there is no such module or node.
fn of_missing(alloc: Global, missing: Missing) -> Result<Output<'static>, AllocError>
    ensures { IfOk result (λ o. printed_of o ≡ drawn_printed (Err missing)) }
{
    let line = match missing {
        Missing::Module => "tree: no such module\n",
        Missing::Node => "tree: no such node\n",
    };
    Ok(Output {
        body: Body::Text(String::from_str(alloc, line)?),
        verdict: Verdict::Refused,
    })
}

/// A line for each finding in files, and how many there are, in a form.
pub(crate) fn of_findings<'a>(
    inputs: &'a [Input],
    findings: &'a [Finding],
    form: OutputForm,
) -> Output<'a>
    ensures { printed_of result
        ≡ findings_printed form (map file_of inputs.entry.now) findings.entry.now }
{
    Output {
        body: Body::Compiled(CompilationResult::Findings(form, inputs, findings)),
        verdict: verdict_on(findings),
    }
}

// The verdict on files with these findings.
fn verdict_on(findings: &[Finding]) -> Verdict
    ensures { result ≡ findings_verdict findings.now }
{
    if findings.is_empty() {
        Verdict::Clean
    } else {
        Verdict::Refused
    }
}
