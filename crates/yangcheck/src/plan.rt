//! The plan that a request comes to when its files are read.
ghost use Rattle.std.specs.Prelude.{◌≡◌, length, map, string_bytes, IfOk};
ghost use Rattle.yv_base_streams.specs.Files.{file_of};
ghost use Rattle.yv_job.specs.Requests.{IsLimited};
ghost use Rattle.yv_search.specs.PlainJob.{IsImportOnly};
ghost use Rattle.yangcheck.specs.{InnerBatch.{kind_of}, InnerPlans.{IsFor}};
ghost use Rattle.yv_text_statement.specs.Selection.{selected_of};

use std::alloc::{AllocError, Global};
use std::collections::VecDeque;
use yv_base_streams::Input;
use yv_batch::SourceKind;
use yv_job::{Action, Command, Each, FolderSearch, Job, OutputForm, Request};
use yv_lint::Rules;
use yv_search::{files_text, import_only};
use yv_text_statement::Selection;

// The names of files.
fn names_of(alloc: Global, files: &[Input]) -> Result<Vec<String>, AllocError>
    ensures { IfOk result (λ v. length v.items ≡ length files.now) }
{
    let mut names = Vec::new(alloc);
    for file in files {
        names.push(file.name.clone()?)?;
    }
    Ok(names)
}

// The selection with which the files are what a search makes of them: what was found and isn't
// required is imported only.
fn plain_selection(
    alloc: Global,
    files: &[Input],
    named: usize,
    selection: Selection,
) -> Result<Selection, AllocError>
    ensures imports { IfOk result (λ s. IsImportOnly (map file_of files.now) named
        (selected_of selection).imports (selected_of s).imports) }
    ensures support { IfOk result
        (λ s. (selected_of s).support ≡ (selected_of selection).support) }
{
    let Selection {
        support,
        import_only: given,
    } = selection;
    let import_only = import_only(alloc, files, named, given.as_slice())?;
    Ok(Selection {
        support,
        import_only,
    })
}

// The selection with which files are what a search of these folders makes of them, and what notes
// say of the search: where there is no folder, nothing was searched.
fn search_result(
    alloc: Global,
    folders: Vec<String>,
    named: usize,
    selection: Selection,
    files: &[Input],
) -> Result<(Selection, Option<FolderSearch>), AllocError> {
    if folders.is_empty() {
        return Ok((selection, None));
    }
    let given = selection.import_only.len();
    let selection = plain_selection(alloc, files, named, selection)?;
    let search = FolderSearch {
        folders,
        named,
        given,
    };
    Ok((selection, Some(search)))
}

/// Sources of documents: what each holds, whether lines about a document name it, and the names of
/// the sources in order.
#[derive(Drop)]
pub(crate) struct Batch {
    pub(crate) kind: SourceKind,
    pub(crate) has_labels: bool,
    pub(crate) sources: VecDeque<String>,
}

impl Batch {
    // The sources of these names, by the word that says what each holds. One document of which
    // results are JSON is spoken of as one document of which they are text.
    fn new(each: Option<Each>, form: OutputForm, sources: Vec<String>) -> Batch
        ensures kind { result.kind ≡ kind_of each }
        ensures sources { result.sources.items ≡ sources.items }
    {
        Batch {
            kind: kind_of(each),
            has_labels: form == OutputForm::Text || each.is_some() || sources.len() > 1,
            sources: VecDeque::from(sources),
        }
    }
}

// What a source holds: one document, where nothing was said.
fn kind_of(each: Option<Each>) -> SourceKind
    ensures { result ≡ kind_of each }
{
    match each {
        None | Some(Each::File) => SourceKind::Document,
        Some(Each::Line) => SourceKind::Lines,
        Some(Each::Name) => SourceKind::Names(b'\n'),
        Some(Each::Name0) => SourceKind::Names(0),
    }
}

/// What is done with the files of a job.
#[derive(Drop)]
pub(crate) enum Work {
    /// What its command says.
    Run,
    /// They are compiled, and then the documents of these sources are checked.
    ValidateAll(Batch),
    /// They are compiled, and then the findings of these rules are listed in the first files, as
    /// many as were named.
    Lint(Rules, usize),
}

/// The plan for a request whose files were read.
#[derive(Drop)]
pub(crate) enum Plan {
    /// To do this with the files of a job.
    Do(Job, Work),
    /// To print this text, which shows the files.
    Print(String),
}

/// The plan for a request, with the files that it names and those that a search of its folders
/// found.
pub(crate) fn plan_of(alloc: Global, request: Request, files: &[Input]) -> Result<Plan, AllocError>
    requires limit { IsLimited request }
    ensures each { IfOk result (IsFor (length files.now)) }
{
    let Request {
        action,
        limit,
        selection,
        kind,
        explain,
        each,
        output,
        folders,
        files: named_files,
    } = request;
    let named = named_files.len();
    let (command, work) = match action {
        Action::Run(command) => (command, Work::Run),
        Action::ValidateAll(sources) => {
            let batch = Batch::new(each, output.form, sources);
            (Command::Compile, Work::ValidateAll(batch))
        }
        Action::Lint(rules) => (Command::Compile, Work::Lint(rules, named)),
        Action::Files => {
            let text = files_text(alloc, files, named, selection.import_only.as_slice())?;
            return Ok(Plan::Print(text));
        }
    };
    let (selection, search) = search_result(alloc, folders, named, selection, files)?;
    let job = Job {
        command,
        files: names_of(alloc, files)?,
        limit,
        selection,
        kind,
        explain,
        output,
        search,
    };
    Ok(Plan::Do(job, work))
}
