//! The program over a runtime: its words, its files, its standard streams and its exit status.
ghost use Rattle.std.specs.Prelude.{◌≡◌, length};
ghost use Rattle.yv_run.specs.Status.{exit_of};
ghost use Rattle.yv_job.specs.{Jobs.{HasFiles, HasLimit}, Requests.{IsLimited}};

use crate::documents::{SourceReader, SystemStore};
use crate::notes::{ErrorNotes, NotedDocuments, note_count};
use crate::plan::{Batch, Plan, Work, plan_of};
use crate::search::find_files;
use crate::stop::{Stop, read_failure};
use std::alloc::{AllocError, Global};
use std::cell::Cell;
use std::fs::File;
use std::io::{Error, ErrorKind, Read};
use std::mem::ManuallyDrop;
use std::rt::{Env, Files};
use std::{env, io};
use yv_base_streams::{Counted, Input};
use yv_batch::{Documents, Sources};
use yv_folders::ErrorReader;
use yv_job::{Command, Job, JobFault, Request, read_request};
use yv_note_selection::selection_lines;
use yv_note_text::push_shown;
use yv_run::{NoteSink, RunEnd, Status, run_all, run_lint, run_with_note};

/// Does what the process's arguments ask for, and answers its exit status.
pub fn program<R: Env + Files + io::Input + Print + Eprint + AllocGlobal + Clone + Drop>(
    rt: &R,
) -> u8 {
    let words: Vec<String> = match env::args(rt) {
        Ok(words) => match words.collect(rt.alloc()) {
            Ok(words) => words,
            Err(_) => return print_stop(rt, Status::NoMemory),
        },
        Err(error) => return without_words(rt, error.kind()),
    };
    match read_request(rt.alloc(), words.as_slice()) {
        Ok(request) => do_request(rt, request),
        Err(JobFault::Help(text)) => print_text(rt, text.as_str()),
        Err(JobFault::Usage(text)) => print_refusal(rt, text.as_str()),
        Err(JobFault::NoMemory) => print_stop(rt, Status::NoMemory),
    }
}

// Says why the words can't be read: there was no memory, or one isn't UTF-8.
fn without_words<R: Eprint + AllocGlobal>(rt: &R, kind: ErrorKind) -> u8 {
    if kind == ErrorKind::OutOfMemory {
        print_stop(rt, Status::NoMemory)
    } else {
        print_refusal(rt, "yangcheck: usage\nan argument is not UTF-8\n")
    }
}

// Prints a text, and answers the exit status.
fn print_text<R: Print + Eprint>(rt: &R, text: &str) -> u8 {
    match rt.print(text) {
        Ok(()) => 0,
        Err(_) => print_stop(rt, Status::WriteFault),
    }
}

// Prints a refusal of the command line. It may repeat words of the command line, so nothing of it
// may drive a terminal.
fn print_refusal<R: Eprint + AllocGlobal>(rt: &R, text: &str) -> u8
    ensures { result ≡ 2 }
{
    if let Ok(shown) = shown_lines(rt.alloc(), text) {
        let _ = rt.eprint(shown.as_str());
    }
    2
}

// A text of several lines in which nothing but line feeds, blanks and visible ASCII characters is
// left.
fn shown_lines(alloc: Global, text: &str) -> Result<String, AllocError> {
    let mut shown = String::new(alloc);
    for (number, line) in text.split('\n').enumerate() {
        if number > 0 {
            shown.push('\n')?;
        }
        push_shown(&mut shown, line.as_bytes())?;
    }
    Ok(shown)
}

// Prints what stopped a run, and answers the exit status.
fn print_stop<R: Eprint>(rt: &R, status: Status) -> u8
    ensures { result ≡ exit_of status }
{
    print_complaint(rt, status, status.complaint())
}

// Prints a complaint, and answers the exit status of a run that ended like this.
fn print_complaint<R: Eprint>(rt: &R, status: Status, complaint: Option<&'static str>) -> u8
    ensures { result ≡ exit_of status }
{
    if let Some(text) = complaint {
        let _ = rt.eprintln(text);
    }
    status.exit()
}

// Prints what stopped a run and what helps a person, and answers the exit status.
fn print_reason<R: Eprint>(rt: &R, ended: &RunEnd) -> u8
    ensures { result ≡ exit_of ended.now.status }
{
    let exit = print_stop(rt, ended.status);
    if let Ok(Some(note)) = &ended.note {
        let _ = rt.eprint(note.as_str());
    }
    exit
}

// Does what a request asks for, and answers the exit status.
fn do_request<R: Files + io::Input + Print + Eprint + AllocGlobal + Clone + Drop>(
    rt: &R,
    request: Request,
) -> u8
    requires { IsLimited request }
{
    let files = match find_files(rt, &request) {
        Ok(files) => files,
        Err(Stop::Usage(text)) => return print_refusal(rt, text.as_str()),
        Err(Stop::Ended(ended)) => return print_reason(rt, &ended),
    };
    let files = files.as_slice();
    match plan_of(rt.alloc(), request, files) {
        Ok(Plan::Do(job, work)) => {
            let exit = do_work(rt, &job, work, files);
            show_selection(rt, &job, files);
            exit
        }
        Ok(Plan::Print(text)) => print_text(rt, text.as_str()),
        Err(_) => print_stop(rt, Status::NoMemory),
    }
}

// Does this with the files of a job, and answers the exit status.
fn do_work<R: Files + io::Input + Print + Eprint + AllocGlobal + Clone + Drop>(
    rt: &R,
    job: &Job,
    work: Work,
    inputs: &[Input],
) -> u8
    requires files { HasFiles job.now }
    requires limit { HasLimit job.now }
    requires each { length inputs.now ≡ length job.now.files.items }
{
    match work {
        Work::Run => end_run(rt, run_files(rt, job, inputs)),
        Work::ValidateAll(batch) => run_batch(rt, job, batch, inputs),
        Work::Lint(rules, named) => {
            let mut writer = Counted::new(io::writer(rt));
            let ended = run_lint(rt.alloc(), job, inputs, &rules, named, &mut writer);
            end_run(rt, ended)
        }
    }
}

// Prints which names of the selection mean nothing.
fn show_selection<R: Eprint + AllocGlobal>(rt: &R, job: &Job, inputs: &[Input]) {
    if let Ok(lines) = selection_lines(rt.alloc(), job, inputs)
        && !lines.is_empty()
    {
        let _ = rt.eprint(lines.as_str());
    }
}

// Says why a run ended, and answers the exit status.
fn end_run<R: Eprint>(rt: &R, ended: RunEnd) -> u8
    ensures { result ≡ exit_of ended.status }
{
    let exit = print_reason(rt, &ended);
    // The process ends now, so what the run holds need not be dropped piece by piece.
    let _ended = ManuallyDrop::new(ended);
    exit
}

// The same of a run over many documents. Each of them that can't be read has a note of its own, so
// the run has no complaint about that.
fn end_batch<R: Eprint>(rt: &R, ended: RunEnd) -> u8
    ensures { result ≡ exit_of ended.status }
{
    if ended.status != Status::ReadFault {
        return end_run(rt, ended);
    }
    let exit = print_complaint(rt, ended.status, None);
    let _ended = ManuallyDrop::new(ended);
    exit
}

// A run that is stopped by a file that was opened, and whose reading failed.
fn unreadable<R: AllocGlobal, D>(rt: &R, name: &str, reader: &ErrorReader<D>) -> RunEnd {
    match reader.failure() {
        Some(error) => read_failure(rt.alloc(), name, error),
        None => read_failure(rt.alloc(), name, "reading it failed"),
    }
}

// Runs the job over its files, and over the document where it names one.
fn run_files<R: Files + io::Input + Print + AllocGlobal>(
    rt: &R,
    job: &Job,
    inputs: &[Input],
) -> RunEnd
    requires files { HasFiles job.now }
    requires limit { HasLimit job.now }
    requires each { length inputs.now ≡ length job.now.files.items }
{
    match &job.command {
        Command::Validate(file) if file.as_str() == "-" => {
            run_over(rt, job, inputs, "standard input", rt.reader())
        }
        Command::Validate(file) => match File::open(rt, file.as_str()) {
            Ok(data) => run_over(rt, job, inputs, file.as_str(), data),
            Err(error) => read_failure(rt.alloc(), file.as_str(), error),
        },
        Command::Compile | Command::Tree(_) => run_over(rt, job, inputs, "", io::empty()),
    }
}

// Runs the job over its files and what the reader of this name gives.
fn run_over<R: Print + AllocGlobal, D: Read + Drop>(
    rt: &R,
    job: &Job,
    inputs: &[Input],
    name: &str,
    data: D,
) -> RunEnd
    requires files { HasFiles job.now }
    requires limit { HasLimit job.now }
    requires each { length inputs.now ≡ length job.now.files.items }
{
    let mut reader = Counted::new(ErrorReader::new(data));
    let mut writer = Counted::new(io::writer(rt));
    let ended = run_with_note(rt.alloc(), job, inputs, &mut reader, &mut writer);
    if ended.status == Status::ReadFault {
        unreadable(rt, name, &reader.into_inner())
    } else {
        ended
    }
}

// The documents of the sources, with notes on those that can't be read. Errors are noted here, and
// so many notes are left.
fn documents_of<'a, R: Files + io::Input + Eprint>(
    rt: &'a R,
    batch: Batch,
    failure: &'a Cell<Option<Error>>,
    left: &'a Cell<u32>,
) -> NotedDocuments<
    'a,
    Sources<SourceReader<'a, R::Reader, R::File>, SystemStore<'a, R>, SystemStore<'a, R>>,
    ErrorNotes<'a, R>,
> {
    let Batch {
        kind,
        has_labels,
        sources,
    } = batch;
    let (opener, files) = (SystemStore::new(rt, failure), SystemStore::new(rt, failure));
    let sources = Sources::new(kind, sources, opener, files);
    let notes = ErrorNotes::new(rt, left, has_labels);
    NotedDocuments::new(sources, notes, failure)
}

// Compiles the files of the job, and checks the documents of the sources, each of which is opened
// when its turn comes. Answers the exit status.
fn run_batch<R: Files + io::Input + Print + Eprint + AllocGlobal>(
    rt: &R,
    job: &Job,
    batch: Batch,
    inputs: &[Input],
) -> u8
    requires files { HasFiles job.now }
    requires limit { HasLimit job.now }
    requires each { length inputs.now ≡ length job.now.files.items }
{
    let (failure, left) = (Cell::new(None), note_count());
    let mut notes = ErrorNotes::new(rt, &left, batch.has_labels);
    let mut documents = documents_of(rt, batch, &failure, &left);
    answer_documents(rt, job, inputs, &mut documents, &mut notes)
}

// Compiles the files of the job, and answers all documents. Answers the exit status.
fn answer_documents<R: Print + Eprint + AllocGlobal, D: Documents, N: NoteSink>(
    rt: &R,
    job: &Job,
    inputs: &[Input],
    documents: &mut D,
    notes: &mut N,
) -> u8
    requires files { HasFiles job.now }
    requires limit { HasLimit job.now }
    requires each { length inputs.now ≡ length job.now.files.items }
{
    let mut writer = Counted::new(io::writer(rt));
    let ended = run_all(rt.alloc(), job, inputs, documents, notes, &mut writer);
    end_batch(rt, ended)
}
