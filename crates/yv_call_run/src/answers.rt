//! The answer to a call: its output is written, and its note is kept.
ghost use Rattle.std.specs.Prelude.{◌≡◌, ◌++◌, ◌∷◌, [], ℕ, List, IfOk, length, map, string_bytes};
ghost use Rattle.std.specs.Option.{option_map_or};
ghost use Rattle.yv_base_streams.specs.Stream.{stream_inner, IsFresh};
ghost use Rattle.yv_call.specs.{Documents.{AreNamed}, Fits.{Fits, source_names}, ShelfDocuments.{document_of}};
ghost use Rattle.yv_call_run.specs.{CallAnswers.{Answers}, Calls.{CallInput, line_of}, InnerOutcomes.{Wrote}, NoteParts.{HasNote, note_text}};
ghost use Rattle.yv_job.specs.{Asks.{WordsAsk}, Faults.{AskForHelp, AskForNothing}, Requests.{IsLimited, NamesFiles, request_of}};
ghost use Rattle.yv_run.specs.Status.{exit_of};

use crate::note::Note;
use crate::perform::{Performance, perform};
use std::alloc::{AllocError, Global};
use std::io::Write;
use yv_base_streams::{Counted, Input, write_whole};
use yv_call::{CallPlan, DocumentShelf, command_line, fit_request, inputs_of, plan_of, texts_of};
use yv_job::{Job, JobFault, Request, read_request};
use yv_note_selection::selection_lines;
use yv_note_text::push_shown;
use yv_run::{RunEnd, Status};

const NOT_UTF8: &str = "yangcheck: usage\nan argument is not UTF-8";

const NO_MEMORY: &str = "yangcheck: out of memory";

const WRITE_FAULT: &str = "yangcheck: cannot write";

/// An answer: the exit status, and the note.
#[derive(Drop)]
pub struct Answered {
    pub status: u8,
    pub note: Note,
}

impl Answered {
    // A refusal for a reason, which is one line without its line feed.
    fn refuse(alloc: Global, reason: &'static str) -> Answered
        ensures status { result.status ≡ 2 }
        ensures note { note_text result.note ≡ reason.now ++ 10 ∷ [] }
    {
        Answered {
            status: 2,
            note: Note::of_line(alloc, reason),
        }
    }

    // There was no memory.
    fn stop(alloc: Global) -> Answered
        ensures { result.status ≡ 3 }
    {
        Answered {
            status: 3,
            note: Note::of_line(alloc, NO_MEMORY),
        }
    }
}

// A text of several lines in which nothing but line feeds, blanks and visible ASCII characters is
// left.
fn shown_lines(alloc: Global, text: &str) -> Result<String, AllocError> {
    let mut shown = String::new(alloc);
    for (number, line) in text.split('\n').enumerate() {
        if number > 0 {
            shown.push('\n')?;
        }
        push_shown(&mut shown, line.as_bytes())?;
    }
    Ok(shown)
}

// A refusal of the command line. It may repeat words of the command line, so nothing of it may
// drive a terminal.
fn refuse_words(alloc: Global, text: &str) -> Answered
    ensures { result.status ≡ 2 }
{
    let shown = match shown_lines(alloc, text) {
        Ok(shown) => shown,
        Err(_) => String::new(alloc),
    };
    Answered {
        status: 2,
        note: Note::of_text(alloc, shown),
    }
}

// Writes the help.
fn write_help<W: Write>(alloc: Global, text: &str, writer: &mut Counted<W>) -> Answered
    requires { IsFresh writer.old }
    ensures { (given : CallInput) → AskForHelp (line_of given)
        → Wrote (W.contents (stream_inner writer.old)) (W.contents (stream_inner writer.new))
        (λ output. Answers given result.status output (note_text result.note)) }
{
    if write_whole(writer, text.as_bytes()) {
        Answered {
            status: 0,
            note: Note::of_text(alloc, String::new(alloc)),
        }
    } else {
        Answered {
            status: 3,
            note: Note::of_line(alloc, WRITE_FAULT),
        }
    }
}

// What is said of a run that was stopped. Of a document that there was no memory for its own line
// says so.
fn complaint(status: Status) -> Option<&'static str> {
    match status {
        Status::ReadFault => None,
        other => other.complaint(),
    }
}

// The note of a run, or nothing.
fn note_of(alloc: Global, note: Result<Option<String>, AllocError>) -> String
    ensures { IfOk note (λ n. string_bytes result ≡ option_map_or string_bytes n []) }
{
    match note {
        Ok(Some(text)) => text,
        Ok(None) | Err(_) => String::new(alloc),
    }
}

// Which names of the selection mean nothing.
fn selection_note(alloc: Global, job: &Job, inputs: &[Input]) -> String {
    match selection_lines(alloc, job, inputs) {
        Ok(lines) => lines,
        Err(_) => String::new(alloc),
    }
}

// The answer after a run.
fn answer_run(alloc: Global, job: &Job, inputs: &[Input], done: Performance) -> Answered
    ensures status { result.status ≡ exit_of done.run.status }
    ensures note { HasNote done.run (note_text result.note) }
{
    let Performance { run, notes } = done;
    let RunEnd {
        status,
        note,
        holdings: _,
    } = run;
    Answered {
        status: status.exit(),
        note: Note {
            first: notes,
            line: complaint(status),
            run: note_of(alloc, note),
            last: selection_note(alloc, job, inputs),
        },
    }
}

// Does what a request asks for.
fn run_request<W: Write>(
    alloc: Global,
    request: Request,
    shelf: DocumentShelf<'_>,
    files: &[&[u8]],
    documents: &[&[u8]],
    writer: &mut Counted<W>,
) -> Answered
    requires limit { IsLimited request }
    requires names { NamesFiles request }
    requires writer { IsFresh writer.old }
    requires fits { Fits (request_of request) (map (λ f. f.now) files.now)
        (map (λ d. d.now) documents.now) }
    requires named { AreNamed (document_of shelf) (source_names (request_of request).action)
        (map (λ d. d.now) documents.now) }
    ensures { (given : CallInput) → WordsAsk (line_of given) (request_of request)
        → given.files ≡ map (λ f. f.now) files.now
        → given.documents ≡ map (λ d. d.now) documents.now
        → Wrote (W.contents (stream_inner writer.old)) (W.contents (stream_inner writer.new))
        (λ output. Answers given result.status output (note_text result.note)) }
{
    let Ok(inputs) = inputs_of(alloc, request.files.as_slice(), files) else {
        return Answered::stop(alloc);
    };
    let CallPlan { job, work } = plan_of(request);
    let done = perform(alloc, &job, work, shelf, &inputs, documents, writer);
    answer_run(alloc, &job, &inputs, done)
}

// Answers a request.
fn answer_request<W: Write>(
    alloc: Global,
    request: Request,
    files: &[&[u8]],
    documents: &[&[u8]],
    writer: &mut Counted<W>,
) -> Answered
    requires limit { IsLimited request }
    requires names { NamesFiles request }
    requires writer { IsFresh writer.old }
    ensures { (given : CallInput) → WordsAsk (line_of given) (request_of request)
        → given.files ≡ map (λ f. f.now) files.now
        → given.documents ≡ map (λ d. d.now) documents.now
        → Wrote (W.contents (stream_inner writer.old)) (W.contents (stream_inner writer.new))
        (λ output. Answers given result.status output (note_text result.note)) }
{
    match fit_request(alloc, &request, files, documents) {
        Ok(Ok(shelf)) => run_request(alloc, request, shelf, files, documents, writer),
        Ok(Err(misfit)) => Answered::refuse(alloc, misfit.reason()),
        Err(_) => Answered::stop(alloc),
    }
}

// Answers words that are text.
fn answer_texts<W: Write>(
    alloc: Global,
    words: &[&str],
    files: &[&[u8]],
    documents: &[&[u8]],
    writer: &mut Counted<W>,
) -> Answered
    requires { IsFresh writer.old }
    ensures { (given : CallInput) → given.words ≡ map (λ w. w.now) words.now
        → given.files ≡ map (λ f. f.now) files.now
        → given.documents ≡ map (λ d. d.now) documents.now
        → Wrote (W.contents (stream_inner writer.old)) (W.contents (stream_inner writer.new))
        (λ output. Answers given result.status output (note_text result.note)) }
{
    let Ok(line) = command_line(alloc, words) else {
        return Answered::stop(alloc);
    };
    match read_request(alloc, &line) {
        Ok(request) => answer_request(alloc, request, files, documents, writer),
        Err(JobFault::Help(text)) => write_help(alloc, text.as_str(), writer),
        Err(JobFault::Usage(text)) => refuse_words(alloc, text.as_str()),
        Err(JobFault::NoMemory) => Answered::stop(alloc),
    }
}

/// Does what the words ask for with what is in the files and the documents that they name, and
/// writes the output: what the program does for the same words, of which nothing is opened.
pub fn answer<W: Write>(
    alloc: Global,
    words: &[&[u8]],
    files: &[&[u8]],
    documents: &[&[u8]],
    writer: &mut Counted<W>,
) -> Answered
    // The writer is fresh.
    requires { IsFresh writer.old }
    // Where it is known what the writer held, it got an output after that. The status, the output
    // and the note are those of the call.
    ensures { (given : CallInput) → given.words ≡ map (λ w. w.now) words.now
        → given.files ≡ map (λ f. f.now) files.now
        → given.documents ≡ map (λ d. d.now) documents.now
        → Wrote (W.contents (stream_inner writer.old)) (W.contents (stream_inner writer.new))
        (λ output. Answers given result.status output (note_text result.note)) }
{
    match texts_of(alloc, words) {
        Ok(Some(texts)) => answer_texts(alloc, &texts, files, documents, writer),
        Ok(None) => Answered::refuse(alloc, NOT_UTF8),
        Err(_) => Answered::stop(alloc),
    }
}
