//! Why a request asks for more than is given.
ghost use Rattle.std.specs.Prelude.{◌≡◌, ℕ, List, IfErr, IfOk, MatchBool, MatchOption, OnOk, length, map, string_bytes};
ghost use Rattle.yv_call.specs.{Documents.{AreNamed}, Fits.{AreAtHand, Fits, IsRun, Lacks, reason_of, source_names}, InnerFits.{FitsFiles}, ShelfDocuments.{document_of}};
ghost use Rattle.yv_job.specs.Requests.{RequestAsked, action_of, request_of};

use crate::shelf::DocumentShelf;
use std::alloc::{AllocError, Global};
use std::slice;
use yv_job::{Action, Command, Each, Request};

/// A misfit: what a request asks for that isn't given.
#[derive(Clone, Copy, PartialEq, Eq, Debug)]
pub enum Misfit {
    /// To search folders.
    Search,
    /// To show which files there are.
    Listing,
    /// Documents of which only the files' names are given.
    NamesOfFiles,
    /// Another number of files.
    FileCount,
    /// Another number of documents.
    DocumentCount,
    /// Documents of which two have one name, and differ.
    Unequal,
}

impl Misfit {
    /// Why the request isn't done, as one line without its line feed.
    pub fn reason(self) -> &'static str
        // It is this one.
        ensures { result.now ≡ reason_of self }
    {
        match self {
            Misfit::Search => "yangcheck: the library does not support --path",
            Misfit::Listing => "yangcheck: the library does not support the command files",
            Misfit::NamesOfFiles => {
                "yangcheck: the library does not support --each name and --each name0"
            }
            Misfit::FileCount => {
                "yangcheck: the words name another number of files than is given"
            }
            Misfit::DocumentCount => {
                "yangcheck: the words name another number of documents than is given"
            }
            Misfit::Unequal => "yangcheck: two documents of one name differ",
        }
    }
}

// The names of the sources whose documents an action needs.
fn sources(action: &Action) -> &[String]
    ensures { map string_bytes result.now ≡ source_names (action_of action.now) }
{
    match action {
        Action::Run(Command::Validate(name)) => slice::from_ref(name),
        Action::ValidateAll(names) => names.as_slice(),
        Action::Run(Command::Compile | Command::Tree(_)) | Action::Lint(_) | Action::Files => &[],
    }
}

// Whether an action only shows which files there are.
fn is_listing(action: &Action) -> bool
    ensures { MatchBool result (IsRun (action_of action.now) → ⊥) (IsRun (action_of action.now)) }
{
    matches!(action, Action::Files)
}

// Whether sources hold the names of files.
fn has_names(each: Option<Each>) -> bool
    ensures { MatchBool result (AreAtHand each → ⊥) (AreAtHand each) }
{
    matches!(each, Some(Each::Name | Each::Name0))
}

// What the request asks for besides documents that isn't given, with so many files.
fn misfit_of_files(request: &Request, count: usize) -> Option<Misfit>
    ensures { MatchOption result (FitsFiles (request_of request.now) count)
        (λ m. (files documents : List (List ℕ)) → length files ≡ count
        → Lacks (request_of request.now) files documents m) }
{
    if !request.folders.is_empty() {
        Some(Misfit::Search)
    } else if is_listing(&request.action) {
        Some(Misfit::Listing)
    } else if has_names(request.each) {
        Some(Misfit::NamesOfFiles)
    } else if request.files.len() != count {
        Some(Misfit::FileCount)
    } else {
        None
    }
}

// The documents of sources of these names, or why these aren't theirs.
fn fit_documents<'a>(
    alloc: Global,
    names: &[String],
    documents: &[&'a [u8]],
) -> Result<Result<DocumentShelf<'a>, Misfit>, AllocError>
    ensures named { IfOk result (λ found. IfOk found (λ s. AreNamed (document_of s)
        (map string_bytes names.now) (map (λ d. d.now) documents.now))) }
    ensures lacks { IfOk result (λ found. IfErr found
        (λ m. (asked : RequestAsked) (files : List (List ℕ))
        → source_names asked.action ≡ map string_bytes names.now
        → Lacks asked files (map (λ d. d.now) documents.now) m)) }
{
    if names.len() != documents.len() {
        return Ok(Err(Misfit::DocumentCount));
    }
    match DocumentShelf::of(alloc, names, documents)? {
        Some(shelf) => Ok(Ok(shelf)),
        None => Ok(Err(Misfit::Unequal)),
    }
}

/// The documents of the sources that a request names, or what it asks for that isn't given.
pub fn fit_request<'a>(
    alloc: Global,
    request: &Request,
    files: &[&[u8]],
    documents: &[&'a [u8]],
) -> Result<Result<DocumentShelf<'a>, Misfit>, AllocError>
    // It asks for nothing that isn't given, where there are such documents.
    ensures fits { IfOk result (λ found. OnOk found (Fits (request_of request.now)
        (map (λ f. f.now) files.now) (map (λ d. d.now) documents.now))) }
    // Each source has the document that is given for it.
    ensures named { IfOk result (λ found. IfOk found (λ s. AreNamed (document_of s)
        (source_names (request_of request.now).action) (map (λ d. d.now) documents.now))) }
    // Otherwise it asks for this.
    ensures lacks { IfOk result (λ found. IfErr found (Lacks (request_of request.now)
        (map (λ f. f.now) files.now) (map (λ d. d.now) documents.now))) }
{
    if let Some(misfit) = misfit_of_files(request, files.len()) {
        return Ok(Err(misfit));
    }
    fit_documents(alloc, sources(&request.action), documents)
}
