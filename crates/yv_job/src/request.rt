//! A request, and the reasons why there is none.
ghost use Rattle.std.specs.Prelude.{◌≡◌, IfSome, MatchOption};
ghost use Rattle.yv_job.specs.{Jobs.{Task, task_of}, Requests.{plain_request, request_of}, declared.request.JobFault.TheVariants.{NoMemory}};

use crate::job::{Command, Job, OutputOptions};
use std::alloc::AllocError;
use thiserror::Error;
use yv_lint::Rules;
use yv_text_statement::{Kind, Selection};

/// What each source holds, by the word of `--each`.
#[derive(Clone, Copy, PartialEq, Eq, Debug)]
pub enum Each {
    /// One document.
    File,
    /// A document on each line.
    Line,
    /// The name of a document's file on each line.
    Name,
    /// Names of documents' files, each ended by a NUL.
    Name0,
}

/// The action that is asked for.
#[derive(Debug, Drop)]
pub enum Action {
    /// To run a command over the files.
    Run(Command),
    /// To check all documents of the sources of these names, in this order. `-` is standard input.
    ValidateAll(Vec<String>),
    /// To list the findings of these rules in the files that were named.
    Lint(Rules),
    /// To show which files there are, and which modules are implemented.
    Files,
}

/// The request that a command line makes.
#[derive(Debug, Drop)]
pub struct Request {
    pub action: Action,
    /// The most schema nodes that the modules may expand to.
    pub limit: u32,
    pub selection: Selection,
    /// What a document is checked as. It is all data for a request that checks none.
    pub kind: Kind,
    /// Of how many faults of a document standard error has a line. It is 20 for a request that
    /// checks none.
    pub explain: u32,
    /// What each source of documents holds, where that was said.
    pub each: Option<Each>,
    /// What standard output is like.
    pub output: OutputOptions,
    /// The folders in which the files of imported modules are looked for, in this order.
    pub folders: Vec<String>,
    /// The files that were named.
    pub files: Vec<String>,
}

impl Request {
    /// The job that this is, where it runs a command over the named files, no folder is to be
    /// searched, and it wasn't said what a source holds.
    pub fn into_job(self) -> Option<Job>
        // The request is for the task of this job; where there is none, it is for no task.
        ensures { MatchOption result ((t : Task) → request_of self ≡ plain_request t → ⊥)
            (λ j. request_of self ≡ plain_request (task_of j)) }
    {
        let Request {
            files,
            folders,
            output,
            each,
            explain,
            kind,
            selection,
            limit,
            action,
        } = self;
        let Action::Run(command) = action else {
            return None;
        };
        if !folders.is_empty() || each.is_some() {
            return None;
        }
        Some(Job {
            command,
            files,
            limit,
            selection,
            kind,
            explain,
            output,
            search: None,
        })
    }
}

/// The fault by which there is no request, with the text to print. Each text ends with a line feed.
#[derive(Debug, Drop, Error)]
pub enum JobFault {
    #[error("out of memory")]
    NoMemory,
    /// The words ask for nothing that can be done. The text is for standard error.
    #[error("{0}")]
    Usage(String),
    /// The words ask for help, or for the version. The text is for standard output.
    #[error("{0}")]
    Help(String),
}

impl From<AllocError> for JobFault {
    ghost from_gives = { λ _ fault. fault ≡ NoMemory };

    fn from(_error: AllocError) -> JobFault {
        JobFault::NoMemory
    }
}
