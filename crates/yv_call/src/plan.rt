//! The plan of a call: the job of its request, and what is done with it.
ghost use Rattle.std.specs.Prelude.{◌≡◌};
ghost use Rattle.yv_call.specs.{Fits.{IsRun}, Plans.{IsWorkFor, task_asked}};
ghost use Rattle.yv_job.specs.{Jobs.{HasFiles, HasLimit, task_of}, Requests.{IsLimited, NamesFiles, action_of, request_of}};

use std::collections::VecDeque;
use yv_job::{Action, Command, Each, Job, OutputForm, Request};
use yv_lint::Rules;

/// A batch: what each source of documents holds, whether lines about a document name it, and the
/// names of the sources in order.
#[derive(Drop)]
pub struct Batch {
    pub each: Option<Each>,
    pub has_labels: bool,
    pub names: VecDeque<String>,
}

impl Batch {
    // The sources of these names. One document of which results are JSON is spoken of as one
    // document of which they are text.
    fn new(each: Option<Each>, form: OutputForm, names: Vec<String>) -> Batch
        ensures each { result.each ≡ each }
        ensures names { result.names.items ≡ names.items }
    {
        Batch {
            each,
            has_labels: form == OutputForm::Text || each.is_some() || names.len() > 1,
            names: VecDeque::from(names),
        }
    }
}

/// The work that is done with the files of a job.
#[derive(Drop)]
pub enum Work {
    /// What its command says.
    Run,
    /// They are compiled, and then the documents of these sources are checked.
    ValidateAll(Batch),
    /// They are compiled, and then the findings of these rules are listed in all of them.
    Lint(Rules),
}

/// The plan of a call: the job of its request, and what is done with it.
#[derive(Drop)]
pub struct CallPlan {
    pub job: Job,
    pub work: Work,
}

/// The plan for a request that searches no folders.
pub fn plan_of(request: Request) -> CallPlan
    // It does more than to show which files there are.
    requires runs { IsRun (action_of request.action) }
    // It names 1 to 256 files.
    requires files { NamesFiles request }
    // Its limit is within 1 to 1,000,000.
    requires limit { IsLimited request }
    // The job is the task of the request.
    ensures task { task_of result.job ≡ task_asked (request_of request) }
    // It has the files of the request.
    ensures names { result.job.files ≡ request.files }
    // With its files this is done.
    ensures work { IsWorkFor (request_of request) result.work }
    // The job has 1 to 256 files.
    ensures files { HasFiles result.job }
    // Its limit is within 1 to 1,000,000.
    ensures limit { HasLimit result.job }
{
    let Request {
        action,
        limit,
        selection,
        kind,
        explain,
        each,
        output,
        folders: _,
        files,
    } = request;
    let (command, work) = match action {
        Action::Run(command) => (command, Work::Run),
        Action::ValidateAll(names) => {
            let batch = Batch::new(each, output.form, names);
            (Command::Compile, Work::ValidateAll(batch))
        }
        Action::Lint(rules) => (Command::Compile, Work::Lint(rules)),
        Action::Files => unreachable!(),
    };
    let job = Job {
        command,
        files,
        limit,
        selection,
        kind,
        explain,
        output,
        search: None,
    };
    CallPlan { job, work }
}
