//! How a run ended.
ghost use Rattle.std.specs.Prelude.{◌≡◌, option_map};
ghost use Rattle.yv_run.specs.Status.{status_of, batch_status, level_status, exit_of, complaint_of};

use yv_batch::{BatchEnd, Level};

/// The status of a run: how it ended.
#[derive(Clone, Copy, PartialEq, Eq, Debug)]
pub enum Status {
    /// Nothing is wrong with the modules and the document.
    Clean,
    /// The modules were refused, the document has faults, or there is no such module or node.
    Refused,
    /// The document is too large, or not JSON.
    BadInput,
    NoMemory,
    /// A pattern that the library of regular expressions doesn't build.
    PatternBuild,
    ReadFault,
    WriteFault,
}

/// The verdict: what was found, where nothing stopped the run.
#[derive(Clone, Copy, PartialEq, Eq, Debug)]
pub enum Verdict {
    Clean,
    Refused,
    BadInput,
}

impl Verdict {
    /// How a run ends that found this and wrote it whole.
    pub fn status(self) -> Status
        ensures { result ≡ status_of self }
    {
        match self {
            Verdict::Clean => Status::Clean,
            Verdict::Refused => Status::Refused,
            Verdict::BadInput => Status::BadInput,
        }
    }
}

impl Status {
    /// How a run over many documents ends that were answered like this.
    pub(crate) fn of_batch(end: BatchEnd) -> Status
        ensures { result ≡ batch_status end }
    {
        match end {
            BatchEnd::All(tally) => Status::of_level(tally.level),
            BatchEnd::WriteFault => Status::WriteFault,
            BatchEnd::Endless => Status::ReadFault,
        }
    }

    // How it ends if the worst of them is like this.
    fn of_level(level: Level) -> Status
        ensures { result ≡ level_status level }
    {
        match level {
            Level::Valid => Status::Clean,
            Level::Faulty => Status::Refused,
            Level::BadInput => Status::BadInput,
            Level::Unread => Status::ReadFault,
        }
    }

    /// The status that the process exits with.
    pub fn exit(self) -> u8
        ensures { result ≡ exit_of self }
    {
        match self {
            Status::Clean => 0,
            Status::Refused => 1,
            Status::BadInput => 2,
            Status::NoMemory | Status::PatternBuild | Status::ReadFault | Status::WriteFault => 3,
        }
    }

    /// What stopped the run, as one line of standard error without its line feed.
    pub fn complaint(self) -> Option<&'static str>
        ensures { option_map (λ t. t.now) result ≡ complaint_of self }
    {
        match self {
            Status::Clean | Status::Refused | Status::BadInput => None,
            Status::NoMemory => Some("yangcheck: out of memory"),
            Status::PatternBuild => Some("yangcheck: pattern not built"),
            Status::ReadFault => Some("yangcheck: cannot read"),
            Status::WriteFault => Some("yangcheck: cannot write"),
        }
    }
}
