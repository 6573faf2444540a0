//! A run over files that were read: their schema or what is refused of them, the text of it
//! written, and what helps a person to fix a file that is refused.
#![tactic(auto)]

mod answers;
mod batch_run;
mod checks;
mod compilation;
mod findings;
pub mod laws;
mod lint_run;
mod missing_module;
mod missing_node;
mod nearest;
mod notes;
mod output;
mod pattern_laws;
mod print;
mod status;
mod whole_run;

pub use batch_run::run_all;
pub use checks::{CheckResult, of_data};
pub use lint_run::run_lint;
pub use notes::tree_note;
pub use print::{Body, CompilationResult, Output, of_count, of_refusal, of_tree};
pub use status::{Status, Verdict};
pub use whole_run::{Holdings, RunEnd, run, run_with_note};
pub use yv_base_streams::{Counted, Input, InputFault, read_input};
pub use yv_documents::{Document, NoteSink, read_document, write_faults};
pub use yv_job::{
    Action, Command, Drawing, FolderSearch, Job, JobFault, OutputForm, OutputOptions, Request,
    TreeOptions, WayStep, read_request,
};
