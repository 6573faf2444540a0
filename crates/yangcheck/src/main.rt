//! Compiles YANG modules, draws their trees and validates JSON documents against them.
#![tactic(auto)]

mod documents;
mod notes;
mod plan;
mod program;
mod search;
mod stop;

use std::process::ExitCode;

fn main(rt: HostRuntime) -> ExitCode {
    ExitCode::from(program::program(&rt))
}
