//! The faults of a JSON document (RFC 7951): their kinds, the paths to their places, which share
//! what they have in common, and their lines.
#![tactic(auto)]

mod display;
mod fault;
mod faults;
mod path;
mod trail;

pub use display::{line, push_line};
pub use fault::{Fault, FaultKind};
pub use faults::Faults;
pub use path::{Part, Path, PathSteps};
pub use trail::Trail;
pub use yv_data_leafrefs::{MemberName, Step};
