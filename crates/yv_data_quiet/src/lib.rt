//! Nodes of a schema of which nothing comes but steps where they aren't in an object: their steps
//! are counted at once.
#![tactic(auto)]

mod named_leafs;
mod quiet;
mod quiet_children;
mod runs;

pub use quiet::{inner_steps, known_nodes, known_steps};
pub use quiet_children::{pass_quiet, pass_quiet_children};
pub use runs::{Run, RunTable};
