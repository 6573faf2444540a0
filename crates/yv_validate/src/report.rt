//! What a validation reports.

use yv_data_faults::Fault;

/// A report on a document: its faults, in their order, and how many members were looked up, nodes
/// met, types tried, and tuples and references looked for; where there are more than 2^64 - 1, that
/// number.
#[derive(Drop)]
pub struct Report {
    pub faults: Vec<Fault>,
    pub steps: u64,
}
