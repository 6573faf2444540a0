//! Findings.
use crate::rule::Rule;

/// A finding: a rule that finds something to mend at a statement of a file.
#[derive(Clone, Copy, PartialEq, Eq, Debug)]
pub struct Finding {
    /// The number of the file.
    pub file: usize,
    /// The offset of the statement's keyword, in bytes.
    pub offset: u64,
    /// The line of the keyword, from 1.
    pub line: u64,
    /// The rule.
    pub rule: Rule,
}
