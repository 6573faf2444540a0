//! The sentences on findings.
use crate::definition_sentences::{
    push_anchors, push_description, push_entries, push_import, push_unused, push_versions,
};
use crate::file_facts::FileFacts;
use crate::file_sentences::{push_file_name, push_header, push_no_revision};
use crate::newer::push_newer;
use crate::order_sentences::{push_no_day, push_order, push_revisions};
use crate::spot::Spot;
use std::alloc::{AllocError, Global};
use yv_lint::{Finding, Rule};

/// The sentence on a finding in a file: what is wrong at the statement, and how to mend it. Where
/// no statement is at its place, it is one that fits every finding of the rule.
pub(crate) fn sentence(
    alloc: Global,
    file: Option<&FileFacts<'_, '_>>,
    finding: &Finding,
) -> Result<String, AllocError> {
    let Some(file) = file else {
        return String::from_str(alloc, meaning(finding.rule));
    };
    match Spot::find(file.root, finding.offset) {
        Some(spot) => sentence_at(alloc, file, &spot, finding.rule),
        None => String::from_str(alloc, meaning(finding.rule)),
    }
}

// The sentence on what a rule finds at a statement.
fn sentence_at(
    alloc: Global,
    file: &FileFacts<'_, '_>,
    spot: &Spot<'_, '_>,
    rule: Rule,
) -> Result<String, AllocError> {
    let mut text = String::new(alloc);
    let statement = spot.statement;
    match rule {
        Rule::FileName => push_file_name(alloc, &mut text, statement)?,
        Rule::NoRevision => push_no_revision(&mut text, statement)?,
        Rule::IncompleteHeader => push_header(alloc, &mut text, statement)?,
        Rule::StatementOrder => push_order(alloc, &mut text, file, statement)?,
        Rule::UnusedImport => push_import(&mut text, statement)?,
        Rule::VersionMix => push_versions(&mut text, file, statement)?,
        Rule::NoSuchDate => push_no_day(&mut text, spot.name())?,
        Rule::RevisionOrder => push_revisions(&mut text, spot)?,
        Rule::Version11 => push_newer(&mut text, spot)?,
        Rule::MinAboveMax => push_entries(&mut text, statement)?,
        Rule::UnusedTypedef | Rule::UnusedGrouping => push_unused(&mut text, spot)?,
        Rule::PatternAnchor => push_anchors(&mut text, spot.name())?,
        Rule::NoDescription => push_description(&mut text, statement)?,
    }
    Ok(text)
}

// What every finding of a rule means.
fn meaning(rule: Rule) -> &'static str {
    match rule {
        Rule::FileName => "The file is not called as its module.",
        Rule::NoRevision => "The file has no revision.",
        Rule::IncompleteHeader => "The organization, the contact or the description is missing.",
        Rule::StatementOrder => "This statement has to come before one that is above it.",
        Rule::UnusedImport => "Nothing in this file uses the prefix of this import.",
        Rule::VersionMix => "This file and the one that it names are of other versions of YANG.",
        Rule::NoSuchDate => "The calendar has no such day.",
        Rule::RevisionOrder => "The date is not before that of the revision above it.",
        Rule::Version11 => "Only YANG 1.1 has this statement here.",
        Rule::MinAboveMax => "It asks for more entries than it allows.",
        Rule::UnusedTypedef => "Nothing uses this typedef.",
        Rule::UnusedGrouping => "Nothing uses this grouping.",
        Rule::PatternAnchor => "A pattern always matches the whole value.",
        Rule::NoDescription => "This definition has no description.",
    }
}
