//! Sentences on files as a whole.
use crate::spot::child;
use crate::words::{push_name, push_statement};
use std::alloc::{AllocError, Global};
use yv_link_scopes::name_of;
use yv_note_text::{Joint, push_between, push_quoted};
use yv_text_statement::{Keyword, Statement};

/// Adds how the file with this root should be called.
pub(crate) fn push_file_name(
    alloc: Global,
    text: &mut String,
    root: &Statement<'_>,
) -> Result<(), AllocError> {
    let name = name_of(root);
    push_statement(text, "The file of the ", root)?;
    let plain = format!(in alloc; "{name}.yang")?;
    push_name(text, " should be called ", plain.as_str())?;
    if let Some(date) = greatest_date(root) {
        let dated = format!(in alloc; "{name}@{date}.yang")?;
        push_name(text, " or ", dated.as_str())?;
    }
    text.push_str("; rename it.")
}

// The greatest date of a file's revisions.
fn greatest_date<'s>(root: &'s Statement<'_>) -> Option<&'s str> {
    let mut greatest = None;
    for child in root.children() {
        if child.is(Keyword::Revision) {
            let date = name_of(child);
            greatest = match greatest {
                Some(other) if date < other => greatest,
                _ => Some(date),
            };
        }
    }
    greatest
}

/// Adds that the file with this root has no revision.
pub(crate) fn push_no_revision(text: &mut String, root: &Statement<'_>) -> Result<(), AllocError> {
    push_statement(text, "The ", root)?;
    text.push_str(" has no revision; add a \"revision\" with the date of its latest change.")
}

/// Adds what the header of the file with this root lacks.
pub(crate) fn push_header(
    alloc: Global,
    text: &mut String,
    root: &Statement<'_>,
) -> Result<(), AllocError> {
    let mut missing = Vec::new(alloc);
    for (keyword, name) in [
        (Keyword::Organization, "organization"),
        (Keyword::Contact, "contact"),
        (Keyword::Description, "description"),
    ] {
        if child(root, keyword).is_none() {
            missing.push(name)?;
        }
    }
    push_statement(text, "The ", root)?;
    text.push_str(" has no ")?;
    push_missing(text, missing.as_slice())
}

// Adds these names of what is missing.
fn push_missing(text: &mut String, names: &[&str]) -> Result<(), AllocError> {
    for (place, name) in names.iter().enumerate() {
        let _ = push_between(text, place, names.len(), Joint::Or)?;
        push_quoted(text, *name)?;
    }
    text.push_str(if names.len() == 1 {
        "; add it."
    } else {
        "; add them."
    })
}
