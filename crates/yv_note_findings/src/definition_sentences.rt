//! Sentences on imports, definitions and restrictions.
use crate::file_facts::FileFacts;
use crate::spot::{Spot, child_name};
use crate::words::{push_name, push_statement};
use std::alloc::AllocError;
use yv_link_scopes::name_of;
use yv_text_statement::{Keyword, Statement};

/// Adds that nothing uses an import.
pub(crate) fn push_import(text: &mut String, statement: &Statement<'_>) -> Result<(), AllocError> {
    let prefix = child_name(statement, Keyword::Prefix);
    push_name(text, "Nothing in this file uses the prefix ", prefix)?;
    push_name(text, "; remove the import of ", name_of(statement))?;
    text.push_str(".")
}

/// Adds that a file is of another version than the one that it includes or imports.
pub(crate) fn push_versions(
    text: &mut String,
    file: &FileFacts<'_, '_>,
    statement: &Statement<'_>,
) -> Result<(), AllocError> {
    if statement.is(Keyword::Import) {
        push_name(text, "This file is of YANG 1, and ", name_of(statement))?;
        return text.push_str(
            " of YANG 1.1; write \"yang-version 1.1;\" here, or leave out the \"revision-date\".",
        );
    }
    let (own, other) = if file.is_newer {
        ("1.1", "1")
    } else {
        ("1", "1.1")
    };
    text.push_str("This file is of YANG ")?;
    text.push_str(own)?;
    push_name(text, ", and the submodule ", name_of(statement))?;
    text.push_str(" of YANG ")?;
    text.push_str(other)?;
    text.push_str("; write the same \"yang-version\" in both.")
}

/// Adds that a statement asks for more entries than it allows.
pub(crate) fn push_entries(text: &mut String, statement: &Statement<'_>) -> Result<(), AllocError> {
    let least = child_name(statement, Keyword::MinElements);
    let most = child_name(statement, Keyword::MaxElements);
    push_statement(text, "The ", statement)?;
    push_name(text, " asks for at least ", least)?;
    push_name(text, " entries and allows at most ", most)?;
    text.push_str("; lower \"min-elements\" or raise \"max-elements\".")
}

/// Adds that nothing uses a definition.
pub(crate) fn push_unused(text: &mut String, spot: &Spot<'_, '_>) -> Result<(), AllocError> {
    push_statement(text, "Nothing in the ", spot.parent)?;
    push_statement(text, " uses the ", spot.statement)?;
    text.push_str("; remove it.")
}

/// Adds which anchors a pattern seems to have.
pub(crate) fn push_anchors(text: &mut String, pattern: &str) -> Result<(), AllocError> {
    text.push_str("A pattern always matches the whole value, and ")?;
    let bytes = pattern.as_bytes();
    text.push_str(match (bytes.first(), ends_with_dollar(bytes)) {
        (Some(b'^'), true) => "\"^\" and \"$\" are plain characters in it; remove them.",
        (Some(b'^'), false) => "\"^\" is a plain character in it; remove it.",
        _ => "\"$\" is a plain character in it; remove it.",
    })
}

// Whether a pattern ends with a `$` that no backslash escapes.
fn ends_with_dollar(pattern: &[u8]) -> bool {
    let Some((b'$', front)) = pattern.split_last() else {
        return false;
    };
    let escapes = front.iter().rev().take_while(|byte| **byte == b'\\');
    escapes.count() % 2 == 0
}

/// Adds that a definition has no description.
pub(crate) fn push_description(
    text: &mut String,
    statement: &Statement<'_>,
) -> Result<(), AllocError> {
    push_statement(text, "The ", statement)?;
    text.push_str(" has no \"description\"; say what it is for.")
}
