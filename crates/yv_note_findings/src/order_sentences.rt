//! Sentences on the order of statements, and on dates.
use crate::file_facts::FileFacts;
use crate::spot::Spot;
use crate::words::{push_name, push_statement};
use std::alloc::{AllocError, Global};
use yv_link_scopes::name_of;
use yv_lint::group_of;
use yv_note_text::push_quoted;
use yv_text_statement::{Keyword, Statement};

/// Adds before which statement at the top of a file another one should be.
pub(crate) fn push_order(
    alloc: Global,
    text: &mut String,
    file: &FileFacts<'_, '_>,
    statement: &Statement<'_>,
) -> Result<(), AllocError> {
    push_name(text, "Move this ", statement.keyword())?;
    match file.first_later(statement) {
        Some(other) => {
            let line = format!(in alloc; " at line {}", other.line())?;
            push_name(text, " up, before the ", other.keyword())?;
            text.push_str(line.as_str())?;
        }
        None => text.push_str(" up")?,
    }
    text.push_str(": ")?;
    text.push_str(order_of(group_of(statement.kind())))
}

// Where the statements of a group are.
fn order_of(group: u8) -> &'static str {
    match group {
        1 => "the version, the namespace and the prefix come first.",
        2 => "imports and includes come right after the header.",
        3 => "what describes the module comes before revisions and definitions.",
        _ => "revisions come before definitions.",
    }
}

/// Adds that a date is not one of the calendar.
pub(crate) fn push_no_day(text: &mut String, date: &str) -> Result<(), AllocError> {
    push_name(text, "The calendar has no day ", date)?;
    text.push_str("; correct the date of this revision.")
}

/// Adds that the revision before another one isn't later.
pub(crate) fn push_revisions(text: &mut String, spot: &Spot<'_, '_>) -> Result<(), AllocError> {
    let date = spot.name();
    let other = date_before(spot);
    if date == other {
        push_name(
            text,
            "The revision before this one has the same date, ",
            date,
        )?;
        return text.push_str("; give each revision a date of its own.");
    }
    push_name(text, "The revision before this one has the date ", other)?;
    text.push_str(", and ")?;
    push_quoted(text, date)?;
    text.push_str(" is later; put the latest revision first.")
}

// The date of the last revision before a statement.
fn date_before<'s>(spot: &Spot<'s, '_>) -> &'s str {
    match spot
        .earlier
        .iter()
        .rev()
        .find(|one| one.is(Keyword::Revision))
    {
        Some(revision) => name_of(revision),
        None => "",
    }
}
