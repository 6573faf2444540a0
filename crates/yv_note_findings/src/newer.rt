//! Sentences on what YANG 1.1 adds to YANG 1.
use crate::spot::Spot;
use crate::words::push_name;
use std::alloc::AllocError;
use yv_note_text::push_quoted;
use yv_text_statement::Keyword;

/// Adds that a statement is one of YANG 1.1.
pub(crate) fn push_newer(text: &mut String, spot: &Spot<'_, '_>) -> Result<(), AllocError> {
    text.push_str("Only YANG 1.1 has ")?;
    push_form(text, spot)?;
    text.push_str("; write \"yang-version 1.1;\" in this file, or do without it.")
}

// Adds what is new in a statement.
fn push_form(text: &mut String, spot: &Spot<'_, '_>) -> Result<(), AllocError> {
    match spot.statement.kind() {
        Keyword::Action | Keyword::Anydata | Keyword::Modifier => {
            push_quoted(text, spot.statement.keyword())
        }
        Keyword::IfFeature if !takes_condition(spot) => {
            text.push_str("\"if-feature\" with an expression")
        }
        Keyword::Base => push_second(text, spot),
        Keyword::Default if spot.parent.is(Keyword::Refine) => push_second(text, spot),
        Keyword::Enum => text.push_str("\"enum\" in a type other than \"enumeration\""),
        Keyword::Bit => text.push_str("\"bit\" in a type other than \"bits\""),
        Keyword::RequireInstance => text.push_str("\"require-instance\" in the type \"leafref\""),
        Keyword::Type => text.push_str("the type \"empty\" in a union"),
        _ => push_inside(text, spot),
    }
}

// Whether an `if-feature` is in one of the statements that only have it in YANG 1.1.
fn takes_condition(spot: &Spot<'_, '_>) -> bool {
    matches!(
        spot.parent.kind(),
        Keyword::Bit | Keyword::Enum | Keyword::Identity | Keyword::Refine
    )
}

// Adds that a statement is a second one of its keyword.
fn push_second(text: &mut String, spot: &Spot<'_, '_>) -> Result<(), AllocError> {
    push_name(text, "more than one ", spot.statement.keyword())?;
    push_name(text, " in ", spot.parent.keyword())
}

// Adds in which statement one is.
fn push_inside(text: &mut String, spot: &Spot<'_, '_>) -> Result<(), AllocError> {
    push_quoted(text, spot.statement.keyword())?;
    push_name(text, " inside of ", spot.parent.keyword())
}
