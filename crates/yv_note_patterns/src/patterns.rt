//! Patterns that the library of regular expressions doesn't build.
ghost use Rattle.std.specs.{Prelude.{◌≡◌, true, false, IfOk, IfSome, codes, option_map}, Str.{bytes_eq}};
ghost use Rattle.yv_text_statement.specs.Tree.{name_of as name_at};
ghost use Rattle.yv_link_scopes.specs.{Rows.{row}, Views.{rows_in}};
ghost use Rattle.yv_note_patterns.specs.{InnerPatterns.{FindsPattern}, PatternFailure.{IsOfDialect, IsPatternAmong}};

use std::alloc::{AllocError, Global};
use yv_link_scopes::{Entry, Rows, name_of};
use yv_pattern::Patterns;
use yv_text_statement::{Keyword, Statement, Stop};

// Whether a text is a pattern of the dialect that isn't built in the room that is left.
fn is_unbuilt_text(alloc: Global, patterns: &mut Patterns, text: &str) -> Result<bool, AllocError>
    ensures { IfOk result (λ unbuilt. unbuilt ≡ true → IsOfDialect text.now) }
{
    match patterns.read(alloc, text) {
        Ok(_) | Err(Stop::Fault(_)) => Ok(false),
        Err(Stop::PatternBuild) => Ok(true),
        Err(Stop::NoMemory) => Err(AllocError),
    }
}

// Whether a text is a pattern of the dialect.
fn is_of_dialect(alloc: Global, text: &str) -> Result<bool, AllocError>
    ensures is { IfOk result (λ is. is ≡ true → IsOfDialect text.now) }
    ensures not { IfOk result (λ is. is ≡ false → IsOfDialect text.now → ⊥) }
{
    match Patterns::new(alloc).read(alloc, text) {
        Ok(_) | Err(Stop::PatternBuild) => Ok(true),
        Err(Stop::Fault(_)) => Ok(false),
        Err(Stop::NoMemory) => Err(AllocError),
    }
}

// Whether a statement is a pattern of the dialect.
fn is_pattern(alloc: Global, statement: &Statement<'_>) -> Result<bool, AllocError>
    ensures keyword { IfOk result
        (λ is. is ≡ true → bytes_eq statement.now.head.keyword (codes "pattern") ≡ true) }
    ensures dialect { IfOk result
        (λ is. is ≡ true → IsOfDialect (name_at statement.now.head)) }
    ensures not { IfOk result
        (λ is. is ≡ false → bytes_eq statement.now.head.keyword (codes "pattern") ≡ true
        → IsOfDialect (name_at statement.now.head) → ⊥) }
{
    if !statement.is(Keyword::Pattern) {
        return Ok(false);
    }
    is_of_dialect(alloc, name_of(statement))
}

// Whether a statement is a pattern that isn't built in the room that is left.
fn is_unbuilt(
    alloc: Global,
    patterns: &mut Patterns,
    statement: &Statement<'_>,
) -> Result<bool, AllocError>
    ensures keyword { IfOk result
        (λ unbuilt. unbuilt ≡ true → bytes_eq statement.now.head.keyword (codes "pattern") ≡ true) }
    ensures dialect { IfOk result
        (λ unbuilt. unbuilt ≡ true → IsOfDialect (name_at statement.now.head)) }
{
    if !statement.is(Keyword::Pattern) {
        return Ok(false);
    }
    is_unbuilt_text(alloc, patterns, name_of(statement))
}

/// The first statement of the files that is a pattern of the dialect and isn't built in the room
/// that those before it leave. What is in extensions' statements is not a pattern.
pub(crate) fn first_unbuilt<'r, 'a, 'b>(
    alloc: Global,
    rows: &'r Rows<'a, 'b>,
) -> Result<Option<&'r Entry<'a, 'b>>, AllocError>
    ensures { IfOk result
        (λ found. IfSome found (λ e. IsPatternAmong (rows_in rows.now) (row e.now))) }
{
    let mut patterns = Patterns::new(alloc);
    for entry in rows.entries() {
        if is_unbuilt(alloc, &mut patterns, entry.statement)? {
            return Ok(Some(entry));
        }
    }
    Ok(None)
}

/// The first statement of the files that is a pattern of the dialect.
pub(crate) fn first_pattern<'r, 'a, 'b>(
    alloc: Global,
    rows: &'r Rows<'a, 'b>,
) -> Result<Option<&'r Entry<'a, 'b>>, AllocError>
    ensures { IfOk result
        (λ found. FindsPattern (rows_in rows.now) (option_map (λ e. row e.now) found)) }
{
    for entry in rows.entries() {
        if is_pattern(alloc, entry.statement)? {
            return Ok(Some(entry));
        }
    }
    Ok(None)
}
