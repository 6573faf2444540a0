//! The pattern that a string fails.
use crate::type_chain::TypeChain;
use crate::yang_files::{FileStatement, YangFiles};
use std::alloc::{AllocError, Global};
use yv_link_scopes::name_of;
use yv_note_text::{front, push_quoted, push_shown};
use yv_text_statement::{Keyword, Statement, Stop};
use yv_values::Patterns;

/// The first pattern of a chain of types that a string fails, the type that all others narrow
/// coming first.
pub(crate) fn failed_pattern<'d, 's>(
    alloc: Global,
    chain: &TypeChain<'d, 's>,
    written: &str,
) -> Result<Option<FileStatement<'d, 's>>, AllocError> {
    let mut patterns = Patterns::new(alloc);
    let sites = chain.patterns(alloc)?;
    for site in sites.iter() {
        if fails(alloc, &mut patterns, site.statement, written)? {
            return Ok(Some(*site));
        }
    }
    Ok(None)
}

// Whether a string fails a pattern. None fails one that can't be built.
fn fails(
    alloc: Global,
    patterns: &mut Patterns,
    statement: &Statement<'_>,
    written: &str,
) -> Result<bool, AllocError> {
    match patterns.read(alloc, name_of(statement)) {
        Ok(pattern) => {
            let is_match = pattern.as_ref().is_match(alloc, written)?;
            Ok(is_match == is_inverted(statement))
        }
        Err(Stop::NoMemory) => Err(AllocError),
        Err(_) => Ok(false),
    }
}

// Whether a pattern is one that values must not match.
fn is_inverted(statement: &Statement<'_>) -> bool {
    statement.children().iter().any(|child| child.is(Keyword::Modifier)
        && child.argument() == Some("invert-match"))
}

/// Adds that a string fails a pattern, and where that is.
pub(crate) fn push_failure(
    text: &mut String,
    files: &YangFiles<'_, '_>,
    site: &FileStatement<'_, '_>,
    written: &str,
) -> Result<(), AllocError> {
    push_quoted(text, written)?;
    text.push_str(if is_inverted(site.statement) {
        " must not match "
    } else {
        " does not match "
    })?;
    push_pattern(text, name_of(site.statement))?;
    files.push_place(text, site)
}

// Adds a pattern in single quotes, of a longer one 72 bytes and two dots.
fn push_pattern(text: &mut String, pattern: &str) -> Result<(), AllocError> {
    let shown = front(pattern.as_bytes());
    text.push_str("'")?;
    push_shown(text, shown)?;
    if shown.len() < pattern.len() {
        text.push_str("..")?;
    }
    text.push_str("'")
}
