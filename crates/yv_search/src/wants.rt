//! What the roots of files ask for (RFC 7950, sections 7.1.5, 7.1.6 and 7.2.2).
ghost use Rattle.std.specs.{Prelude.{◌≡◌, ◌++◌, ℕ, List, Some, map, IfOk, OnOk}, Option.{option_map}};
ghost use Rattle.yv_text_statement.specs.Keywords.{spelling};
ghost use Rattle.yv_search.specs.{Wants.{argument_of, is_root, module_of, asks_dated, asks, date_of, want_of, wants}, InnerWants.{owned_text, want}};

use std::alloc::{AllocError, Global};
use yv_text_if_feature::is_identifier;
use yv_text_statement::{Keyword, Statement};

/// A name of a module or submodule that is looked for, and perhaps the date of a revision.
#[derive(Debug, Drop)]
pub(crate) struct Want {
    pub(crate) name: String,
    pub(crate) date: Option<String>,
}

/// Whether a statement is the root of a module or a submodule.
pub(crate) fn is_root(statement: &Statement<'_>) -> bool
    ensures { result ≡ is_root statement.now }
{
    statement.is(Keyword::Module) || statement.is(Keyword::Submodule)
}

/// The argument of the first statement with a keyword in the block of another.
pub(crate) fn argument_of<'a>(statement: &'a Statement<'_>, keyword: Keyword) -> Option<&'a str>
    ensures { (word : List ℕ) → spelling keyword ≡ Some word
        → option_map (λ text. text.now) result ≡ argument_of word statement.now }
{
    for child in statement.children() {
        if child.is(keyword) {
            return child.argument();
        }
    }
    None
}

/// The module of the file with this root.
pub(crate) fn module_of<'a>(root: &'a Statement<'_>) -> Option<&'a str>
    ensures { option_map (λ text. text.now) result ≡ module_of root.now }
{
    if root.is(Keyword::Module) {
        root.argument()
    } else {
        argument_of(root, Keyword::BelongsTo)
    }
}

// Whether a statement asks for a file, perhaps with a date.
fn asks_dated(statement: &Statement<'_>) -> bool
    ensures { result ≡ asks_dated statement.now }
{
    statement.is(Keyword::Import) || statement.is(Keyword::Include)
}

// Whether a statement of a root asks for a file.
fn asks(root: &Statement<'_>, statement: &Statement<'_>) -> bool
    ensures { result ≡ asks root.now statement.now }
{
    asks_dated(statement) || root.is(Keyword::Submodule) && statement.is(Keyword::BelongsTo)
}

// The date that a statement asks for.
fn date_of<'a>(statement: &'a Statement<'_>) -> Option<&'a str>
    ensures { option_map (λ text. text.now) result ≡ date_of statement.now }
{
    if asks_dated(statement) {
        argument_of(statement, Keyword::RevisionDate)
    } else {
        None
    }
}

// A text of one's own.
fn own_text(alloc: Global, text: Option<&str>) -> Result<Option<String>, AllocError>
    ensures { IfOk result (λ owned. owned_text owned ≡ option_map (λ t. t.now) text.entry) }
{
    match text {
        Some(text) => Ok(Some(String::from_str(alloc, text)?)),
        None => Ok(None),
    }
}

// What a statement in the block of a root wants.
fn want_of(
    alloc: Global,
    root: &Statement<'_>,
    statement: &Statement<'_>,
) -> Result<Option<Want>, AllocError>
    ensures { IfOk result (λ found. option_map want found ≡ want_of root.now statement.now) }
{
    let Some(name) = statement.argument() else {
        return Ok(None);
    };
    if !(asks(root, statement) && is_identifier(name.as_bytes())) {
        return Ok(None);
    }
    let name = String::from_str(alloc, name)?;
    let date = own_text(alloc, date_of(statement))?;
    Ok(Some(Want { name, date }))
}

/// Adds what a root wants after other wants.
pub(crate) fn add_wants(
    alloc: Global,
    root: &Statement<'_>,
    list: &mut Vec<Want>,
) -> Result<(), AllocError>
    ensures { OnOk result
        (map want list.new.items ≡ map want list.old.items ++ wants root.now) }
{
    for statement in root.children() {
        if let Some(found) = want_of(alloc, root, statement)? {
            list.push(found)?;
        }
    }
    Ok(())
}
