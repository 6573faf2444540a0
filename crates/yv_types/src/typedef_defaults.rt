//! What typedefs say of their default.
ghost use Rattle.std.specs.{Prelude.{◌≡◌, IfOk}, List.{find}, Option.{option_map}};
ghost use Rattle.yv_text_statement.specs.Tree.{trees};
ghost use Rattle.yv_link_scopes.specs.{Rows.{row}, Views.{lent_in}, declared.kind.NameKind.TheVariants.{Typedef}};
ghost use Rattle.yv_link_definitions.specs.Duplicates.{is_of};
ghost use Rattle.yv_text_statement.specs.TextInFile.{written_of};
ghost use Rattle.yv_types.specs.{Defaults.{default_in, is_default}, InnerDefaultTables.{AreSaid, said_at, default_of_typedef}};

use crate::rows::entry_at;
use std::alloc::{AllocError, Global};
use std::rc::RcStr;
use yv_link_scopes::{Entry, Rows, name_of};
use yv_text_statement::{Keyword, Statement, WrittenText};

// Whether a statement is a default.
fn is_default(statement: &Statement<'_>) -> bool
    ensures { result ≡ is_default statement.now }
{
    statement.is(Keyword::Default)
}

// Whether a statement is a typedef.
fn is_typedef(entry: &Entry<'_, '_>) -> bool
    ensures { result ≡ is_of Typedef (row entry.now) }
{
    entry.is(Keyword::Typedef)
}

// The first default in the block of a statement.
fn first_default<'s, 'b>(statement: &'s Statement<'b>) -> Option<&'s Statement<'b>>
    ensures { option_map (λ found. found.now) result
        ≡ find is_default (trees statement.now.children) }
{
    statement.children().iter().find(|child| is_default(child))
}

// What it says.
fn default_in(
    alloc: Global,
    file: u32,
    statement: &Statement<'_>,
) -> Result<Option<WrittenText>, AllocError>
    ensures { IfOk result (λ text. option_map written_of text ≡ default_in file statement.now) }
{
    match first_default(statement) {
        Some(found) => Ok(Some(WrittenText {
            text: RcStr::from_str(alloc, name_of(found))?,
            file,
        })),
        None => Ok(None),
    }
}

// What a typedef says.
fn default_of_typedef(
    alloc: Global,
    entry: &Entry<'_, '_>,
    statement: &Statement<'_>,
) -> Result<Option<WrittenText>, AllocError>
    ensures { IfOk result
        (λ text. option_map written_of text ≡ default_of_typedef (row entry.now) statement.now) }
{
    if is_typedef(entry) {
        default_in(alloc, entry.file, statement)
    } else {
        Ok(None)
    }
}

// What the numbered typedef says.
fn said_at(
    alloc: Global,
    rows: &Rows<'_, '_>,
    number: usize,
) -> Result<Option<WrittenText>, AllocError>
    ensures { IfOk result (λ text. option_map written_of text ≡ said_at (lent_in rows.now) number) }
{
    match (entry_at(rows, number), rows.statement(number)) {
        (Some(entry), Some(statement)) => default_of_typedef(alloc, entry, statement),
        _ => Ok(None),
    }
}

/// What each typedef says, by number.
pub(crate) fn all_said(
    alloc: Global,
    rows: &Rows<'_, '_>,
) -> Result<Vec<Option<WrittenText>>, AllocError>
    ensures { IfOk result (λ said. AreSaid (lent_in rows.now) said.items) }
{
    let mut said = Vec::new(alloc);
    for number in 0..rows.entries().len() {
        said.push(said_at(alloc, rows, number)?)?;
    }
    Ok(said)
}
