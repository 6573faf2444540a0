//! The statements below a root.
ghost use Rattle.std.specs.Prelude.{◌≡◌, ◌++◌, map, OnOk, IfOk};
ghost use Rattle.yv_text_statement.specs.Tree.{Then, End};
ghost use Rattle.yv_link_scopes.specs.Rows.{is_extended};
ghost use Rattle.yv_search.specs.{Statements.{is_lendable, places_in, places}, InnerEdges.{place}};

use std::alloc::{AllocError, Global};
use yv_text_statement::{Keyword, Statement};

/// A statement, and whether it is inside a typedef or a grouping.
#[derive(Clone, Copy)]
pub(crate) struct Place<'a, 'b> {
    pub(crate) statement: &'a Statement<'b>,
    pub(crate) lent: bool,
}

// Whether a statement is an extension's.
fn is_extended(statement: &Statement<'_>) -> bool
    ensures { result ≡ is_extended statement.now.head.keyword }
{
    statement.is(Keyword::Extended)
}

// Whether a statement is a typedef or a grouping.
fn is_lendable(statement: &Statement<'_>) -> bool
    ensures { result ≡ is_lendable statement.now.head.keyword }
{
    statement.is(Keyword::Typedef) || statement.is(Keyword::Grouping)
}

// Lists a statement and what is below it, but nothing of an extension's.
fn add<'a, 'b>(
    list: &mut Vec<Place<'a, 'b>>,
    lent: bool,
    statement: &'a Statement<'b>,
) -> Result<(), AllocError>
    ensures { OnOk result (map place list.new.items ≡ map place list.old.items
        ++ places_in lent (Then statement.now.head statement.now.children End)) }
{
    if is_extended(statement) {
        return Ok(());
    }
    list.push(Place { statement, lent })?;
    let lent = lent || is_lendable(statement);
    for child in statement.children() {
        add(list, lent, child)?;
    }
    Ok(())
}

/// The statements below a root, but none of an extension's.
pub(crate) fn places<'a, 'b>(
    alloc: Global,
    root: &'a Statement<'b>,
) -> Result<Vec<Place<'a, 'b>>, AllocError>
    ensures { IfOk result (λ list. map place list.items ≡ places root.now) }
{
    let mut list = Vec::new(alloc);
    for child in root.children() {
        add(&mut list, false, child)?;
    }
    Ok(list)
}
