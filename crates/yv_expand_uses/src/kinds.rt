//! What items are as schema nodes.
ghost use Rattle.std.specs.Prelude.{◌≡◌, List};
ghost use Rattle.yv_link_scopes.specs.{Views.{rows_in}, Rows.{Row, row}};
ghost use Rattle.yv_expand_paths.specs.PathTables.{AreNames};
ghost use Rattle.yv_expand_statements.specs.Kinds.{is_uses, kind_of_keyword};
ghost use Rattle.yv_expand_uses.specs.{Kinds.{kind_of, label_of, name_number}, InnerKinds.{kind_by}};

use yv_expand_paths::{NodeNames, qualified_name};
use yv_expand_rounds::Label;
use yv_expand_statements::{Origin, StatementKind};
use yv_link_scopes::{Entry, Rows};
use yv_text_statement::Keyword;

// The kind of the items that statements of a keyword give; others give none.
#[inline(always)]
fn kind_by(keyword: Keyword) -> Option<StatementKind>
    ensures { result ≡ kind_by keyword }
{
    match keyword {
        Keyword::Container => Some(StatementKind::Container),
        Keyword::Leaf => Some(StatementKind::Leaf),
        Keyword::LeafList => Some(StatementKind::LeafList),
        Keyword::List => Some(StatementKind::List),
        Keyword::Choice => Some(StatementKind::Choice),
        Keyword::Case => Some(StatementKind::Case),
        Keyword::Anydata => Some(StatementKind::Anydata),
        Keyword::Anyxml => Some(StatementKind::Anyxml),
        Keyword::Rpc => Some(StatementKind::Rpc),
        Keyword::Action => Some(StatementKind::Action),
        Keyword::Input => Some(StatementKind::Input),
        Keyword::Output => Some(StatementKind::Output),
        Keyword::Notification => Some(StatementKind::Notification),
        Keyword::Uses => Some(StatementKind::Uses),
        _ => None,
    }
}

/// The kind of the items that a statement gives, if it gives some.
#[inline(always)]
pub(crate) fn kind_given(entry: &Entry<'_, '_>) -> Option<StatementKind>
    ensures { result ≡ kind_of_keyword (row entry.now).head.keyword }
{
    kind_by(entry.kind())
}

// The kind of an item.
fn kind_of(rows: &Rows<'_, '_>, origin: Origin) -> StatementKind
    ensures { result ≡ kind_of (rows_in rows.now) origin }
{
    match origin {
        Origin::Statement(number) => match rows.entries().get(number) {
            Some(entry) => kind_given(entry).unwrap_or(StatementKind::Uses),
            None => StatementKind::Leaf,
        },
        Origin::Input(_) => StatementKind::Input,
        Origin::Output(_) => StatementKind::Output,
    }
}

// The number of the name of the node that an item is.
fn name_number(names: &NodeNames<'_>, origin: Origin) -> Option<u32>
    ensures { (rows : List Row) → AreNames rows names.now → result ≡ name_number rows origin }
{
    match origin {
        Origin::Statement(number) => names.of(number),
        Origin::Input(_) => Some(names.input()),
        Origin::Output(_) => Some(names.output()),
    }
}

/// What is known of an item that belongs to the module of the file `module_file`, and that an
/// augment of a module gives or none.
pub(crate) fn label_of(
    rows: &Rows<'_, '_>,
    names: &NodeNames<'_>,
    module_file: u32,
    origin: Origin,
    given: bool,
) -> Label
    requires { AreNames (rows_in rows.now) names.now }
    ensures { result ≡ label_of (rows_in rows.now) module_file origin given }
{
    Label {
        name: qualified_name(module_file, name_number(names, origin).unwrap_or(0)),
        kind: kind_of(rows, origin),
        given,
    }
}

/// Whether an item is a uses, and so not a node.
pub fn is_uses(kind: StatementKind) -> bool
    ensures { result ≡ is_uses kind }
{
    match kind {
        StatementKind::Uses => true,
        _ => false,
    }
}
