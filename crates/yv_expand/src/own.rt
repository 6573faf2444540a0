//! Which statements are items.
ghost use Rattle.std.specs.Prelude.{◌≡◌};
ghost use Rattle.yv_link_scopes.specs.Rows.{row};
ghost use Rattle.yv_expand.specs.InnerKeywords.{is_item_keyword, is_node_keyword, is_operation_keyword};
ghost use Rattle.yv_expand_statements.specs.StatementBlocks.{is_node_or_uses, is_operation};

use yv_link_scopes::Entry;
use yv_text_statement::Keyword;

/// Whether a statement of this keyword gives a schema node, but for operations, or is a uses.
#[inline(always)]
pub(crate) fn is_node_keyword(keyword: Keyword) -> bool
    ensures { result ≡ is_node_keyword keyword }
{
    matches!(
        keyword,
        Keyword::Container
            | Keyword::Leaf
            | Keyword::LeafList
            | Keyword::List
            | Keyword::Choice
            | Keyword::Case
            | Keyword::Anydata
            | Keyword::Anyxml
            | Keyword::Notification
            | Keyword::Uses
    )
}

/// Whether a statement of this keyword is an rpc or an action.
#[inline(always)]
pub(crate) fn is_operation_keyword(keyword: Keyword) -> bool
    ensures { result ≡ is_operation_keyword keyword }
{
    matches!(keyword, Keyword::Rpc | Keyword::Action)
}

/// Whether a statement is an rpc or an action.
#[inline(always)]
pub(crate) fn is_operation(entry: &Entry<'_, '_>) -> bool
    ensures { result ≡ is_operation (row entry.now) }
{
    is_operation_keyword(entry.kind())
}

// Whether a statement of this keyword is an item.
#[inline(always)]
fn is_item_keyword(keyword: Keyword) -> bool
    ensures { result ≡ is_item_keyword keyword }
{
    is_node_keyword(keyword) || is_operation_keyword(keyword)
}

/// Whether a statement is an item: one that gives a schema node, or a uses.
#[inline(always)]
pub(crate) fn is_node_or_uses(entry: &Entry<'_, '_>) -> bool
    ensures { result ≡ is_node_or_uses (row entry.now) }
{
    is_item_keyword(entry.kind())
}
