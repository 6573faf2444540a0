//! What statements count by themselves.
ghost use Rattle.std.specs.Prelude.{◌≡◌};
ghost use Rattle.yv_link_scopes.specs.Rows.{row};
ghost use Rattle.yv_expand.specs.InnerKeywords.{is_passed_keyword, units_by};
ghost use Rattle.yv_expand_statements.specs.Units.{units_of};

use crate::own::{is_node_keyword, is_operation_keyword};
use yv_link_scopes::Entry;
use yv_text_statement::Keyword;

// Whether what is in a statement of this keyword counts, but not the statement.
#[inline(always)]
fn is_passed_keyword(keyword: Keyword) -> bool
    ensures { result ≡ is_passed_keyword keyword }
{
    matches!(keyword, Keyword::Input | Keyword::Output | Keyword::Augment)
}

// What a statement of a keyword counts by itself.
#[inline(always)]
fn units_by(keyword: Keyword) -> Option<u64>
    ensures { result ≡ units_by keyword }
{
    if is_node_keyword(keyword) {
        Some(1)
    } else if is_operation_keyword(keyword) {
        Some(3)
    } else if is_passed_keyword(keyword) {
        Some(0)
    } else {
        None
    }
}

/// What a statement counts by itself; None where neither it nor what is in it counts.
#[inline(always)]
pub(crate) fn own_units(entry: &Entry<'_, '_>) -> Option<u64>
    ensures { result ≡ units_of (row entry.now).head.keyword }
{
    units_by(entry.kind())
}
