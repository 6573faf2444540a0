//! Which statements are types.
ghost use Rattle.std.specs.Prelude.{◌≡◌};
ghost use Rattle.yv_link_scopes.specs.Rows.{row};
ghost use Rattle.yv_link_definitions.specs.Refers.{is_type};
ghost use Rattle.yv_type_chains.specs.Types.{is_inner};

use yv_link_scopes::Entry;
use yv_text_statement::Keyword;

/// Whether a statement is a type.
pub(crate) fn is_type(entry: &Entry<'_, '_>) -> bool
    ensures { result ≡ is_type (row entry.now) }
{
    entry.is(Keyword::Type)
}

/// Whether a statement is a type that is in a block.
pub(crate) fn is_inner(number: usize, entry: &Entry<'_, '_>) -> bool
    ensures { result ≡ is_inner number (row entry.now) }
{
    is_type(entry) && entry.scope < number
}
