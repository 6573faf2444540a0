//! Whether types say that an instance is required.
ghost use Rattle.std.specs.{Prelude.{◌≡◌, codes}, Option.{option_map}};
ghost use Rattle.yv_link_scopes.specs.{Files.{has_word}, Views.{lent_in}};
ghost use Rattle.yv_types.specs.Referrals.{first_in, required_at, required_in};

use yv_link_scopes::{Rows, name_of};
use yv_text_statement::{Keyword, Statement};

// Whether a statement says that an instance is required, or that none is.
fn is_require_instance(statement: &Statement<'_>) -> bool
    ensures { result ≡ has_word (codes "require-instance") statement.now.head }
{
    statement.is(Keyword::RequireInstance)
}

// The first such statement in the block of a statement.
fn first_require_instance<'s, 'b>(statement: &'s Statement<'b>) -> Option<&'s Statement<'b>>
    ensures { option_map (λ found. found.now) result
        ≡ first_in (codes "require-instance") statement.now }
{
    statement
        .children()
        .iter()
        .find(|child| is_require_instance(child))
}

// What it says.
fn required_in(statement: &Statement<'_>) -> Option<bool>
    ensures { result ≡ required_in statement.now }
{
    let found = first_require_instance(statement)?;
    Some(name_of(found) == "true")
}

/// What the numbered statement says of instances, if anything.
pub(crate) fn required_at(rows: &Rows<'_, '_>, number: usize) -> Option<bool>
    ensures { result ≡ required_at (lent_in rows.now) number }
{
    required_in(rows.statement(number)?)
}
