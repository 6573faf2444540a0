//! The statements by number.
ghost use Rattle.std.specs.{Prelude.{◌≡◌, slice_get}, Option.{option_map}};
ghost use Rattle.yv_link_scopes.specs.{Rows.{row}, Views.{rows_in}};

use yv_link_scopes::{Entry, Rows};

/// The numbered statement, as it is listed.
pub(crate) fn entry_at<'r, 'a, 'b>(
    rows: &'r Rows<'a, 'b>,
    number: usize,
) -> Option<&'r Entry<'a, 'b>>
    ensures { option_map (λ entry. row entry.now) result ≡ slice_get (rows_in rows.now) number }
{
    rows.entries().get(number)
}
