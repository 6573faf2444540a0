//! Where type statements are.
ghost use Rattle.std.specs.Prelude.{◌≡◌, ℕ, codes, IfOk};
ghost use Rattle.yv_link_scopes.specs.Views.{rows_in};
ghost use Rattle.yv_link_definitions.specs.{References.{number_at}, Places.{placed_in}};

use crate::place_list::PlaceList;
use crate::references::add_place;
use std::alloc::{AllocError, Global};
use yv_link_scopes::Rows;
use yv_text_statement::Keyword;

/// The places of the type statements, in time linear in statements.
pub fn places_of_types(alloc: Global, rows: &Rows<'_, '_>) -> Result<PlaceList, AllocError>
    ensures { IfOk result (λ places. (file offset : ℕ) → placed_in places file offset
        ≡ number_at (rows_in rows.now) (codes "type") file offset) }
{
    let mut places = PlaceList::new(alloc);
    // There are so few that each number has 32 bits.
    let _few = rows.len();
    let entries = rows.entries();
    for (number, entry) in entries.iter().enumerate() {
        add_place(&mut places, Keyword::Type, number, entry)?;
    }
    Ok(places)
}
