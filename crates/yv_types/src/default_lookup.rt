//! The typedef whose default a type has.
ghost use Rattle.std.specs.Prelude.{ℕ};
ghost use Rattle.yv_link_scopes.specs.{Files.{Files}, RowList.{rows_of}};
ghost use Rattle.yv_link_definitions.specs.Meanings.{AreNames};
ghost use Rattle.yv_type_chains.specs.{Bases.{AreBases}, Types.{IsTypeAt}};
ghost use Rattle.yv_types.specs.{Defaults.{HasDefault}, InnerDefaultTables.{AreFound, AreSaid, IsFollowed, text_from}};

use crate::default_table::text;
use yv_base_tables::slots;
use yv_link_definitions::Names;
use yv_text_statement::WrittenText;
use yv_type_chains::Bases;

/// The typedef whose default the numbered type has, the table having that of the type that it
/// follows.
pub(crate) fn found_at(
    names: &Names,
    bases: &Bases,
    said: &[Option<WrittenText>],
    found: &[Option<usize>],
    number: usize,
) -> Option<usize>
    ensures { (files : Files) → AreNames files names.now → AreBases files bases.now
        → AreSaid files said.now
        → IsTypeAt (rows_of files) number
        → AreFound files said.now (IsFollowed files number) found.now
        → HasDefault files number (text_from said.now result) }
{
    let Some(definition) = names.meaning(number) else {
        return None;
    };
    if text(said, definition).is_some() {
        return Some(definition);
    }
    match bases.follows(number) {
        Some(followed) => slots::get(found, followed),
        None => None,
    }
}
