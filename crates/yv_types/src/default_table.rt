//! For each number a text, or none.
ghost use Rattle.std.specs.{Prelude.{◌≡◌}, Option.{option_map, option_copied}};
ghost use Rattle.yv_text_statement.specs.TextInFile.{written_of};
ghost use Rattle.yv_types.specs.InnerDefaultTables.{text_at};

use yv_text_statement::WrittenText;

/// The text at a place.
pub(crate) fn text(texts: &[Option<WrittenText>], place: usize) -> Option<&WrittenText>
    ensures { option_map written_of (option_copied result) ≡ text_at texts.now place }
{
    texts.get(place)?.as_ref()
}
