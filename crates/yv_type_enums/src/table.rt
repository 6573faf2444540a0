//! Names of types by number.
ghost use Rattle.std.specs.{Prelude.{◌≡◌}, Option.{option_map, option_copied}};
ghost use Rattle.yv_type_enums.specs.TypeNames.{told_at, told_of};

use crate::type_names::NamedEntries;
use yv_base_numbers::NumberKind;
use yv_base_tables::Table;

/// The names of a type that leads to `enumeration` or to `bits`, and which of the two it leads to.
#[derive(Drop)]
pub struct TypeNames<'a> {
    pub kind: NumberKind,
    pub names: NamedEntries<'a>,
}

/// The names at a number.
pub(crate) fn get<'r, 'a>(
    types: &'r Table<TypeNames<'a>>,
    number: usize,
) -> Option<&'r TypeNames<'a>>
    ensures { option_map told_of (option_copied result) ≡ told_at types.now number }
{
    types.get(number)
}
