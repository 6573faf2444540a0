//! Plain types by number.
ghost use Rattle.std.specs.{Prelude.{◌≡◌}, Option.{option_map, option_copied}};
ghost use Rattle.yv_values.specs.Types.{plain_of};
ghost use Rattle.yv_type_restrictions.specs.InnerTables.{plain_at};

use yv_base_tables::Table;
use yv_values::PlainType;

/// The type at a number.
pub(crate) fn get(types: &Table<PlainType>, number: usize) -> Option<&PlainType>
    ensures { option_map plain_of (option_copied result) ≡ plain_at types.now number }
{
    types.get(number)
}
