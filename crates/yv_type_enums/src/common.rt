//! What types share.
ghost use Rattle.std.specs.Prelude.{◌≡◌, ℕ, List, true};
ghost use Rattle.yv_values.specs.{NameOrder.{is_named}, Types.{plain_of}};
ghost use Rattle.yv_type_enums.specs.{InnerValues.{is_list, list_in}, Values.{has}};

use crate::values::Values;
use yv_base_numbers::Numbering;
use yv_values::PlainType;

/// The numbers and the values of a type. The values are kept in two ways: to be asked for one, and
/// as the list of a plain type, whose copies share it.
#[derive(Drop)]
pub(crate) struct Common<'a> {
    pub numbering: Numbering<'a>,
    pub values: Values<'a>,
    pub list: PlainType,
    ghost listed: { is_list (plain_of list) ≡ true },
    ghost same: { (name : List ℕ) → is_named (list_in (plain_of list)) name ≡ has values name },
}
