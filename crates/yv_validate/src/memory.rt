//! Items of arrays that came before.
ghost use Rattle.std.specs.Prelude.{◌≡◌, ◌+◌, ◌∷◌, [], IfOk, OnOk, option_map, if◌then◌else◌};
ghost use Rattle.yv_values.specs.Count.{count_up};
ghost use Rattle.yv_validate.specs.{InnerMemory.{Tells}, Work.{tuple_work}};

use std::alloc::{AllocError, Global};
use yv_values::{Index, Meter, Tuple, Value};

/// The least place at which a tuple came before; it is kept, where there is one.
pub(crate) fn stood_before(
    tuple: Option<Tuple>,
    place: u64,
    kept: &mut Index,
    meter: &mut Meter,
) -> Result<Option<u64>, AllocError>
    ensures tells { IfOk result (λ first. Tells kept.old kept.new tuple place first) }
    ensures steps { OnOk result (count_up meter.new ≡ count_up (meter.old + tuple_work tuple)) }
{
    match tuple {
        None => Ok(None),
        Some(key) => Ok(kept.keep_first(meter, key, place)?),
    }
}

/// A single value as a tuple, where it is wanted.
pub(crate) fn alone(
    alloc: Global,
    is_wanted: bool,
    value: Option<Value>,
) -> Result<Option<Tuple>, AllocError>
    ensures { IfOk result (λ t. t ≡ (if is_wanted then option_map (λ v. v ∷ []) value else None)) }
{
    if !is_wanted {
        return Ok(None);
    }
    match value {
        Some(value) => {
            let mut tuple = Tuple::new(alloc);
            tuple.push(value)?;
            Ok(Some(tuple))
        }
        None => Ok(None),
    }
}
