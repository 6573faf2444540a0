//! Values of binary types.
ghost use Rattle.std.specs.Prelude.{◌≡◌, IfOk};
ghost use Rattle.base64.specs.{Engines.{standard}, GeneralPurpose.{decode_of}};
ghost use Rattle.yv_values.specs.Texts.{binary_in};

use crate::value::Value;
use base64::DecodeAllocError;
use base64::engine::general_purpose::STANDARD;
use std::alloc::{AllocError, Global};
use std::rc::RcSlice;
use yv_base_numbers::{Integer, Intervals};

/// The octets that the text writes in padded standard base64, where there are so many.
pub fn binary_in(
    alloc: Global,
    lengths: &Intervals,
    text: &str,
) -> Result<Option<Value>, AllocError>
    ensures { IfOk result (λ found. found ≡ binary_in lengths.now (decode_of standard text.now)) }
{
    match STANDARD.decode(alloc, text.as_bytes()) {
        Ok(octets) if lengths.holds(Integer::Natural(octets.len() as u64)) => {
            Ok(Some(Value::binary(RcSlice::from_vec(octets)?)))
        }
        Ok(_) => Ok(None),
        Err(DecodeAllocError::OutOfMemory) => Err(AllocError),
        Err(_) => Ok(None),
    }
}
