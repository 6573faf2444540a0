//! Values of enumerations, and names among others.
ghost use Rattle.std.specs.{Prelude.{◌≡◌, IfOk, true}, Str.{bytes_eq}};
ghost use Rattle.yv_values.specs.Texts.{name_in};

use crate::names::NameSet;
use crate::value::Value;
use std::alloc::AllocError;

/// The name, where it is one of the enumeration's.
pub fn name_in(names: &NameSet, text: &str) -> Result<Option<Value>, AllocError>
    ensures { IfOk result (λ found. found ≡ name_in names.now text.now) }
{
    match names.find(text.as_bytes()) {
        Some(name) => Ok(Some(Value::name(name.clone()?))),
        None => Ok(None),
    }
}

/// Whether the bytes are the same.
pub fn is_same(one: &[u8], other: &[u8]) -> bool
    ensures value { result ≡ bytes_eq one.now other.now }
    ensures same { result ≡ true → one.now ≡ other.now }
{
    one == other
}
