//! Values of identityref types.
ghost use Rattle.std.specs.{Prelude.{◌≡◌, ◌==◌, ◌<◌, IfOk, IfSome, length, position}, Rc.{rc_str_bytes}};
ghost use Rattle.yv_values.specs.Texts.{identity_in, identity_at};

use crate::members::{Member, Members};
use crate::value::Value;
use std::alloc::{AllocError, Global};

/// The identity that the text names, where it is one of these: `module:name`, or the plain name of
/// one of the module.
pub fn identity_at(
    alloc: Global,
    members: &Members,
    module: &[u8],
    text: &[u8],
) -> Result<Option<Value>, AllocError>
    ensures { IfOk result (λ found. found ≡ identity_at members.now module.now
        text.now (position (λ b. b == 58) text.now)) }
{
    match colon(text) {
        Some(at) => identity_in(alloc, members, &text[..at], &text[at + 1..]),
        None => identity_in(alloc, members, module, text),
    }
}

/// The place of the first colon.
pub fn colon(text: &[u8]) -> Option<usize>
    ensures place { result ≡ position (λ b. b == 58) text.now }
    ensures within { IfSome result (λ i. i < length text.now) }
{
    text.iter().position(|byte| *byte == b':')
}

/// The identity of this module and name, where it is one of these.
pub fn identity_in(
    alloc: Global,
    members: &Members,
    module: &[u8],
    name: &[u8],
) -> Result<Option<Value>, AllocError>
    ensures { IfOk result (λ found. found ≡ identity_in members.now module.now name.now) }
{
    match members.find(module, name) {
        Some(member) => Ok(Some(value_of(member)?)),
        None => Ok(None),
    }
}

ghost use Rattle.yv_values.specs.Values.{identity};

fn value_of(member: &Member) -> Result<Value, AllocError>
    ensures { IfOk result (λ value.
        value ≡ identity (rc_str_bytes member.now.module) (rc_str_bytes member.now.name)) }
{
    Ok(Value::identity(member.module.clone()?, member.name.clone()?))
}
