//! Values of JSON, by the first type that reads it.
ghost use Rattle.std.specs.Prelude.{◌≡◌, ◌+◌, IfOk, is_ok, if◌then◌else◌, map};
ghost use Rattle.serde_json.specs.View.{view, items_view};
ghost use Rattle.yv_values.specs.{Count.{count_up}, Reads.{boolean_from, empty_from, is_lone_null, string_in, string_from, read_kind, first_read, types_tried}, Types.{plain_of}};

use crate::binary::binary_in;
use crate::bits::bits_in;
use crate::decimal::decimal_in;
use crate::identity::identity_at;
use crate::meter::Meter;
use crate::name::name_in;
use crate::plain::PlainType;
use crate::text::text_in;
use crate::value::Value;
use crate::whole::whole_of;
use serde_json::Value as Json;
use std::alloc::{AllocError, Global};
use yv_pattern::Matchers;

// The value of the first type that has one, and how many types were tried.
#[derive(Drop)]
struct FirstValue {
    value: Option<Value>,
    tried: u64,
}

/// The value of the first type that has one, for a leaf or leaf-list of this module; each type that
/// is tried is a step. Where memory runs out, no step is counted.
pub fn check(
    alloc: Global,
    meter: &mut Meter,
    types: &[PlainType],
    module: &str,
    json: &Json,
) -> Result<Option<Value>, AllocError>
    // The value of the first type that has one for this JSON value, or none.
    ensures value { IfOk result (λ found.
        found ≡ first_read (map plain_of types.now) module.now (view json.now)) }
    // Each type that is tried is a step; where memory runs out, none is counted.
    ensures steps { meter.new ≡ (if is_ok result
        then count_up (meter.old + types_tried (map plain_of types.now) module.now (view json.now))
        else meter.old) }
{
    check_with(
        alloc,
        meter,
        &mut Matchers::none(alloc),
        types,
        module,
        json,
    )
}

/// The same, by the matchers that are kept of the types' patterns from one value to the next.
pub fn check_with<'t>(
    alloc: Global,
    meter: &mut Meter,
    matchers: &mut Matchers<'t>,
    types: &'t [PlainType],
    module: &str,
    json: &Json,
) -> Result<Option<Value>, AllocError>
    // The same, with matchers of patterns that are kept from one value to the next.
    ensures value { IfOk result (λ found.
        found ≡ first_read (map plain_of types.now) module.now (view json.now)) }
    // Each type that is tried is a step; where memory runs out, none is counted.
    ensures steps { meter.new ≡ (if is_ok result
        then count_up (meter.old + types_tried (map plain_of types.now) module.now (view json.now))
        else meter.old) }
{
    let found = first(alloc, matchers, types, module, json)?;
    meter.visit_all(found.tried);
    Ok(found.value)
}

fn first<'t>(
    alloc: Global,
    matchers: &mut Matchers<'t>,
    types: &'t [PlainType],
    module: &str,
    json: &Json,
) -> Result<FirstValue, AllocError>
    ensures value { IfOk result (λ found.
        found.value ≡ first_read (map plain_of types.now) module.now (view json.now)) }
    ensures tries { IfOk result (λ found.
        found.tried ≡ types_tried (map plain_of types.now) module.now (view json.now)) }
{
    let mut tried = 0;
    for plain in types {
        tried += 1;
        let value = read(alloc, matchers, plain, module, json)?;
        if value.is_some() {
            return Ok(FirstValue { value, tried });
        }
    }
    Ok(FirstValue { value: None, tried })
}

fn read<'t>(
    alloc: Global,
    matchers: &mut Matchers<'t>,
    plain: &'t PlainType,
    module: &str,
    json: &Json,
) -> Result<Option<Value>, AllocError>
    ensures { IfOk result
        (λ found. found ≡ read_kind (plain_of plain.now) module.now (view json.now)) }
{
    match plain {
        PlainType::Whole(whole) => Ok(whole_of(whole, json)),
        PlainType::Boolean => Ok(boolean_of(json)),
        PlainType::Empty => Ok(empty_of(json)),
        _ => string_of(alloc, matchers, plain, module, json),
    }
}

fn string_of<'t>(
    alloc: Global,
    matchers: &mut Matchers<'t>,
    plain: &'t PlainType,
    module: &str,
    json: &Json,
) -> Result<Option<Value>, AllocError>
    ensures { IfOk result
        (λ found. found ≡ string_from (plain_of plain.now) module.now (view json.now)) }
{
    match json {
        Json::String(text) => string_in(alloc, matchers, plain, module, text.as_str()),
        _ => Ok(None),
    }
}

/// The value of a text by a type that JSON writes as texts.
pub(crate) fn string_in<'t>(
    alloc: Global,
    matchers: &mut Matchers<'t>,
    plain: &'t PlainType,
    module: &str,
    text: &str,
) -> Result<Option<Value>, AllocError>
    ensures { IfOk result (λ found. found ≡ string_in (plain_of plain.now) module.now text.now) }
{
    match plain {
        PlainType::Decimal(decimal) => Ok(decimal_in(decimal, text.as_bytes())),
        PlainType::Text(plain) => text_in(alloc, matchers, plain, text),
        PlainType::Enumeration(names) => name_in(names, text),
        PlainType::Bits(names) => bits_in(alloc, names, text),
        PlainType::Binary(lengths) => binary_in(alloc, lengths, text),
        PlainType::Identity(members) => {
            identity_at(alloc, members, module.as_bytes(), text.as_bytes())
        }
        PlainType::Whole(_) | PlainType::Boolean | PlainType::Empty => Ok(None),
    }
}

fn boolean_of(json: &Json) -> Option<Value>
    ensures { result ≡ boolean_from (view json.now) }
{
    match json {
        Json::Bool(truth) => Some(Value::boolean(*truth)),
        _ => None,
    }
}

fn empty_of(json: &Json) -> Option<Value>
    ensures { result ≡ empty_from (view json.now) }
{
    match json {
        Json::Array(items) if is_lone_null(items) => Some(Value::empty()),
        _ => None,
    }
}

fn is_lone_null(items: &Vec<Json>) -> bool
    ensures { result ≡ is_lone_null (items_view items.now.items) }
{
    match items.as_slice() {
        [only] => only.is_null(),
        _ => false,
    }
}
