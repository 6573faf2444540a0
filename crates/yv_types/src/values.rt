//! The values of defaults.
ghost use Rattle.std.specs.Prelude.{◌≡◌, map, IfOk};
ghost use Rattle.yv_values.specs.{Types.{plain_of}, Scopes.{place_of}};
ghost use Rattle.yv_types.specs.Values.{first_value};

use std::alloc::{AllocError, Global};
use yv_values::{Matchers, PlainType, Scope, Value, read_text_with};

/// The value of a default's text by the first of these types that reads it (RFC 7950, section
/// 9.12), or none. The scope is that of the file in which the default is written, and the matchers
/// are kept of the types' patterns from one text to the next: no answer depends on which are kept,
/// nor on an error before.
pub fn default_value<'t>(
    alloc: Global,
    matchers: &mut Matchers<'t>,
    types: &'t [PlainType],
    text: &str,
    scope: &Scope,
) -> Result<Option<Value>, AllocError>
    ensures { IfOk result
        (λ found. found ≡ first_value (map plain_of types.now) text.now (place_of scope.now)) }
{
    for plain in types {
        let found = read_text_with(alloc, matchers, plain, text, scope)?;
        if found.is_some() {
            return Ok(found);
        }
    }
    Ok(None)
}
