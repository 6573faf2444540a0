//! Keywords.

ghost use Rattle.std.specs.Prelude.{◌≡◌};
ghost use Rattle.yv_source.specs.Inner.Machine.{is_keyword};

use crate::scan::first_byte;
use yv_text_if_feature::is_identifier;

/// Whether the bytes are an identifier, or two joined by a colon.
pub(crate) fn is_keyword(bytes: &[u8]) -> bool
    ensures { result ≡ is_keyword bytes.now }
{
    if is_identifier(bytes) {
        return true;
    }
    let colon = first_byte(b':', bytes);
    if colon == bytes.len() {
        return false;
    }
    is_identifier(&bytes[..colon]) && is_identifier(&bytes[colon + 1..])
}
