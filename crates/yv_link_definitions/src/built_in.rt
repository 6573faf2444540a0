//! The types that need no typedef.
ghost use Rattle.std.specs.Prelude.{◌≡◌, ◌∷◌, ℕ, List, map};
ghost use Rattle.yv_text_statement.specs.Words.{is_among};
ghost use Rattle.yv_link_definitions.specs.BuiltIn.{is_built_in};

use yv_text_statement::is_among;

/// The names of the built-in types.
pub static BUILT_INS: [&str; 19] = [
    "binary",
    "bits",
    "boolean",
    "decimal64",
    "empty",
    "enumeration",
    "identityref",
    "instance-identifier",
    "int8",
    "int16",
    "int32",
    "int64",
    "leafref",
    "string",
    "uint8",
    "uint16",
    "uint32",
    "uint64",
    "union",
];

// The built-in types of which the names begin with a byte.
fn beginning_with(byte: u8) -> &'static [&'static str]
    ensures { (rest : List ℕ) → is_among (map (λ w. w.now) result.now) (byte ∷ rest)
        ≡ is_built_in (byte ∷ rest) }
{
    match byte {
        b'b' => &BUILT_INS[..3],
        b'd' => &BUILT_INS[3..4],
        b'e' => &BUILT_INS[4..6],
        b'i' => &BUILT_INS[6..12],
        b'l' => &BUILT_INS[12..13],
        b's' => &BUILT_INS[13..14],
        b'u' => &BUILT_INS[14..],
        _ => &[],
    }
}

/// Whether a name is that of a built-in type. It is compared only with those of its first byte.
pub fn is_built_in(name: &str) -> bool
    ensures { result ≡ is_built_in name.now }
{
    match name.as_bytes().first() {
        Some(byte) => is_among(beginning_with(*byte), name),
        None => false,
    }
}
