//! What the names of a file mean.
ghost use Rattle.std.specs.{Prelude.{◌≡◌, map, option_map}, Str.{bytes_eq}};
ghost use Rattle.yv_values.specs.Scopes.{module_of, binding_of};

use crate::name::is_same;

/// The scope of names in a file, what they mean: the file's module, and each prefix, its own too,
/// with the module that it means.
#[derive(Drop)]
pub struct Scope {
    pub module: String,
    pub prefixes: Vec<(String, String)>,
}

/// The module of a prefix.
pub(crate) fn module_of<'a>(prefixes: &'a [(String, String)], prefix: &[u8]) -> Option<&'a [u8]>
    ensures { option_map (λ m. m.now) result ≡ module_of (map binding_of prefixes.now) prefix.now }
{
    for (name, module) in prefixes {
        if is_same(name.as_bytes(), prefix) {
            return Some(module.as_bytes());
        }
    }
    None
}
