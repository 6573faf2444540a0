//! The first of all that is wrong with types.
ghost use Rattle.std.specs.Prelude.{◌≡◌, ◌≢◌, Err, IfOk};
ghost use Rattle.yv_text_statement.specs.{Order.{IsLeast}, declared.refusal.Refusal.{Refusal}, declared.refusal.Stop.TheVariants.{Fault, PatternBuild}, Selection.{ModuleChoice}};
ghost use Rattle.yv_link_scopes.specs.Files.{Files};
ghost use Rattle.yv_link_definitions.specs.Meanings.{AreNames};
ghost use Rattle.yv_type_restrictions.specs.Types.{HasTypePattern};
ghost use Rattle.yv_link.specs.LinkedFiles.{AreLinked, truth_in};
ghost use Rattle.yv_types.specs.Refusals.{BadTypes};

use crate::layers::Layers;
use std::alloc::Global;
use yv_link::Linked;
use yv_link_definitions::Names;
use yv_text_statement::{Refusal, Stop};

/// The least that is wrong with the types of linked files, the names being theirs (RFC 7950,
/// section 9): a substatement that a type doesn't accept or lacks, a leafref in a union, a type
/// with more than 64 members, a range, a length or a pattern that is malformed or wider than what
/// it narrows, or a name or a number of an enumeration or of bits. None where nothing is wrong.
/// `PatternBuild` says that `regex` doesn't build the translation of a pattern of the dialect; no
/// refusal is an error here.
///
/// It takes time n log n in statements except for what `Patterns::read` says of patterns. Nothing
/// recurses along typedefs.
pub fn first_bad_type(
    alloc: Global,
    linked: &Linked<'_, '_>,
    names: &Names,
) -> Result<Option<Refusal>, Stop>
    // Only that least refusal, or none.
    ensures least { IfOk result
        (λ fault. (files : Files) (choice : ModuleChoice) → AreLinked files choice linked.now
        → AreNames files names.now
        → IsLeast (BadTypes files (truth_in linked.now)) fault) }
    // No refusal is an error here.
    ensures faultless { (r : Refusal) → result ≢ Err (Fault r) }
    // `PatternBuild` is returned only if a type has a pattern.
    ensures builds { result ≡ Err PatternBuild
        → (files : Files) (choice : ModuleChoice) → AreLinked files choice linked.now
        → HasTypePattern files }
{
    match Layers::read(alloc, linked, names) {
        Ok(layers) => Ok(layers.refusal()),
        Err(stop) => Err(stop),
    }
}
