//! Reading the types of files.
ghost use Rattle.std.specs.Prelude.{◌≡◌, ◌⊎◌, Err, None, Some, IfOk, OnOk};
ghost use Rattle.yv_text_statement.specs.{Order.{IsLeast}, declared.refusal.Refusal.{Refusal}, declared.refusal.Stop.TheVariants.{Fault, PatternBuild}, Selection.{ModuleChoice}};
ghost use Rattle.yv_link_scopes.specs.Files.{Files};
ghost use Rattle.yv_link_definitions.specs.{Meanings.{AreNames}, Refusals.{BadNames}};
ghost use Rattle.yv_type_restrictions.specs.Types.{HasTypePattern};
ghost use Rattle.yv_link.specs.LinkedFiles.{AreLinked, truth_in};
ghost use Rattle.yv_types.specs.{Refusals.{BadTypes}, Types.{AreTypes}};

use crate::defaults::TypedefDefaults;
use crate::layers::Layers;
use crate::leafref_types::LeafrefTypes;
use crate::type_table::Types;
use std::alloc::Global;
use yv_link::Linked;
use yv_link_definitions::{Names, names, places_of_types};
use yv_text_statement::Stop;

/// The plain types and the defaults of the types of linked files, and what they say as leafrefs,
/// the names being theirs, or the least refusal of these (RFC 7950, section 9). `PatternBuild` says
/// that `regex` doesn't build the translation of a pattern of the dialect. Types that are derived
/// from unions and identityrefs share the lists of these, and so do identityrefs with the same
/// bases; each with bases of its own takes the time that `Identities::of` names.
pub fn types(alloc: Global, linked: &Linked<'_, '_>, names: &Names) -> Result<Types, Stop>
    // They are the plain types of these files under their selection.
    ensures makes { IfOk result
        (λ types. (files : Files) (choice : ModuleChoice) → AreLinked files choice linked.now
        → AreNames files names.now
        → AreTypes files choice (truth_in linked.now) types) }
    // Types are returned only if nothing is refused of them.
    ensures clear { OnOk result
        ((files : Files) (choice : ModuleChoice) → AreLinked files choice linked.now
        → AreNames files names.now
        → IsLeast (BadTypes files (truth_in linked.now)) None) }
    // A refusal is the least that applies to them.
    ensures refusal { (r : Refusal) → result ≡ Err (Fault r)
        → (files : Files) (choice : ModuleChoice) → AreLinked files choice linked.now
        → AreNames files names.now
        → IsLeast (BadTypes files (truth_in linked.now)) (Some r) }
    // `PatternBuild` is returned only if a type has a pattern.
    ensures builds { result ≡ Err PatternBuild
        → (files : Files) (choice : ModuleChoice) → AreLinked files choice linked.now
        → HasTypePattern files }
{
    let layers = match Layers::read(alloc, linked, names) {
        Ok(layers) => layers,
        Err(stop) => return Err(stop),
    };
    if let Some(refusal) = layers.refusal() {
        return Err(Stop::Fault(refusal));
    }
    let spaces = layers.spaces(alloc, linked)?;
    let defaults = TypedefDefaults::read(alloc, linked.rows(), names, &layers.bases)?;
    let leafrefs = LeafrefTypes::read(alloc, linked.rows(), &layers.bases)?;
    let places = places_of_types(alloc, linked.rows())?;
    Ok(Types {
        spaces,
        defaults,
        leafrefs,
        places,
    })
}

/// The same, by the names of the linked files themselves, so that a caller cannot pass those of
/// others. What types and uses mean is refused before what is wrong with the types.
pub fn resolve_types(alloc: Global, linked: &Linked<'_, '_>) -> Result<Types, Stop>
    // They are the plain types of these files under their selection.
    ensures makes { IfOk result
        (λ types. (files : Files) (choice : ModuleChoice) → AreLinked files choice linked.now
        → AreTypes files choice (truth_in linked.now) types) }
    // Types are returned only if nothing is refused of the names.
    ensures names { OnOk result
        ((files : Files) (choice : ModuleChoice) → AreLinked files choice linked.now
        → IsLeast (BadNames files) None) }
    // Nor is anything refused of the types.
    ensures clear { OnOk result
        ((files : Files) (choice : ModuleChoice) → AreLinked files choice linked.now
        → IsLeast (BadTypes files (truth_in linked.now)) None) }
    // A refusal is the least of the names, or, if nothing is refused of these, of the types.
    ensures refusal { (r : Refusal) → result ≡ Err (Fault r)
        → (files : Files) (choice : ModuleChoice) → AreLinked files choice linked.now
        → IsLeast (BadNames files) (Some r)
        ⊎ (IsLeast (BadNames files) None
        × IsLeast (BadTypes files (truth_in linked.now)) (Some r)) }
    // `PatternBuild` is returned only if a type has a pattern.
    ensures builds { result ≡ Err PatternBuild
        → (files : Files) (choice : ModuleChoice) → AreLinked files choice linked.now
        → HasTypePattern files }
{
    match names(alloc, linked.rows()) {
        Ok(names) => types(alloc, linked, &names),
        Err(stop) => Err(stop),
    }
}
