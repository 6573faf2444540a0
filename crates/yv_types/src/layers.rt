//! The types of files in layers.
ghost use Rattle.std.specs.Prelude.{◌≡◌, ◌≢◌, Err, IfOk};
ghost use Rattle.yv_text_statement.specs.{Order.{IsLeast}, declared.refusal.Refusal.{Refusal}, declared.refusal.Stop.TheVariants.{Fault, PatternBuild}, Selection.{ModuleChoice}};
ghost use Rattle.yv_link_scopes.specs.Files.{Files};
ghost use Rattle.yv_link_definitions.specs.Meanings.{AreNames};
ghost use Rattle.yv_type_restrictions.specs.Types.{HasTypePattern};
ghost use Rattle.yv_link.specs.LinkedFiles.{AreLinked, truth_in};

use std::alloc::Global;
use yv_link::Linked;
use yv_link_definitions::Names;
use yv_text_statement::{Refusal, Stop, lesser};
use yv_type_chains::Bases;
use yv_type_enums::Lists;
use yv_type_restrictions::PlainTypes;

/// The built-in types to which the types of files lead, the plain types of those with ranges,
/// lengths or patterns, and the names of enumerations and of bits.
#[derive(Drop)]
pub(crate) struct Layers<'a> {
    pub bases: Bases,
    pub faceted: PlainTypes,
    pub lists: Lists<'a>,
}

impl<'a> Layers<'a> {
    ghost use Rattle.yv_type_enums.specs.Types.{Truth};
    ghost use Rattle.yv_types.specs.{Refusals.{BadTypes}, Types.{AreLayers}};

    /// Reads the types of these files, the names being theirs. No refusal is an error here.
    pub(crate) fn read(
        alloc: Global,
        linked: &Linked<'a, '_>,
        names: &Names,
    ) -> Result<Layers<'a>, Stop>
        ensures makes { IfOk result
            (λ layers. (files : Files) (choice : ModuleChoice) → AreLinked files choice linked.now
            → AreNames files names.now
            → AreLayers files (truth_in linked.now) layers) }
        ensures faultless { (r : Refusal) → result ≢ Err (Fault r) }
        ensures builds { result ≡ Err PatternBuild
            → (files : Files) (choice : ModuleChoice) → AreLinked files choice linked.now
            → HasTypePattern files }
    {
        let rows = linked.rows();
        let bases = Bases::read(alloc, rows, names)?;
        let faceted = match PlainTypes::read(alloc, rows, &bases) {
            Ok(faceted) => faceted,
            Err(stop) => return Err(stop),
        };
        let lists = Lists::read(alloc, linked, &bases)?;
        Ok(Layers {
            bases,
            faceted,
            lists,
        })
    }

    /// The least that is wrong with the types.
    pub(crate) fn refusal(&self) -> Option<Refusal>
        ensures { (files : Files) (truth : Truth) → AreLayers files truth self.now
            → IsLeast (BadTypes files truth) result }
    {
        let restrictions = lesser(self.faceted.refusal(), self.lists.refusal());
        lesser(self.bases.refusal(), restrictions)
    }
}
