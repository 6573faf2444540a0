//! The plain types of all types.
ghost use Rattle.std.specs.Prelude.{◌≡◌, IfOk};
ghost use Rattle.yv_text_statement.specs.Selection.{ModuleChoice};
ghost use Rattle.yv_link_scopes.specs.Files.{Files};
ghost use Rattle.yv_link.specs.LinkedFiles.{AreLinked, truth_in};
ghost use Rattle.yv_types.specs.{Types.{AreLayers}, InnerTables.{AreNumbered, AreSpaces}};

use crate::layers::Layers;
use crate::table::{SharedTypes, put};
use std::alloc::{AllocError, Global};
use yv_base_tables::Table;
use yv_link::Linked;
use yv_type_chains::types_by_block;
use yv_type_identities::IdentityLists;

// At how many places a list is looked for before another is made of the same type: there are some
// ten built-in types that say it all.
const MOST_COMMON: usize = 16;

impl Layers<'_> {
    /// The plain types of all types, by number.
    pub(crate) fn spaces(
        &self,
        alloc: Global,
        linked: &Linked<'_, '_>,
    ) -> Result<Table<SharedTypes>, AllocError>
        ensures makes { IfOk result
            (λ spaces. (files : Files) (choice : ModuleChoice) → AreLinked files choice linked.now
            → AreLayers files (truth_in linked.now) self.now
            → AreSpaces files (truth_in linked.now) choice spaces) }
        ensures numbers { IfOk result (λ spaces. AreNumbered spaces) }
    {
        let rows = linked.rows();
        let inside = types_by_block(alloc, rows)?;
        let mut identities = IdentityLists::new(alloc, linked)?;
        let mut spaces = Table::new(alloc);
        let mut common = Vec::new(alloc);
        let mut list = 0;
        for number in self.bases.order() {
            let space = self.types_at(
                alloc,
                linked,
                &mut identities,
                &inside,
                &spaces,
                &common,
                *number,
                list,
            )?;
            if common.len() < MOST_COMMON && self.is_common(*number, &space, list) {
                common.push(*number)?;
            }
            put(&mut spaces, *number, space)?;
            list += 1;
        }
        Ok(spaces)
    }

    // Whether a numbered type is the first of one that many may have: its list is new, and it is
    // seen to be the same as itself.
    fn is_common(&self, number: usize, space: &Option<SharedTypes>, list: usize) -> bool {
        match (space, self.faceted.plain(number)) {
            (Some(space), Some(plain)) => space.list == list && plain.is_same(plain),
            _ => false,
        }
    }
}
