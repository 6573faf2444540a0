//! The built-in types to which types lead.
ghost use Rattle.std.specs.Prelude.{◌≡◌, ◌↔◌, ℕ, Some, IfOk, IsTrue};
ghost use Rattle.yv_link_scopes.specs.Views.{files_in, rows_in};
ghost use Rattle.yv_base_tables.specs.Slots.{at};
ghost use Rattle.yv_type_chains.specs.{Types.{Follows, HasBase, IsOrderOfTypes}, InnerBase.{NamesBuiltIn}, InnerTables.{AreBased, AreFollowed}};

use crate::draft::Draft;
use crate::inside::is_type;
use std::alloc::{AllocError, Global};
use yv_base_tables::slots;
use yv_link_definitions::is_built_in;
use yv_link_scopes::name_of;

impl Draft<'_, '_, '_> {
    /// Whether a statement is a type that names a built-in type.
    pub(crate) fn names_built_in(&self, number: usize) -> bool
        ensures { IsTrue result ↔ NamesBuiltIn (rows_in self.now.rows.now) number }
    {
        match self.rows.entries().get(number) {
            Some(entry) => is_type(entry) && is_built_in(name_of(entry.statement)),
            None => false,
        }
    }

    // The base of a type, that which it follows having its base.
    fn base(&self, bases: &[Option<usize>], number: usize) -> Option<usize>
        ensures { AreFollowed (files_in self.now.rows.now) (rows_in self.now.rows.now)
            self.now.follows.items
            → ((j : ℕ) → Follows (files_in self.now.rows.now) (rows_in self.now.rows.now) number j
            → (b : ℕ) → (at bases.now j ≡ Some b)
            ↔ HasBase (files_in self.now.rows.now) (rows_in self.now.rows.now) j b)
            → (b : ℕ) → (result ≡ Some b)
            ↔ HasBase (files_in self.now.rows.now) (rows_in self.now.rows.now) number b }
    {
        if self.names_built_in(number) {
            return Some(number);
        }
        match slots::get(&self.follows, number) {
            Some(followed) => slots::get(bases, followed),
            None => None,
        }
    }

    /// The base of each type, this being an order of the types.
    pub(crate) fn bases(
        &self,
        alloc: Global,
        order: &[usize],
    ) -> Result<Vec<Option<usize>>, AllocError>
        ensures { IfOk result
            (λ bases. AreFollowed (files_in self.now.rows.now) (rows_in self.now.rows.now)
            self.now.follows.items
            → IsOrderOfTypes (files_in self.now.rows.now) (rows_in self.now.rows.now) order.now
            → AreBased (files_in self.now.rows.now) (rows_in self.now.rows.now) bases.items) }
    {
        let mut bases = slots::empty(alloc, self.rows.entries().len())?;
        for number in order {
            let base = self.base(&bases, *number);
            slots::put(&mut bases, *number, base);
        }
        Ok(bases)
    }
}
