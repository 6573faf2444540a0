//! An order of the types.
ghost use Rattle.std.specs.Prelude.{◌↔◌, IfOk, IsTrue};
ghost use Rattle.yv_link_scopes.specs.Views.{files_in, lent_in, rows_in};
ghost use Rattle.yv_link_definitions.specs.{Meanings.{AreNames}, declared.meaning_table.Names.{Names}};
ghost use Rattle.yv_type_chains.specs.{Types.{IsOrderOfTypes, IsTypeAt}, InnerOrder.{IsOrderOfAll}, InnerTables.{AreFollowed}, InnerSteps.{AreSteps}};

use crate::draft::Draft;
use crate::inside::is_type;
use std::alloc::{AllocError, Global};
use yv_base_graph::{Ranking, rank};

impl Draft<'_, '_, '_> {
    // An order of all statements in which each type comes after those from which it takes its
    // values, these being the steps.
    fn order_of(&self, alloc: Global, steps: &[Vec<usize>]) -> Result<Vec<usize>, AllocError>
        requires { AreSteps (rows_in self.now.rows.now) self.now.follows.items steps.now }
        ensures { IfOk result (λ order. (names : Names) → AreNames (lent_in self.now.rows.now) names
            → AreFollowed (files_in self.now.rows.now) (rows_in self.now.rows.now)
            self.now.follows.items
            → IsOrderOfAll (files_in self.now.rows.now) (rows_in self.now.rows.now) order.items) }
    {
        match rank(alloc, steps)? {
            Ranking::Ranks { order, .. } => Ok(order),
            // Where the names are known no typedef leads to itself, and then no type does.
            Ranking::Cycle(_) => Ok(Vec::new(alloc)),
        }
    }

    /// An order of all statements in which each type comes after those from which it takes its
    /// values.
    pub(crate) fn order(&self, alloc: Global) -> Result<Vec<usize>, AllocError>
        ensures { IfOk result (λ order. (names : Names) → AreNames (lent_in self.now.rows.now) names
            → AreFollowed (files_in self.now.rows.now) (rows_in self.now.rows.now)
            self.now.follows.items
            → IsOrderOfAll (files_in self.now.rows.now) (rows_in self.now.rows.now) order.items) }
    {
        let steps = self.steps(alloc)?;
        self.order_of(alloc, &steps)
    }

    /// Only the types, in an order of all statements.
    pub(crate) fn types_only(
        &self,
        alloc: Global,
        order: &[usize],
    ) -> Result<Vec<usize>, AllocError>
        ensures { IfOk result
            (λ types. IsOrderOfAll (files_in self.now.rows.now) (rows_in self.now.rows.now)
            order.now
            → IsOrderOfTypes (files_in self.now.rows.now) (rows_in self.now.rows.now) types.items) }
    {
        let mut types = Vec::new(alloc);
        for number in order {
            if self.is_type_at(*number) {
                types.push(*number)?;
            }
        }
        Ok(types)
    }

    // Whether a statement is a type.
    fn is_type_at(&self, number: usize) -> bool
        ensures { IsTrue result ↔ IsTypeAt (rows_in self.now.rows.now) number }
    {
        match self.rows.entries().get(number) {
            Some(entry) => is_type(entry),
            None => false,
        }
    }
}
