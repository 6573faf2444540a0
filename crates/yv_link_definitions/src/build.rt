//! Reading the names of files.
ghost use Rattle.std.specs.Prelude.{◌≡◌, ◌≢◌, ℕ, None, Some, Err, IfOk, OnOk};
ghost use Rattle.yv_text_statement.specs.{Order.{IsLeast}, declared.refusal.Refusal.{Refusal}, declared.refusal.Stop.TheVariants.{Fault, PatternBuild}};
ghost use Rattle.yv_base_graph.specs.Graph.{LeadsTo};
ghost use Rattle.yv_link_scopes.specs.Views.{lent_in, files_in, rows_in};
ghost use Rattle.yv_link_definitions.specs.{Refusals.{BadIn, BadNames}, Leads.{IsOrderOf}, Meanings.{AreNames}, InnerAnswers.{AreMeant}, InnerGraph.{AreSteps}};

use crate::answers::Answers;
use crate::draft::Draft;
use crate::meaning_table::Names;
use std::alloc::{AllocError, Global};
use yv_base_graph::{Ranking, nodes_on_cycles, rank};
use yv_link_scopes::Rows;
use yv_text_statement::{Refusal, Stop};

impl Draft<'_, '_, '_> {
    // The least refusal where a definition leads to itself.
    fn cycle_refusal(
        &self,
        alloc: Global,
        meanings: &[Option<u32>],
        steps: &[Vec<usize>],
    ) -> Result<Refusal, AllocError>
        requires meant { let rows = self.now.rows.now
            in AreMeant (files_in rows) (rows_in rows) meanings.now }
        requires steps { let rows = self.now.rows.now
            in AreSteps (files_in rows) (rows_in rows) steps.now }
        requires cycle { (a : ℕ) × LeadsTo steps.now a a }
        ensures { let rows = self.now.rows.now
            in IfOk result (λ r. IsLeast (BadIn (files_in rows) (rows_in rows)) (Some r)) }
    {
        let cycles = nodes_on_cycles(alloc, steps)?;
        let Some(refusal) = self.first_refusal(meanings, &cycles) else {
            unreachable!();
        };
        Ok(refusal)
    }

    // The numbers of all statements, each definition after all to which it leads; or the least
    // refusal.
    fn order(&self, alloc: Global, meanings: &[Option<u32>]) -> Result<Vec<usize>, Stop>
        requires { let rows = self.now.rows.now
            in AreMeant (files_in rows) (rows_in rows) meanings.now }
        ensures makes { let rows = self.now.rows.now
            in IfOk result (λ order. IsOrderOf (files_in rows) (rows_in rows) order.items) }
        ensures clear { let rows = self.now.rows.now
            in OnOk result (IsLeast (BadIn (files_in rows) (rows_in rows)) None) }
        ensures refusal { let rows = self.now.rows.now
            in (r : Refusal) → result ≡ Err (Fault r)
            → IsLeast (BadIn (files_in rows) (rows_in rows)) (Some r) }
        ensures builds { result ≢ Err PatternBuild }
    {
        let steps = self.steps(alloc, meanings)?;
        let Ranking::Ranks { order, .. } = rank(alloc, &steps)? else {
            let refusal = self.cycle_refusal(alloc, meanings, &steps)?;
            return Err(Stop::Fault(refusal));
        };
        if let Some(refusal) = self.first_refusal(meanings, &[]) {
            return Err(Stop::Fault(refusal));
        }
        Ok(order)
    }
}

/// What types and uses mean in files, or the least refusal of these: a definition with a name that
/// is in use, a type or a uses that means nothing, a typedef or a grouping that leads to itself.
pub fn names<'a, 'b>(alloc: Global, rows: &Rows<'a, 'b>) -> Result<Names, Stop>
    // They are the names of these files.
    ensures makes { IfOk result (AreNames (lent_in rows.now)) }
    // Names are returned only if nothing is refused of them.
    ensures clear { OnOk result (IsLeast (BadNames (lent_in rows.now)) None) }
    // A refusal is the least that applies to them.
    ensures refusal { (r : Refusal) → result ≡ Err (Fault r)
        → IsLeast (BadNames (lent_in rows.now)) (Some r) }
    // `PatternBuild` is never returned.
    ensures builds { result ≢ Err PatternBuild }
{
    let draft = Draft::read(alloc, rows)?;
    let answers = Answers::read(alloc, &draft)?;
    let order = match draft.order(alloc, &answers.meanings) {
        Ok(order) => order,
        Err(stop) => return Err(stop),
    };
    Ok(Names {
        meanings: answers.meanings,
        definitions: answers.definitions,
        types: answers.types,
        uses: answers.uses,
        order,
    })
}
