//! What the statements of nodes say as leafrefs.
ghost use Rattle.std.specs.Prelude.{◌≡◌, IfOk, OnOk};
ghost use Rattle.yv_link_scopes.specs.Views.{lent_in};
ghost use Rattle.yv_expand_statements.specs.declared.origin.Origin.{Origin};
ghost use Rattle.yv_node_statements.specs.Context.{files_in, typing_in};
ghost use Rattle.yv_schema.specs.{Referrals.{referral_at}, InnerNumbers.{IsNumbered, KeepsNumbers}, InnerDraft.{IsDraft, leafrefs_in, number_at}};

use crate::number_table::NumberTable;
use std::alloc::{AllocError, Global};
use std::collections::BTreeMap;
use yv_expand_statements::Origin;
use yv_link_scopes::Rows;
use yv_node_leafrefs::Leafref;
use yv_node_statements::Definitions;

/// What the statements of nodes say. Each is asked once, however many nodes are copies of its node,
/// since its `type` may come after much else in its block.
#[derive(Drop)]
pub(crate) struct Draft<'a> {
    numbered: NumberTable<'a>,
    // By the number of a statement.
    known: BTreeMap<usize, Option<usize>>,
}

impl<'a> Draft<'a> {
    /// Nothing is said yet.
    pub(crate) fn new(
        alloc: Global,
        rows: &Rows<'a, '_>,
        definitions: &Definitions<'_, 'a, '_>,
    ) -> Result<Draft<'a>, AllocError>
        ensures { IfOk result (IsDraft (typing_in definitions.now) (lent_in rows.now)) }
    {
        Ok(Draft {
            numbered: NumberTable::new(alloc, rows)?,
            known: BTreeMap::new(alloc),
        })
    }

    // The number of what a statement says, if it was asked.
    fn find(&self, statement: usize) -> Option<Option<usize>>
        ensures { result ≡ number_at self.now statement }
    {
        self.known.get(&statement).copied()
    }

    /// The number of what a node of this origin says: its statement is asked, if it wasn't before.
    /// None where it is not a leafref.
    pub(crate) fn of(
        &mut self,
        alloc: Global,
        rows: &Rows<'a, '_>,
        definitions: &Definitions<'_, 'a, '_>,
        origin: Origin,
    ) -> Result<Option<usize>, AllocError>
        requires same { files_in definitions.now ≡ lent_in rows.now }
        requires draft { IsDraft (typing_in definitions.now) (lent_in rows.now) self.old }
        ensures draft { OnOk result
            (IsDraft (typing_in definitions.now) (lent_in rows.now) self.new) }
        ensures keeps { OnOk result (KeepsNumbers (leafrefs_in self.old) (leafrefs_in self.new)) }
        ensures number { IfOk result (λ number. IsNumbered (leafrefs_in self.new) number
            (referral_at (typing_in definitions.now) (lent_in rows.now) origin)) }
    {
        let Origin::Statement(statement) = origin else {
            return Ok(None);
        };
        if let Some(number) = self.find(statement) {
            return Ok(number);
        }
        let referring = definitions.leafref_of(origin);
        let number = self.numbered.of(alloc, rows, referring)?;
        self.known.insert(statement, number)?;
        Ok(number)
    }

    /// What is said, by number.
    pub(crate) fn leafrefs(self) -> Vec<Leafref>
        ensures { result.items ≡ leafrefs_in self.entry }
    {
        self.numbered.leafrefs
    }
}
