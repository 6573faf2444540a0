//! What types say as leafrefs, with a number for each.
ghost use Rattle.std.specs.Prelude.{◌≡◌, Some, IfOk, OnOk};
ghost use Rattle.yv_link_scopes.specs.Views.{lent_in};
ghost use Rattle.yv_schema.specs.{Referrals.{referral_of}, InnerNumbers.{Key, AreNumbered, IsNumbered, KeepsNumbers, number_of, said_in}};

use crate::leafref::{put, read_leafref};
use std::alloc::{AllocError, Global};
use std::collections::BTreeMap;
use yv_link_scopes::Rows;
use yv_node_leafrefs::Leafref;
use yv_node_paths::LeafPaths;
use yv_types::TypeLeafref;

/// What types say, read once for all that have the path of one statement and agree on whether an
/// instance is required.
#[derive(Drop)]
pub(crate) struct NumberTable<'a> {
    paths: LeafPaths<'a>,
    // By the number of the statement that has the path, and whether an instance is required. A path
    // that isn't there is known too.
    known: BTreeMap<(usize, bool), Option<usize>>,
    pub(crate) leafrefs: Vec<Leafref>,
}

impl<'a> NumberTable<'a> {
    /// Nothing is said yet.
    pub(crate) fn new(alloc: Global, rows: &Rows<'a, '_>) -> Result<NumberTable<'a>, AllocError>
        ensures { IfOk result (AreNumbered (lent_in rows.now)) }
    {
        Ok(NumberTable {
            paths: LeafPaths::read(alloc, rows)?,
            known: BTreeMap::new(alloc),
            leafrefs: Vec::new(alloc),
        })
    }

    // The number of what types like this say, if one was met.
    fn find(&self, referring: TypeLeafref) -> Option<Option<usize>>
        ensures { result ≡ number_of self.now (referring.origin, referring.is_required) }
    {
        self.known
            .get(&(referring.origin, referring.is_required))
            .copied()
    }

    /// The number of what a type says, which is read if no such type was met. None where it says
    /// nothing.
    pub(crate) fn of(
        &mut self,
        alloc: Global,
        rows: &Rows<'a, '_>,
        referring: Option<TypeLeafref>,
    ) -> Result<Option<usize>, AllocError>
        requires { AreNumbered (lent_in rows.now) self.old }
        ensures numbers { OnOk result (AreNumbered (lent_in rows.now) self.new) }
        ensures keeps { OnOk result (KeepsNumbers (said_in self.old) (said_in self.new)) }
        ensures number { IfOk result
            (λ number. IsNumbered (said_in self.new) number
            (referral_of (lent_in rows.now) referring)) }
    {
        let Some(referring) = referring else {
            return Ok(None);
        };
        if let Some(number) = self.find(referring) {
            return Ok(number);
        }
        let said = read_leafref(alloc, rows, &self.paths, referring)?;
        let number = put(&mut self.leafrefs, said)?;
        self.known
            .insert((referring.origin, referring.is_required), number)?;
        Ok(number)
    }
}
