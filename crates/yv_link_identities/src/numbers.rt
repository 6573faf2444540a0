//! The identities, numbered by themselves in the order of the statements.
ghost use Rattle.std.specs.Prelude.{◌≡◌, List, IfOk};
ghost use Rattle.yv_link_scopes.specs.{Rows.{Row, row}, Views.{rows_in}};
ghost use Rattle.yv_link_identities.specs.{Names.{is_identity}, InnerIdentityNumbers.{node_of}, InnerNumbers.{AreNumbers}};

use crate::references::{IdentityRef, reference};
use std::alloc::{AllocError, Global};
use yv_link_scopes::{Entry, Rows};
use yv_text_statement::Keyword;

/// The identities, and for each statement its number among them.
#[derive(Drop)]
pub(crate) struct Numbers {
    pub identities: Vec<IdentityRef>,
    pub nodes: Vec<Option<usize>>,
}

// Whether a statement is an identity.
fn is_identity(entry: &Entry<'_, '_>) -> bool
    ensures { result ≡ is_identity (row entry.now) }
{
    entry.is(Keyword::Identity)
}

impl Numbers {
    /// Numbers the identities.
    pub(crate) fn read(alloc: Global, rows: &Rows<'_, '_>) -> Result<Numbers, AllocError>
        ensures { IfOk result (AreNumbers (rows_in rows.now)) }
    {
        let mut identities = Vec::new(alloc);
        let mut nodes = Vec::new(alloc);
        for entry in rows.entries() {
            if is_identity(entry) {
                nodes.push(Some(identities.len()))?;
                identities.push(reference(entry))?;
            } else {
                nodes.push(None)?;
            }
        }
        Ok(Numbers { identities, nodes })
    }

    /// The number of a statement among the identities.
    pub(crate) fn node(&self, number: usize) -> Option<usize>
        ensures { (rows : List Row) → AreNumbers rows self.now → result ≡ node_of rows number }
    {
        *self.nodes.get(number)?
    }
}
