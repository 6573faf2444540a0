//! Where names occur first.
ghost use Rattle.std.specs.Prelude.{◌≡◌, ℕ, List, Option, None, OnOk};
ghost use Rattle.yv_link_scopes.specs.{Tables.{table_of}, InnerPlaces.{keep_first}};

use std::alloc::{AllocError, Global};
use std::collections::BTreeMap;

/// For each name in a numbered block, the number of a statement.
#[derive(Drop)]
pub struct NamePlaces<'a> {
    map: BTreeMap<(usize, &'a [u8]), usize>,
}

impl<'a> NamePlaces<'a> {
    /// No names.
    pub(crate) fn new(alloc: Global) -> NamePlaces<'a>
        ensures { (scope : ℕ) (name : List ℕ) → table_of result scope name ≡ None }
    {
        NamePlaces {
            map: BTreeMap::new(alloc),
        }
    }

    /// The number at a name in a block.
    pub fn get(&self, scope: usize, name: &'a str) -> Option<usize>
        ensures { result ≡ table_of self.now scope name.now }
    {
        self.get_bytes(scope, name.as_bytes())
    }

    /// The number at a name in a block, the name given by its bytes.
    pub fn get_bytes(&self, scope: usize, name: &'a [u8]) -> Option<usize>
        ensures { result ≡ table_of self.now scope name.now }
    {
        self.map.get(&(scope, name)).copied()
    }

    /// Puts a number at a name in a block, where there is none yet.
    pub(crate) fn keep(
        &mut self,
        scope: usize,
        name: &'a [u8],
        place: usize,
    ) -> Result<(), AllocError>
        ensures { OnOk result ((s : ℕ) (n : List ℕ)
            → table_of self.new s n ≡ keep_first (table_of self.old) scope name.now place s n) }
    {
        // A new name is searched for once. The number of one that was there is put back.
        if let Some(first) = self.map.insert((scope, name), place)? {
            self.map.insert((scope, name), first)?;
        }
        Ok(())
    }
}
