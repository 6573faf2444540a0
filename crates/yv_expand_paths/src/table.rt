//! Numbers by name.
ghost use Rattle.std.specs.Prelude.{◌≡◌, ℕ, List, None, Some, IfOk, OnOk};
ghost use Rattle.yv_expand_paths.specs.InnerNames.{table_of, keep_first};

use std::alloc::{AllocError, Global};
use std::collections::BTreeMap;

/// For each name a number. Names are chosen by strangers, so they are kept in order.
#[derive(Drop)]
pub(crate) struct Table<'a> {
    map: BTreeMap<&'a [u8], u32>,
}

impl<'a> Table<'a> {
    /// No names.
    pub(crate) fn new(alloc: Global) -> Table<'a>
        ensures { (name : List ℕ) → table_of result name ≡ None }
    {
        Table {
            map: BTreeMap::new(alloc),
        }
    }

    /// The number of a name.
    pub(crate) fn get(&self, name: &'a str) -> Option<u32>
        ensures { result ≡ table_of self.now name.now }
    {
        self.map.get(&name.as_bytes()).copied()
    }

    /// Gives a name this number, where it has none yet, and answers the number that it has. The
    /// name is looked up once.
    pub(crate) fn keep(&mut self, name: &'a str, number: u32) -> Result<u32, AllocError>
        ensures tells { OnOk result
            ((n : List ℕ) → table_of self.new n
            ≡ keep_first (table_of self.old) name.now number n) }
        ensures number { IfOk result (λ given. table_of self.new name.now ≡ Some given) }
    {
        let given = self.map.entry(name.as_bytes())?.or_insert(number);
        Ok(*given)
    }
}
