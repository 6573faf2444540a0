//! The first node of each name below each place.
ghost use Rattle.std.specs.Prelude.{◌≡◌, ◌<◌, ◌^◌, length, OnOk, IfOk};
ghost use Rattle.yv_node_leafrefs.specs.InnerIndex.{Key, table_of, kept_first, IsFirstOf, rank_of};

use std::alloc::{AllocError, Global};
use std::collections::BTreeMap;

/// The number of a place, that of the file of a module, and that of a name.
pub(crate) type Key = (u64, u32, u32);

/// For each key the first node that has it.
#[derive(Drop)]
pub(crate) struct Index {
    map: BTreeMap<(u64, u32, u32), u32>,
}

/// The number of a place: 0 is the document's.
pub(crate) fn rank(place: Option<u32>) -> u64
    ensures { result ≡ rank_of place }
{
    match place {
        None => 0,
        Some(number) => number as u64 + 1,
    }
}

impl Index {
    // Puts a node at its key, where none is there.
    fn put_first(&mut self, key: Key, number: u32) -> Result<(), AllocError>
        ensures { OnOk result
            ((k : Key) → table_of self.new k ≡ kept_first key number (table_of self.old k) k) }
    {
        if !self.map.contains_key(&key) {
            self.map.insert(key, number)?;
        }
        Ok(())
    }

    /// The index of nodes that have these keys.
    pub(crate) fn of(alloc: Global, keys: &[Option<Key>]) -> Result<Index, AllocError>
        requires { length keys.now < 2 ^ 32 }
        ensures { IfOk result
            (λ index. (k : Key) → IsFirstOf keys.now (length keys.now) k (table_of index k)) }
    {
        let mut index = Index {
            map: BTreeMap::new(alloc),
        };
        for (number, key) in keys.iter().enumerate() {
            if let Some(key) = key {
                index.put_first(*key, number as u32)?;
            }
        }
        Ok(index)
    }

    /// The first node that has a key.
    pub(crate) fn get(&self, key: Key) -> Option<u32>
        ensures { result ≡ table_of self.now key }
    {
        self.map.get(&key).copied()
    }
}
