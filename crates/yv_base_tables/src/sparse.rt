//! Values at some of many places.
ghost use Rattle.std.specs.{Prelude.{◌≡◌, ℕ, IfOk}, Option.{option_copied}};

use std::alloc::{AllocError, Global};
use std::collections::BTreeMap;

/// A sparse list: values at some of many places.
#[derive(Drop)]
pub struct Sparse<T> {
    map: BTreeMap<usize, T>,
}

impl<T: Drop> Sparse<T> {
    ghost use Rattle.yv_base_tables.specs.Sparse.{at, item_at};

    /// The values at the places of a list. Takes time n log n in the values, and memory for them
    /// only; besides, time linear in places.
    pub fn of(alloc: Global, items: Vec<Option<T>>) -> Result<Sparse<T>, AllocError>
        ensures { IfOk result
            (λ sparse. (place : ℕ) → at sparse place ≡ item_at items.items place) }
    {
        let mut map = BTreeMap::new(alloc);
        let mut left = items;
        while let Some(last) = left.pop() {
            if let Some(item) = last {
                map.insert(left.len(), item)?;
            }
        }
        Ok(Sparse { map })
    }

    /// The value at a place, if there is one. Takes time log n in the values.
    pub fn get(&self, place: usize) -> Option<&T>
        ensures { option_copied result ≡ at self.now place }
    {
        self.map.get(&place)
    }
}
