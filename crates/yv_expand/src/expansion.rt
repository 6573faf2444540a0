//! Items in a list that keeps to a limit.
ghost use Rattle.std.specs.Prelude.{◌≡◌, ◌≤◌, ◌<◌, ◌==◌, ℕ, [], ◌∷◌, ◌++◌, Some, length, OnOk, OnErr};

use crate::item::Item;
use std::alloc::{AllocError, Global};
use std::marker::Model;

/// An expansion: items with numbers from 0, each after its parent, and never more than a limit.
/// Contracts see the limit and the items.
#[derive(Drop)]
pub struct Expansion {
    limit: u32,
    items: Vec<Item>,
}

impl Model for Expansion {
    ghost use Rattle.std.specs.Prelude.{◌≤◌, length, vec_capacity};
    ghost use Rattle.yv_expand.specs.ItemLimit.{WithinLimit, ParentsComeFirst};

    ghost Value = { WithinLimit };

    ghost view = { λ a. record { limit = a.limit; capacity = vec_capacity a.items; items = a.items.items } };

    ghost invariant = { λ a. (length a.items.items ≤ a.limit) × ParentsComeFirst a.items.items };
}

impl Expansion {
    ghost use Rattle.yv_expand.specs.ItemLimit.{ParentsComeFirst};

    /// No items.
    pub fn new(alloc: Global, limit: u32) -> Expansion
        // It has this limit.
        ensures limit { result.limit ≡ limit }
        // It has no items.
        ensures items { result.items ≡ [] }
    {
        Expansion {
            limit,
            items: Vec::new(alloc),
        }
    }

    /// The most items that it may hold.
    pub fn limit(&self) -> u32
        ensures { result ≡ self.now.limit }
    {
        self.limit
    }

    /// How many items there are.
    pub fn len(&self) -> u32
        // The number of items.
        ensures count { result ≡ length self.now.items }
        // There are no more than the limit.
        ensures within { length self.now.items ≤ self.now.limit }
    {
        let _limit = self.limit;
        self.items.len() as u32
    }

    /// Whether there are no items.
    pub fn is_empty(&self) -> bool
        ensures { result ≡ (length self.now.items == 0) }
    {
        self.items.is_empty()
    }

    /// The items in the order of their numbers.
    pub fn items(&self) -> &[Item]
        // The items, in the order of their numbers.
        ensures items { result.now ≡ self.now.items }
        // Each comes after its parent.
        ensures parents { ParentsComeFirst result.now }
    {
        self.items.as_slice()
    }

    /// Adds an item after the others. There must be room, and its parent must be there. An error,
    /// which changes nothing, occurs only where more memory had to be allocated.
    pub fn push(&mut self, item: Item) -> Result<(), AllocError>
        // There are fewer items than the limit.
        requires room { length self.old.items < self.old.limit }
        // The item's parent is one of them.
        requires parent { (p : ℕ) → item.parent ≡ Some p → p < length self.old.items }
        // The item is added at the end.
        ensures adds { OnOk result (self.new.items ≡ self.old.items ++ item ∷ []) }
        // After an error the items are as before.
        ensures same { OnErr result (self.new.items ≡ self.old.items) }
        // An error is answered only where more memory had to be allocated.
        ensures full { OnErr result (self.old.capacity ≤ length self.old.items) }
        // The room for items that was allocated stays.
        ensures keeps { self.old.capacity ≤ self.new.capacity }
        // The limit stays.
        ensures limit { self.new.limit ≡ self.old.limit }
    {
        self.items.push(item)?;
        Ok(())
    }
}
