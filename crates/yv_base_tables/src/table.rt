//! Values at some of many numbers.
ghost use Rattle.std.specs.{Prelude.{◌≡◌, ◌≢◌, ◌<◌, ◌≤◌, ℕ, Some, None, length, slice_index_or, OnErr, OnOk}, List.{All}, Option.{option_copied}};

use std::alloc::{AllocError, Global};

/// A table of values at some of many numbers. It takes 8 bytes for each number up to the last with
/// a value, and memory for each value that was put there.
#[derive(Drop)]
pub struct Table<T> {
    // Where the value of each number is among the items, counted from 1; 0 where it has none.
    places: Vec<usize>,
    items: Vec<T>,
    ghost within: { All (λ place. place ≤ length items.items) places.items },
}

// Makes a number one of the places.
fn grow(places: &mut Vec<usize>, number: usize) -> Result<(), AllocError>
    ensures reaches { OnOk result (number < length places.new.items) }
    ensures same { (k : ℕ) → slice_index_or places.new.items k 0
        ≡ slice_index_or places.old.items k 0 }
{
    while places.len() <= number {
        places.push(0)?;
    }
    Ok(())
}

impl<T: Drop> Table<T> {
    ghost use Rattle.yv_base_tables.specs.Table.{item_of};

    /// No values.
    pub fn new(alloc: Global) -> Table<T>
        ensures { (number : ℕ) → item_of result number ≡ None }
    {
        Table {
            places: Vec::new(alloc),
            items: Vec::new(alloc),
        }
    }

    /// The value at a number, if there is one, in constant time.
    pub fn get(&self, number: usize) -> Option<&T>
        ensures { option_copied result ≡ item_of self.now number }
    {
        let place = *self.places.get(number)?;
        if place == 0 {
            return None;
        }
        self.items.get(place - 1)
    }

    // Puts a value at a number.
    fn put_item(&mut self, number: usize, item: T) -> Result<(), AllocError>
        ensures here { OnOk result (item_of self.new number ≡ Some item) }
        ensures elsewhere { (k : ℕ) → k ≢ number → item_of self.new k ≡ item_of self.old k }
        ensures keeps { OnErr result (item_of self.new number ≡ item_of self.old number) }
    {
        grow(&mut self.places, number)?;
        self.items.push(item)?;
        self.places[number] = self.items.len();
        Ok(())
    }

    // Leaves nothing at a number.
    fn clear(&mut self, number: usize)
        ensures here { item_of self.new number ≡ None }
        ensures elsewhere { (k : ℕ) → k ≢ number → item_of self.new k ≡ item_of self.old k }
    {
        if number < self.places.len() {
            self.places[number] = 0;
        }
    }

    /// Puts a value, or none, at a number. Err only if memory runs out, and then each number has
    /// what it had.
    pub fn put(&mut self, number: usize, item: Option<T>) -> Result<(), AllocError>
        // This is at that number then, or nothing.
        ensures here { OnOk result (item_of self.new number ≡ item) }
        // What is at other numbers stays, also after an error.
        ensures elsewhere { (k : ℕ) → k ≢ number → item_of self.new k ≡ item_of self.old k }
        // After an error what was at this number stays.
        ensures keeps { OnErr result (item_of self.new number ≡ item_of self.old number) }
    {
        match item {
            Some(item) => self.put_item(number, item),
            None => {
                self.clear(number);
                Ok(())
            }
        }
    }
}
