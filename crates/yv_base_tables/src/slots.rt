//! Values, or none, at each of many places.
ghost use Rattle.std.specs.Prelude.{◌≡◌, ◌≢◌, ◌<◌, ℕ, None, length, IfOk};
ghost use Rattle.yv_base_tables.specs.Slots.{at};

use std::alloc::{AllocError, Global};

/// So many slots, none with a value.
pub fn empty<T: Copy>(alloc: Global, count: usize) -> Result<Vec<Option<T>>, AllocError>
    // There are so many.
    ensures each { IfOk result (λ slots. length slots.items ≡ count) }
    // None has a value.
    ensures nothing { IfOk result (λ slots. (k : ℕ) → at slots.items k ≡ None) }
{
    vec![in alloc; None; count]
}

/// The value at a place.
pub fn get<T: Copy>(slots: &[Option<T>], place: usize) -> Option<T>
    // It is the one at this place.
    ensures { result ≡ at slots.now place }
{
    *slots.get(place)?
}

/// Puts a value, or none, at a place that there is.
pub fn put<T: Copy + Drop>(slots: &mut Vec<Option<T>>, place: usize, value: Option<T>)
    // There are as many places as before.
    ensures each { length slots.new.items ≡ length slots.old.items }
    // This is at that place then.
    ensures here { place < length slots.old.items → at slots.new.items place ≡ value }
    // What is at other places stays.
    ensures elsewhere { (k : ℕ) → k ≢ place → at slots.new.items k ≡ at slots.old.items k }
{
    if place < slots.len() {
        slots[place] = value;
    }
}
