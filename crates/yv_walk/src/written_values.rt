//! The values that the members of an object write, by the numbers of their nodes.
ghost use Rattle.std.specs.Prelude.{◌≡◌, ◌≤◌, ℕ, None, true, IfSome, OnOk, option_map};
ghost use Rattle.serde_json.specs.View.{view};
ghost use Rattle.yv_walk.specs.{InnerNextExisting.{is_before}, WrittenValues.{value_at, keep_first}};

use serde_json::Value;
use std::alloc::{AllocError, Global};
use std::collections::BTreeMap;

/// A value for each number, or none.
#[derive(Drop)]
pub(crate) struct WrittenValues<'v> {
    values: BTreeMap<u32, &'v Value>,
}

impl<'v> WrittenValues<'v> {
    /// No values.
    pub(crate) fn new(alloc: Global) -> WrittenValues<'v>
        ensures { (n : ℕ) → value_at result n ≡ None }
    {
        WrittenValues {
            values: BTreeMap::new(alloc),
        }
    }

    /// The value at a number.
    pub(crate) fn get(&self, number: u32) -> Option<&'v Value>
        ensures { option_map (λ v. view v.now) result ≡ value_at self.now number }
    {
        self.values.get(&number).copied()
    }

    /// The least number from this one on that has a value.
    pub(crate) fn next(&self, from: u32) -> Option<u32>
        ensures behind { IfSome result (λ next. from ≤ next) }
        ensures none { (n : ℕ) → from ≤ n → is_before n result ≡ true → value_at self.now n ≡ None }
    {
        let (number, _) = self.values.range(from..).next()?;
        Some(*number)
    }

    /// Keeps a value, where the number has none yet.
    pub(crate) fn keep(&mut self, number: u32, value: &'v Value) -> Result<(), AllocError>
        ensures { OnOk result
            ((n : ℕ) → value_at self.new n
            ≡ keep_first (value_at self.old) number (view value.now) n) }
    {
        if self.get(number).is_none() {
            self.values.insert(number, value)?;
        }
        Ok(())
    }
}
