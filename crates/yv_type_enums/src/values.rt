//! The names that are values.
ghost use Rattle.std.specs.{Prelude.{◌≡◌, ◌||◌, ℕ, List, false, map, IfOk}, Str.{bytes_eq}};
ghost use Rattle.yv_values.specs.{NameOrder.{is_named}, Values.{texts}};
ghost use Rattle.yv_type_enums.specs.Values.{has};

use std::alloc::{AllocError, Global};
use std::collections::BTreeSet;
use std::rc::RcStr;
use yv_values::NameSet;

/// Names that are values, each once.
#[derive(Drop)]
pub(crate) struct Values<'a> {
    names: BTreeSet<&'a str>,
}

impl<'a> Values<'a> {
    /// No names.
    pub fn new(alloc: Global) -> Values<'a>
        ensures { (s : List ℕ) → has result s ≡ false }
    {
        Values {
            names: BTreeSet::new(alloc),
        }
    }

    /// Whether the name is among them.
    pub fn has(&self, name: &'a str) -> bool
        ensures { result ≡ has self.now name.now }
    {
        self.names.contains(&name)
    }

    /// Adds a name, where it isn't there yet.
    pub fn add(&mut self, name: &'a str) -> Result<(), AllocError>
        ensures { IfOk result
            (λ _. (s : List ℕ) → has self.new s ≡ (has self.old s || bytes_eq name.now s)) }
    {
        self.names.insert(name)?;
        Ok(())
    }

    /// The names as a list in order.
    pub fn names(&self, alloc: Global) -> Result<NameSet, AllocError>
        ensures { IfOk result (λ names. (s : List ℕ) → is_named names s ≡ has self.now s) }
    {
        let mut names = Vec::new(alloc);
        for name in self.names.iter() {
            names.push(RcStr::from_str(alloc, name)?)?;
        }
        NameSet::new(names)
    }
}
