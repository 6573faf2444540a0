//! Modules by the names or prefixes that mean them.
ghost use Rattle.std.specs.Prelude.{◌≡◌, ℕ, List, None, OnOk};
ghost use Rattle.yv_search.specs.InnerModules.{row_at, lookup, first_kept};

use std::alloc::{AllocError, Global};
use std::collections::BTreeMap;

/// A module that has a file.
#[derive(Clone, Copy)]
pub(crate) struct ModuleRef {
    /// The number of its first file.
    pub(crate) number: usize,
    /// Whether a file has it as its root.
    pub(crate) is_there: bool,
    /// Whether `--import-only` doesn't name it.
    pub(crate) is_free: bool,
}

/// For each word the module that it means, or that it means none. Words are chosen by strangers, so
/// they are kept in order.
#[derive(Drop)]
pub(crate) struct Table<'a> {
    rows: BTreeMap<&'a [u8], Option<ModuleRef>>,
}

impl<'a> Table<'a> {
    /// No words.
    pub(crate) fn new(alloc: Global) -> Table<'a>
        ensures { (q : List ℕ) → row_at result q ≡ None }
    {
        Table {
            rows: BTreeMap::new(alloc),
        }
    }

    /// The module that a word means.
    pub(crate) fn get(&self, word: &str) -> Option<ModuleRef>
        ensures { result ≡ lookup self.now word.now }
    {
        match self.rows.get(word.as_bytes()) {
            Some(row) => *row,
            None => None,
        }
    }

    /// Gives a word this meaning, where it has none yet.
    pub(crate) fn keep(&mut self, word: &'a str, row: Option<ModuleRef>) -> Result<(), AllocError>
        ensures { OnOk result ((q : List ℕ)
            → row_at self.new q ≡ first_kept (row_at self.old q) word.now row q) }
    {
        if let None = self.rows.get(word.as_bytes()) {
            self.rows.insert(word.as_bytes(), row)?;
        }
        Ok(())
    }
}
