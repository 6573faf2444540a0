//! Names, and the numbers of the statements that use them.
ghost use Rattle.std.specs.{Prelude.{◌≡◌, ◌↔◌, ◌==◌, ◌&&◌, ◌||◌, ◌≤◌, ◌<◌, ℕ, List, true, false, IsTrue, OnOk}, Str.{bytes_eq}};
ghost use Rattle.yv_link_scopes.specs.Names.{prefix_of};
ghost use Rattle.yv_lint.specs.{Definitions.{is_own, is_use}, InnerUses.{has_use}};

use std::alloc::{AllocError, Global};
use std::collections::BTreeSet;
use yv_link_scopes::{local, name_of, prefix_of};
use yv_text_statement::{Keyword, Statement};

// Whether a name has no prefix but the file's own.
fn is_own(own: &str, name: &str) -> bool
    ensures { result ≡ is_own own.now (prefix_of name.now) }
{
    match prefix_of(name) {
        None => true,
        Some(prefix) => prefix == own,
    }
}

/// Names, each with the number of a statement that uses it.
#[derive(Drop)]
pub struct UseSet<'a> {
    set: BTreeSet<(&'a [u8], usize)>,
}

impl<'a> UseSet<'a> {
    /// No names.
    pub fn new(alloc: Global) -> UseSet<'a>
        ensures { (name : List ℕ) (number : ℕ) → has_use result name number ≡ false }
    {
        UseSet {
            set: BTreeSet::new(alloc),
        }
    }

    // Adds a name and the number of a statement that uses it.
    fn insert(&mut self, name: &'a [u8], number: usize) -> Result<(), AllocError>
        ensures { OnOk result ((n : List ℕ) (k : ℕ) → has_use self.new n k
            ≡ (has_use self.old n k || (bytes_eq name.now n && (number == k)))) }
    {
        self.set.insert((name, number))?;
        Ok(())
    }

    /// Adds the name that a numbered statement uses, if it has this keyword.
    pub fn note(
        &mut self,
        keyword: Keyword,
        own: &str,
        number: usize,
        statement: &'a Statement<'_>,
    ) -> Result<(), AllocError>
        ensures { OnOk result ((n : List ℕ) (k : ℕ) → has_use self.new n k
            ≡ (has_use self.old n k || (is_use keyword own.now n statement.now && (number == k)))) }
    {
        let name = name_of(statement);
        if statement.is(keyword) && is_own(own, name) {
            self.insert(local(name).as_bytes(), number)?;
        }
        Ok(())
    }

    /// Whether a name is used by a statement with a number from start on and before end.
    pub fn has_between(&self, name: &'a str, start: usize, end: usize) -> bool
        ensures { IsTrue result
            ↔ ((k : ℕ) × (start ≤ k) × (k < end) × (has_use self.now name.now k ≡ true)) }
    {
        let name = name.as_bytes();
        start < end && self.set.range((name, start)..(name, end)).next().is_some()
    }
}
