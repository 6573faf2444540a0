//! Where a file uses the names of typedefs and groupings.
ghost use Rattle.std.specs.{Prelude.{◌≡◌, ℕ, List, length, slice_index_or, IfOk, OnOk}};
ghost use Rattle.yv_text_statement.specs.Tree.{Then, End};
ghost use Rattle.yv_lint.specs.InnerUses.{AddsUses, AreUses};

use crate::use_set::UseSet;
use std::alloc::{AllocError, Global};
use yv_text_statement::{Keyword, Statement};

/// The statements of a file in the order of the text, those of extensions and inside them too, by
/// number: where each one ends, and which names they use.
#[derive(Drop)]
pub struct Uses<'a> {
    /// The names of typedefs.
    pub types: UseSet<'a>,
    /// The names of groupings.
    pub groupings: UseSet<'a>,
    ends: Vec<usize>,
}

impl<'a> Uses<'a> {
    /// Those of the file with this root, which is number 0, and this prefix for its own module.
    pub fn read(alloc: Global, own: &str, root: &'a Statement<'_>) -> Result<Uses<'a>, AllocError>
        ensures { IfOk result
            (λ uses. AreUses own.now uses 0 (Then root.now.head root.now.children End)) }
    {
        let mut uses = Uses {
            types: UseSet::new(alloc),
            groupings: UseSet::new(alloc),
            ends: Vec::new(alloc),
        };
        uses.add(own, root)?;
        Ok(uses)
    }

    /// The number after the last statement below a numbered one.
    pub fn end(&self, number: usize) -> usize
        ensures { result ≡ slice_index_or self.now.ends.items number 0 }
    {
        self.ends.get(number).copied().unwrap_or(0)
    }

    // Numbers a statement and all below it, and adds the names that they use.
    fn add(&mut self, own: &str, statement: &'a Statement<'_>) -> Result<(), AllocError>
        ensures { OnOk result (AddsUses own.now self.old self.new
            (length self.old.ends.items) (Then statement.now.head statement.now.children End)) }
    {
        let number = self.ends.len();
        self.ends.push(0)?;
        self.types.note(Keyword::Type, own, number, statement)?;
        self.groupings.note(Keyword::Uses, own, number, statement)?;
        for child in statement.children() {
            self.add(own, child)?;
        }
        let end = self.ends.len();
        self.ends[number] = end;
        Ok(())
    }
}
