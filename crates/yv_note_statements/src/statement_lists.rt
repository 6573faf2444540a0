//! The statements of each block, and the `uses` of each grouping, as lists.
ghost use Rattle.std.specs.Prelude.{◌≡◌, ◌<◌, ℕ, length, map, IfOk, Option, None, Some, slice_index_or};
ghost use Rattle.yv_note_statements.specs.Lists.{Puts, block_of, config_in, configured_by, first_child_in, first_of, first_use_in, grouping_of, next_child_in, next_of, next_use_in};

use crate::entry::StatementEntry;
use crate::links::Links;
use std::alloc::{AllocError, Global};
use yv_text_statement::Keyword;

/// The lists in which the statements of the files are: those of each block, the `uses` of each
/// grouping, and the `config` of each block. They are made in one pass over the statements.
#[derive(Drop)]
pub struct StatementLists {
    children: Links,
    uses: Links,
    configs: Links,
}

// The statement in whose block one is.
fn block_of(entry: &StatementEntry<'_>) -> Option<usize>
    ensures { result ≡ block_of entry.now }
{
    if entry.is_root {
        None
    } else {
        Some(entry.scope)
    }
}

// The grouping that a statement means, if it is a `uses`.
fn grouping_of(entry: &StatementEntry<'_>) -> Option<usize>
    ensures { result ≡ grouping_of entry.now }
{
    // Few statements mean another one.
    match entry.meaning {
        Some(grouping) if entry.kind == Keyword::Uses => Some(grouping),
        _ => None,
    }
}

// The statement in whose block one is, if that is a `config`.
fn configured_by(entry: &StatementEntry<'_>) -> Option<usize>
    ensures { result ≡ configured_by entry.now }
{
    if entry.kind == Keyword::Config {
        block_of(entry)
    } else {
        None
    }
}

impl StatementLists {
    /// Reads the lists of all statements.
    pub fn read(alloc: Global, entries: &[StatementEntry<'_>]) -> Result<StatementLists, AllocError>
        // The first child of a statement is the first statement of its block.
        ensures children { IfOk result (λ lists. (number : ℕ) → number < length entries.now
            → first_child_in lists number ≡ first_of number (map block_of entries.now) 0) }
        // After a child comes the next statement of the same block.
        ensures siblings { IfOk result (λ lists. (number block : ℕ) → number < length entries.now
            → slice_index_or (map block_of entries.now) number None ≡ Some block
            → block < length entries.now
            → next_child_in lists number ≡ next_of block (map block_of entries.now) number) }
        // The first use of a grouping is the first `uses` that means it.
        ensures uses { IfOk result (λ lists. (grouping : ℕ) → grouping < length entries.now
            → first_use_in lists grouping ≡ first_of grouping (map grouping_of entries.now) 0) }
        // After a use comes the next `uses` of the same grouping.
        ensures later { IfOk result (λ lists. (number grouping : ℕ) → number < length entries.now
            → slice_index_or (map grouping_of entries.now) number None ≡ Some grouping
            → grouping < length entries.now
            → next_use_in lists number ≡ next_of grouping (map grouping_of entries.now) number) }
        // The `config` of a statement is the first one of its block.
        ensures configs { IfOk result (λ lists. (number : ℕ) → number < length entries.now
            → config_in lists number ≡ first_of number (map configured_by entries.now) 0) }
    {
        let mut lists = StatementLists {
            children: Links::new(alloc, entries.len())?,
            uses: Links::new(alloc, entries.len())?,
            configs: Links::new(alloc, entries.len())?,
        };
        let mut number = entries.len();
        while number > 0 {
            number -= 1;
            lists.put(&entries[number], number);
        }
        Ok(lists)
    }

    // Puts a statement, which comes before all statements so far, into its lists.
    fn put(&mut self, entry: &StatementEntry<'_>, number: usize)
        requires children { number < length self.old.children.next.items }
        requires uses { number < length self.old.uses.next.items }
        requires configs { number < length self.old.configs.next.items }
        ensures children { Puts (block_of entry.now) number self.old.children self.new.children }
        ensures uses { Puts (grouping_of entry.now) number self.old.uses self.new.uses }
        ensures configs { Puts (configured_by entry.now) number self.old.configs self.new.configs }
    {
        self.children.put(block_of(entry), number);
        self.uses.put(grouping_of(entry), number);
        self.configs.put(configured_by(entry), number);
    }

    /// The number of the first statement of a block.
    pub fn first_child(&self, number: usize) -> Option<usize>
        // It is the first child of the lists.
        ensures { result ≡ first_child_in self.now number }
    {
        self.children.first(number)
    }

    /// The number of the next statement of the block in which a statement is.
    pub fn next_child(&self, number: usize) -> Option<usize>
        // It is the next child of the lists.
        ensures { result ≡ next_child_in self.now number }
    {
        self.children.next(number)
    }

    /// The number of the first `uses` of a grouping.
    pub fn first_use(&self, grouping: usize) -> Option<usize>
        // It is the first use of the lists.
        ensures { result ≡ first_use_in self.now grouping }
    {
        self.uses.first(grouping)
    }

    /// The number of the next `uses` of the grouping that a `uses` means.
    pub fn next_use(&self, number: usize) -> Option<usize>
        // It is the next use of the lists.
        ensures { result ≡ next_use_in self.now number }
    {
        self.uses.next(number)
    }

    /// The number of the first `config` of a block.
    pub fn config(&self, number: usize) -> Option<usize>
        // It is the `config` of the lists.
        ensures { result ≡ config_in self.now number }
    {
        self.configs.first(number)
    }
}
