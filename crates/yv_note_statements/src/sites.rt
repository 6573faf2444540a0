//! The statements of the files, and those of a block, one by one.
ghost use Rattle.std.specs.{Prelude.{◌-◌, length}, Iterator.{at_most}};

use crate::entry::StatementEntry;
use crate::site::Site;

/// The sites of the statements of the files from one of them on.
#[derive(Clone, Copy)]
pub struct Sites<'s, 'a> {
    entries: &'s [StatementEntry<'a>],
    next: usize,
}

impl<'s, 'a> Sites<'s, 'a> {
    /// All of them.
    pub fn all(entries: &'s [StatementEntry<'a>]) -> Sites<'s, 'a> {
        Sites { entries, next: 0 }
    }

    /// Those that come after this number.
    pub fn after(entries: &'s [StatementEntry<'a>], number: usize) -> Sites<'s, 'a> {
        Sites {
            entries,
            next: number.saturating_add(1),
        }
    }
}

impl<'s, 'a> Iterator for Sites<'s, 'a> {
    type Item = Site<'s, 'a>;

    ghost remaining = { λ s. at_most (length s.entries.now - s.next) };

    fn next(&mut self) -> Option<Site<'s, 'a>> {
        let site = Site {
            entries: self.entries,
            number: self.next,
            entry: self.entries.get(self.next)?,
        };
        self.next += 1;
        Some(site)
    }
}

/// The children of a statement: those of its block, in order.
#[derive(Clone, Copy)]
pub struct Children<'s, 'a> {
    block: Site<'s, 'a>,
    rest: &'s [StatementEntry<'a>],
}

impl<'s, 'a> Children<'s, 'a> {
    /// Those of the block of a statement.
    pub(crate) fn of(block: Site<'s, 'a>) -> Children<'s, 'a> {
        let first = block.number.saturating_add(1).min(block.entries.len());
        Children {
            block,
            rest: &block.entries[first..],
        }
    }
}

impl<'s, 'a> Iterator for Children<'s, 'a> {
    type Item = Site<'s, 'a>;

    ghost remaining = { λ c. at_most (length c.rest.now) };

    fn next(&mut self) -> Option<Site<'s, 'a>> {
        let block = self.block;
        let place = self.rest.iter().position(|entry| block.is_left(entry))?;
        let number = block
            .entries
            .len()
            .saturating_sub(self.rest.len())
            .saturating_add(place);
        self.rest = &self.rest[place + 1..];
        let child = Site::at(block.entries, number)?;
        if child.entry.scope == block.number {
            Some(child)
        } else {
            None
        }
    }
}
