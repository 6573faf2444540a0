//! The `augment` statements by the last names of their paths.
ghost use Rattle.std.specs.Iterator.{at_most};

use std::alloc::{AllocError, Global};
use std::collections::BTreeMap;
use yv_note_statements::{Site, Sites, StatementEntry, last_step};
use yv_text_statement::Keyword;

// An `augment`: its number, and the place of the one before it whose path ends with the same name.
#[derive(Clone, Copy)]
struct NamedAugment {
    number: usize,
    before: Option<usize>,
}

/// The `augment` statements of the files. For each name with which a path ends the place of the
/// last one.
#[derive(Drop)]
pub(crate) struct AugmentNames<'a> {
    augments: Vec<NamedAugment>,
    last: BTreeMap<&'a str, usize>,
}

impl<'a> AugmentNames<'a> {
    /// Reads those among these statements.
    pub(crate) fn read(
        alloc: Global,
        entries: &[StatementEntry<'a>],
    ) -> Result<AugmentNames<'a>, AllocError> {
        let mut augments = Vec::new(alloc);
        let mut last = BTreeMap::new(alloc);
        for site in Sites::all(entries) {
            if site.is(Keyword::Augment) {
                let before = last.insert(last_step(site.argument()), augments.len())?;
                augments.push(NamedAugment {
                    number: site.number,
                    before,
                })?;
            }
        }
        Ok(AugmentNames { augments, last })
    }

    /// Those whose path ends with a name, the last one first.
    pub(crate) fn of_name<'t, 's>(
        &'t self,
        entries: &'s [StatementEntry<'a>],
        name: &'a str,
    ) -> NamedAugments<'t, 's, 'a> {
        NamedAugments {
            augments: &self.augments,
            entries,
            next: self.last.get(&name).copied(),
            left: self.augments.len(),
        }
    }
}

/// Some `augment` statements, one by one.
#[derive(Clone, Copy)]
pub(crate) struct NamedAugments<'t, 's, 'a> {
    augments: &'t [NamedAugment],
    entries: &'s [StatementEntry<'a>],
    next: Option<usize>,
    left: usize,
}

impl<'s, 'a> NamedAugments<'_, 's, 'a> {
    /// None of them.
    pub(crate) fn none(entries: &'s [StatementEntry<'a>]) -> NamedAugments<'static, 's, 'a> {
        NamedAugments {
            augments: &[],
            entries,
            next: None,
            left: 0,
        }
    }
}

impl<'s, 'a> Iterator for NamedAugments<'_, 's, 'a> {
    type Item = Site<'s, 'a>;

    ghost remaining = { λ s. at_most s.left };

    fn next(&mut self) -> Option<Site<'s, 'a>> {
        let augment = self.augments.get(self.next?)?;
        if self.left == 0 {
            return None;
        }
        self.left -= 1;
        self.next = augment.before;
        Site::at(self.entries, augment.number)
    }
}
