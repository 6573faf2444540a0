//! The statements of the files as a tree: children, `uses` and what is above are found without a
//! look at all statements.
ghost use Rattle.std.specs.Iterator.{at_most};

use crate::augment_names::{AugmentNames, NamedAugments};
use crate::nodes::Steps;
use std::alloc::{AllocError, Global};
use std::collections::BTreeMap;
use yv_note_statements::{Message, Site, StatementEntry, StatementLists, node_above, state_above};
use yv_text_statement::{Code, Keyword};

/// How many statements are looked at for a note, beside as many as there are.
const MOST_LOOKS: usize = 500_000;

/// The statements of the files, and the lists in which they are.
#[derive(Drop)]
pub(crate) struct Tree<'s, 'a> {
    alloc: Global,
    entries: &'s [StatementEntry<'a>],
    lists: StatementLists,
    augments: AugmentNames<'a>,
    /// How many statements may still be looked at. Different paths lead to the same nodes again, so
    /// that there is no other limit that fits all of them.
    looks: usize,
    /// The nodes of a name below a node, or that there is none, where this was asked before.
    known: BTreeMap<(usize, Steps, &'a str), Option<usize>>,
}

impl<'s, 'a> Tree<'s, 'a> {
    /// The tree of the files in which a statement is.
    pub(crate) fn around(alloc: Global, site: &Site<'s, 'a>) -> Result<Tree<'s, 'a>, AllocError> {
        let entries = site.entries;
        Ok(Tree {
            alloc,
            entries,
            lists: StatementLists::read(alloc, entries)?,
            augments: AugmentNames::read(alloc, entries)?,
            looks: entries.len().saturating_add(MOST_LOOKS),
            known: BTreeMap::new(alloc),
        })
    }

    /// The tree around the statement of a refusal, whose message begins with the sentence on the
    /// refusal's name.
    pub(crate) fn explain(
        telling: &mut Message<'a>,
        code: Code,
        site: &Site<'s, 'a>,
    ) -> Result<Tree<'s, 'a>, AllocError> {
        telling.sentence(code);
        Tree::around(telling.alloc(), site)
    }

    /// The allocator of the lists.
    pub(crate) fn alloc(&self) -> Global {
        self.alloc
    }

    fn at(&self, number: Option<usize>) -> Option<Site<'s, 'a>> {
        Site::at(self.entries, number?)
    }

    /// How many statements may still be looked at.
    pub(crate) fn looks(&self) -> usize {
        self.looks
    }

    /// Counts so many looks at statements.
    pub(crate) fn look(&mut self, count: usize) {
        self.looks = self.looks.saturating_sub(count);
    }

    /// Keeps how many statements may still be looked at.
    pub(crate) fn set_looks(&mut self, looks: usize) {
        self.looks = looks;
    }

    /// Whether no further statement may be looked at, so that not all is known.
    pub(crate) fn is_spent(&self) -> bool {
        self.looks == 0
    }

    /// The node of a name below a node, or that there is none, if this is known.
    pub(crate) fn known_node(
        &self,
        node: &Site<'s, 'a>,
        steps: Steps,
        name: &'a str,
    ) -> Option<Option<Site<'s, 'a>>> {
        let number = self.known.get(&(node.number, steps, name))?;
        Some(self.at(*number))
    }

    /// Keeps which node of a name is below a node.
    pub(crate) fn keep(
        &mut self,
        node: &Site<'s, 'a>,
        steps: Steps,
        name: &'a str,
        below: Option<Site<'s, 'a>>,
    ) -> Result<(), AllocError> {
        let number = below.map(|site| site.number);
        self.known.insert((node.number, steps, name), number)?;
        Ok(())
    }

    /// The statements of a block, in order.
    pub(crate) fn children(&self, block: &Site<'s, 'a>) -> ListedSites<'_, 's, 'a> {
        self.list_from(List::Block, self.lists.first_child(block.number))
    }

    /// The `uses` of a grouping, in order.
    pub(crate) fn uses_of(&self, grouping: &Site<'s, 'a>) -> ListedSites<'_, 's, 'a> {
        self.list_from(List::Uses, self.lists.first_use(grouping.number))
    }

    fn list_from(&self, list: List, first: Option<usize>) -> ListedSites<'_, 's, 'a> {
        ListedSites {
            tree: self,
            list,
            next: first,
            left: self.entries.len(),
        }
    }

    /// The `augment` statements whose nodes a node can have: those whose path ends with its name,
    /// the last one first.
    pub(crate) fn augments_of(&self, node: &Site<'s, 'a>) -> NamedAugments<'_, 's, 'a> {
        if node.is_root() || node.is(Keyword::Grouping) {
            self.no_augments()
        } else {
            self.augments.of_name(self.entries, node.argument())
        }
    }

    /// None of the `augment` statements.
    pub(crate) fn no_augments(&self) -> NamedAugments<'_, 's, 'a> {
        NamedAugments::none(self.entries)
    }

    /// The data node above a node: of one in a grouping that above its first `uses`. None for a
    /// node at the top of a module.
    pub(crate) fn node_above(&self, node: &Site<'s, 'a>) -> Option<Site<'s, 'a>> {
        node_above(&self.lists, node)
    }

    /// The nearest of a node and those above it that says whether it is state, if it says that it
    /// is.
    pub(crate) fn state_above(&self, node: &Site<'s, 'a>) -> Option<Site<'s, 'a>> {
        state_above(&self.lists, node)
    }
}

// A list of statements.
#[derive(Clone, Copy)]
enum List {
    /// Those of a block.
    Block,
    /// The `uses` of a grouping.
    Uses,
}

/// The statements of a list, one by one.
#[derive(Clone, Copy)]
pub(crate) struct ListedSites<'t, 's, 'a> {
    tree: &'t Tree<'s, 'a>,
    list: List,
    next: Option<usize>,
    left: usize,
}

impl<'s, 'a> Iterator for ListedSites<'_, 's, 'a> {
    type Item = Site<'s, 'a>;

    ghost remaining = { λ s. at_most s.left };

    fn next(&mut self) -> Option<Site<'s, 'a>> {
        let number = self.next?;
        if self.left == 0 {
            return None;
        }
        self.left -= 1;
        self.next = match self.list {
            List::Block => self.tree.lists.next_child(number),
            List::Uses => self.tree.lists.next_use(number),
        };
        Site::at(self.tree.entries, number)
    }
}
