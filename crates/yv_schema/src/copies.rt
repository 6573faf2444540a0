//! The first copies of nodes.
use std::alloc::{AllocError, Global};
use std::collections::BTreeMap;
use yv_expand_statements::Origin;

/// The number of the first node of which the same is said, and that of the file of the node's
/// module.
pub(crate) type Original = (u32, u32);

/// The place of the first node of each kind of copies. No clause says that a copy is there: the
/// caller compares the nodes.
#[derive(Drop)]
pub(crate) struct FirstCopies {
    // By the number of a statement: of its nodes that no refine changes.
    plain: Vec<u32>,
    // By the number of a statement, and by a sequence of refines that changes its nodes.
    refined: BTreeMap<(usize, usize), u32>,
    // Of leafs with long names, each by itself and by the list just above.
    leafs: BTreeMap<(Original, Original), u32>,
}

impl FirstCopies {
    /// No copies yet. There are this many statements.
    pub(crate) fn new(alloc: Global, statements: usize) -> Result<FirstCopies, AllocError> {
        Ok(FirstCopies {
            plain: vec![in alloc; 0u32; statements]?,
            refined: BTreeMap::new(alloc),
            leafs: BTreeMap::new(alloc),
        })
    }

    /// The place of the first node of this origin that this sequence of refines changes.
    pub(crate) fn place(&self, origin: Origin, sequence: Option<usize>) -> Option<usize> {
        let Origin::Statement(statement) = origin else {
            return None;
        };
        let place = match sequence {
            Some(sequence) => self.refined.get(&(statement, sequence)),
            None => self.plain.get(statement),
        };
        Some(*place? as usize)
    }

    /// Keeps the place of the first node of this origin and sequence.
    pub(crate) fn keep(
        &mut self,
        origin: Origin,
        sequence: Option<usize>,
        place: u32,
    ) -> Result<(), AllocError> {
        let Origin::Statement(statement) = origin else {
            return Ok(());
        };
        if let Some(sequence) = sequence {
            self.refined.insert((statement, sequence), place)?;
        } else if statement < self.plain.len() {
            self.plain[statement] = place;
        }
        Ok(())
    }

    /// The place of the first of these leafs below one of these lists.
    pub(crate) fn leaf(&self, leaf: Original, list: Original) -> Option<usize> {
        let place = self.leafs.get(&(leaf, list))?;
        Some(*place as usize)
    }

    /// Keeps the place of the first of these leafs below one of these lists.
    pub(crate) fn keep_leaf(
        &mut self,
        leaf: Original,
        list: Original,
        place: u32,
    ) -> Result<(), AllocError> {
        self.leafs.insert((leaf, list), place)?;
        Ok(())
    }
}
