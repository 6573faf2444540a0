//! The first node of each name among items.
ghost use Rattle.std.specs.{Prelude.{◌≡◌, ℕ, ◌++◌, ◌∷◌, [], List, None, IfOk, OnErr, OnOk, slice_get}, Option.{option_map}};
ghost use Rattle.yv_expand_rounds.specs.{declared.label.Label.{Label}, Paths.{first_named}, InnerFirstNodes.{AreFirst, node_of}, InnerGroups.{earlier, keep_first, note_item}};

use crate::label::{Label, is_named};
use crate::order::comes_before;
use std::alloc::{AllocError, Global};
use std::collections::BTreeMap;

/// The first node of each name among items.
#[derive(Drop)]
pub(crate) struct FirstNodes {
    map: BTreeMap<usize, usize>,
}

// The first so far, or an item that comes before it.
fn earlier(labels: &[Label], first: Option<usize>, item: usize) -> usize
    ensures { result ≡ earlier labels.now first item }
{
    match first {
        Some(first) => {
            if comes_before(labels, item, first) {
                item
            } else {
                first
            }
        }
        None => item,
    }
}

/// The first node of a name among these items.
pub(crate) fn first_among(labels: &[Label], items: &[usize], name: usize) -> Option<usize>
    ensures { result ≡ first_named labels.now name items.now }
{
    let mut first = None;
    for item in items {
        if is_named(labels, name, *item) {
            first = Some(earlier(labels, first, *item));
        }
    }
    first
}

impl FirstNodes {
    /// The first nodes of these items. Takes time n log n.
    pub(crate) fn of(
        alloc: Global,
        labels: &[Label],
        items: &[usize],
    ) -> Result<FirstNodes, AllocError>
        ensures { IfOk result (AreFirst labels.now items.now) }
    {
        let mut nodes = FirstNodes {
            map: BTreeMap::new(alloc),
        };
        for item in items {
            nodes.note(labels, *item)?;
        }
        Ok(nodes)
    }

    /// The first node of a name.
    pub(crate) fn get(&self, name: usize) -> Option<usize>
        ensures { result ≡ node_of self.now name }
    {
        self.map.get(&name).copied()
    }

    // Keeps an item for its name where none is yet, or one that comes later.
    fn keep(&mut self, labels: &[Label], name: usize, item: usize) -> Result<(), AllocError>
        ensures names { OnOk result
            ((n : ℕ) → node_of self.new n ≡ keep_first labels.now (node_of self.old) name item n) }
        ensures stay { OnErr result ((n : ℕ) → node_of self.new n ≡ node_of self.old n) }
    {
        let first = self.get(name);
        self.map.insert(name, earlier(labels, first, item))?;
        Ok(())
    }

    // Keeps an item for its name, if it is a node.
    fn note_item(&mut self, labels: &[Label], item: usize) -> Result<(), AllocError>
        ensures names { OnOk result
            ((n : ℕ) → node_of self.new n ≡ note_item labels.now (node_of self.old) item n) }
        ensures stay { OnErr result ((n : ℕ) → node_of self.new n ≡ node_of self.old n) }
    {
        if let Some(label) = labels.get(item).copied() {
            if label.kind.is_node() {
                return self.keep(labels, label.name, item);
            }
        }
        Ok(())
    }

    /// The first nodes when an item is added after the others. All is as before where memory runs
    /// out.
    pub(crate) fn note(&mut self, labels: &[Label], item: usize) -> Result<(), AllocError>
        ensures notes { (items : List ℕ) → AreFirst labels.now items self.old
            → OnOk result (AreFirst labels.now (items ++ item ∷ []) self.new) }
        ensures keeps { (items : List ℕ) → AreFirst labels.now items self.old
            → OnErr result (AreFirst labels.now items self.new) }
    {
        self.note_item(labels, item)?;
        Ok(())
    }
}
