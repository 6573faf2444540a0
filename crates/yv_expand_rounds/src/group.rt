//! The items of one place, and the first node of each name.
ghost use Rattle.std.specs.Prelude.{◌≡◌, ◌<◌, ◌≤◌, ℕ, ◌++◌, ◌∷◌, [], List, Some, true, OnErr, OnOk, IfOk, IfSome, length, slice_get};
ghost use Rattle.yv_expand_rounds.specs.{declared.label.Label.{Label}, Paths.{first_named}, InnerFirstNodes.{AreFirst}, InnerGroups.{HaveBefore, IsBelowLast, IsGroup, Keep, KeepBut, displaced_item, firsts, node_name}};

use crate::first_nodes::{FirstNodes, first_among};
use crate::label::Label;
use crate::order::comes_before;
use std::alloc::{AllocError, Global};

/// How many items a group has at most before the first node of each name is kept. Among so few it
/// is looked for: most nodes have fewer children, and a map takes a quarter of a kilobyte even for
/// one name.
const FEW: usize = 8;

/// The numbers of the items in one place, and for each name the first node in order.
#[derive(Drop)]
pub(crate) struct Group {
    pub members: Vec<usize>,
    // The first nodes, where there are many members.
    pub names: Option<Box<FirstNodes>>,
    // Whether each member is less than those before it: so it is where no augment gave one.
    pub descending: bool,
}

// The first so far, if an item comes before it.
fn displaced_item(labels: &[Label], first: Option<usize>, item: usize) -> Option<usize>
    ensures { result ≡ displaced_item labels.now first item }
{
    match first {
        Some(first) if comes_before(labels, item, first) => Some(first),
        _ => None,
    }
}

// The name of an item, if it is a node.
fn node_name(labels: &[Label], item: usize) -> Option<usize>
    ensures { result ≡ node_name (slice_get labels.now item) }
{
    match labels.get(item) {
        Some(label) => {
            if label.kind.is_node() {
                Some(label.name)
            } else {
                None
            }
        }
        None => None,
    }
}

// The first nodes of these items and one more, where they are many.
fn many_names(
    alloc: Global,
    labels: &[Label],
    members: &[usize],
    item: usize,
) -> Result<Option<Box<FirstNodes>>, AllocError>
    ensures { IfOk result (λ made. IfSome made
        (λ names. AreFirst labels.now (members.now ++ item ∷ []) names.value)) }
{
    if members.len() < FEW {
        return Ok(None);
    }
    let mut names = FirstNodes::of(alloc, labels, members)?;
    names.note(labels, item)?;
    Ok(Some(Box::new(alloc, names)?))
}

impl Group {
    /// No items.
    pub(crate) fn new(alloc: Global) -> Group
        ensures { (labels : List Label) → IsGroup labels [] result }
    {
        Group {
            members: Vec::new(alloc),
            names: None,
            descending: true,
        }
    }

    /// The first node of a name.
    pub(crate) fn first(&self, labels: &[Label], name: usize) -> Option<usize>
        ensures { (members : List ℕ) → IsGroup labels.now members self.now → result
            ≡ first_named labels.now name members }
    {
        match &self.names {
            Some(names) => names.get(name),
            None => first_among(labels, &self.members, name),
        }
    }

    // The node that is the first of the name of an item, if the item comes before it.
    fn displaced_node(&self, labels: &[Label], item: usize) -> Option<usize>
        ensures { (members : List ℕ) → IsGroup labels.now members self.now
            → KeepBut (firsts labels.now members) (firsts labels.now (members ++ item ∷ []))
            result }
    {
        match node_name(labels, item) {
            Some(name) => displaced_item(labels, self.first(labels, name), item),
            None => None,
        }
    }

    // Keeps the first nodes when an item enters after the others, if these are many. All is as
    // before where memory runs out.
    fn note(&mut self, alloc: Global, labels: &[Label], item: usize) -> Result<(), AllocError>
        ensures notes { (members : List ℕ) → IsGroup labels.now members self.old
            → OnOk result
            (IfSome self.new.names
            (λ names. AreFirst labels.now (members ++ item ∷ []) names.value)) }
        ensures keeps { (members : List ℕ) → IsGroup labels.now members self.old
            → OnErr result
            (IfSome self.new.names (λ names. AreFirst labels.now members names.value)) }
        ensures members { self.new.members ≡ self.old.members }
        ensures descends { self.new.descending ≡ self.old.descending }
    {
        match &mut self.names {
            Some(names) => names.note(labels, item),
            None => {
                self.names = many_names(alloc, labels, &self.members, item)?;
                Ok(())
            }
        }
    }

    // Whether members descend still when an item enters after them.
    fn descends_to(&self, item: usize) -> bool
        ensures so_far { result ≡ true → self.now.descending ≡ true }
        ensures last { result ≡ true → IsBelowLast self.now.members.items item }
    {
        if !self.descending {
            return false;
        }
        match self.members.last() {
            Some(last) => item < *last,
            None => true,
        }
    }

    /// Adds an item after the others. Room is made first, so that the items are as before where
    /// memory runs out.
    pub(crate) fn push(
        &mut self,
        alloc: Global,
        labels: &[Label],
        item: usize,
    ) -> Result<(), AllocError>
        ensures state { (members : List ℕ) → IsGroup labels.now members self.old
            → OnOk result (IsGroup labels.now (members ++ item ∷ []) self.new) }
        ensures keeps { (members : List ℕ) → IsGroup labels.now members self.old
            → OnErr result (IsGroup labels.now members self.new) }
    {
        self.members.reserve(1)?;
        self.note(alloc, labels, item)?;
        self.descending = self.descends_to(item);
        self.members.push(item)?;
        Ok(())
    }

    // The same. Returns the node that was the first of its name before, if this one is now.
    fn add(
        &mut self,
        alloc: Global,
        labels: &[Label],
        item: usize,
    ) -> Result<Option<usize>, AllocError>
        ensures state { (members : List ℕ) → IsGroup labels.now members self.old
            → OnOk result (IsGroup labels.now (members ++ item ∷ []) self.new) }
        ensures displaces { (members : List ℕ) → IsGroup labels.now members self.old
            → IfOk result
            (KeepBut (firsts labels.now members) (firsts labels.now (members ++ item ∷ []))) }
    {
        let displaced = self.displaced_node(labels, item);
        self.push(alloc, labels, item)?;
        Ok(displaced)
    }

    /// Adds items after the others. Returns the nodes that were the first of their names before, if
    /// others are now.
    pub(crate) fn join(
        &mut self,
        alloc: Global,
        labels: &[Label],
        items: &[usize],
    ) -> Result<Vec<usize>, AllocError>
        ensures state { (members : List ℕ) → IsGroup labels.now members self.old
            → OnOk result (IsGroup labels.now (members ++ items.now) self.new) }
        ensures displaces { (members : List ℕ) → IsGroup labels.now members self.old
            → IfOk result
            (λ displaced. Keep (firsts labels.now members)
            (firsts labels.now (members ++ items.now)) displaced.items) }
    {
        let mut displaced = Vec::new(alloc);
        for item in items {
            if let Some(node) = self.add(alloc, labels, *item)? {
                displaced.push(node)?;
            }
        }
        Ok(displaced)
    }

    // How many members are before the last ones that come before the limit. None where these are
    // more than `most`.
    fn front(&self, limit: usize, most: usize) -> Option<usize>
        ensures within { IfSome result (λ front. front ≤ length self.now.members.items) }
        ensures behind { (labels : List Label) (members : List ℕ) → IsGroup labels members self.now
            → self.now.descending ≡ true
            → IfSome result
            (λ front. (place item : ℕ) → slice_get members place ≡ Some item → item < limit → front
            ≤ place) }
    {
        let count = self.members.len();
        let mut front = count;
        while front > 0 && self.members[front - 1] < limit {
            if count - front >= most {
                return None;
            }
            front -= 1;
        }
        Some(front)
    }

    // So many members are before those that may come before the limit. None where these are more
    // than `most`.
    fn count_before(&self, limit: usize, most: usize) -> Option<usize>
        ensures within { IfSome result (λ front. front ≤ length self.now.members.items) }
        ensures behind { (labels : List Label) (members : List ℕ) → IsGroup labels members self.now
            → IfSome result
            (λ front. (place item : ℕ) → slice_get members place ≡ Some item → item < limit → front
            ≤ place) }
    {
        if self.descending {
            self.front(limit, most)
        } else if self.members.len() <= most {
            Some(0)
        } else {
            None
        }
    }

    /// Among these members are all that come before the limit. None where they would be more than
    /// `most`; no more are looked at.
    pub(crate) fn few(&self, limit: usize, most: usize) -> Option<&[usize]>
        ensures { (labels : List Label) (members : List ℕ) → IsGroup labels members self.now
            → IfSome result (λ few. HaveBefore members limit few.now) }
    {
        let front = self.count_before(limit, most)?;
        Some(&self.members[front..])
    }
}
