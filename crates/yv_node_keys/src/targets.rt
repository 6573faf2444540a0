//! What all lists and choices name.
ghost use Rattle.std.specs.{Prelude.{◌≡◌, ◌<◌, ◌+◌, ℕ, List, Some, None, map, slice_get, length, IfOk, OnOk}, declared.vec.Vec.{Vec}, declared.alloc.Global.{Global}};
ghost use Rattle.yv_text_statement.specs.Order.{IsLeast};
ghost use Rattle.yv_nodes.specs.{Tree.{Forest}, Places.{Place, places}, Rows.{Row}, Numbers.{rows_from}};
ghost use Rattle.yv_node_keys.specs.{Numbers.{default_case_at, key_leaf_at, unique_leaf_at}, Bad.{BadLeafs, BadOfLeafs}, LeafTargets.{AreLeafTargets}, InnerTargets.{AreRight, AreUpTo, HasCase, HasLeafs, IsKeptUpTo, IsRight, cases_at, keys_in, lists_at, uniques_in}};

use crate::cases::default_case;
use crate::keys::key_leafs_like;
use crate::models::ListModels;
use crate::unique::unique_leafs_like;
use std::alloc::{AllocError, Global};
use std::collections::BTreeMap;
use yv_nodes::{NodeId, Nodes};
use yv_text_statement::{Code, Refusal, lesser};

/// What the `key` and `unique` statements of a list name.
#[derive(Drop)]
pub(crate) struct ListLeafs {
    pub(crate) keys: Vec<NodeId>,
    pub(crate) uniques: Vec<Vec<NodeId>>,
}

/// For each list the numbers of the leafs that its `key` and `unique` statements name, and for each
/// choice that of its default case. Nothing is kept of other nodes.
#[derive(Drop)]
pub struct LeafTargets {
    lists: BTreeMap<u32, ListLeafs>,
    cases: BTreeMap<u32, NodeId>,
}

/// The targets that were found: what all lists and choices name, and the least refusal of a list
/// that names what it may not.
#[derive(Drop)]
pub struct FoundTargets {
    /// What they name, where nothing is refused.
    pub targets: LeafTargets,
    /// The least refusal.
    pub fault: Option<Refusal>,
}

impl LeafTargets {
    // Nothing.
    fn new(alloc: Global) -> LeafTargets
        ensures up_to { (rows : List Row) → AreUpTo rows result 0 }
        ensures right { (rows : List Row) → AreRight rows result }
    {
        LeafTargets {
            lists: BTreeMap::new(alloc),
            cases: BTreeMap::new(alloc),
        }
    }

    /// The numbers of the leafs that the names of a list's key name, in order (RFC 7950, section
    /// 7.8.2).
    pub fn keys(&self, list: NodeId) -> &[NodeId]
        ensures { (rows : List Row) → AreLeafTargets rows self.now → (r : Row)
            → slice_get rows list.0 ≡ Some r
            → map (λ n. Some n) result.now ≡ map (key_leaf_at rows list) r.label.defined.keys }
    {
        self.kept_keys(list)
    }

    /// For each of a list's `unique` statements the numbers of the leafs that its paths name, in
    /// order (RFC 7950, section 7.8.3).
    pub fn uniques(&self, list: NodeId) -> &[Vec<NodeId>]
        ensures { (rows : List Row) → AreLeafTargets rows self.now → (r : Row)
            → slice_get rows list.0 ≡ Some r
            → map (λ leafs. map (λ n. Some n) leafs.items) result.now
            ≡ map (map (unique_leaf_at rows list)) r.label.defined.uniques }
    {
        self.kept_uniques(list)
    }

    /// The number of the default case of a choice (RFC 7950, section 7.9.3): none of another node.
    pub fn default_case(&self, choice: NodeId) -> Option<NodeId>
        ensures { (rows : List Row) → AreLeafTargets rows self.now → choice.0 < length rows → result
            ≡ default_case_at rows choice }
    {
        self.kept_case(choice)
    }

    // The leafs that are kept of the names of a list's key.
    fn kept_keys(&self, list: NodeId) -> &[NodeId]
        ensures { result.now ≡ keys_in (lists_at self.now.lists list.0) }
    {
        match self.lists.get(&list.number()) {
            Some(leafs) => leafs.keys.as_slice(),
            None => &[],
        }
    }

    // The leafs that are kept of the paths of a list's `unique` statements.
    fn kept_uniques(&self, list: NodeId) -> &[Vec<NodeId>]
        ensures { result.now ≡ uniques_in (lists_at self.now.lists list.0) }
    {
        match self.lists.get(&list.number()) {
            Some(leafs) => leafs.uniques.as_slice(),
            None => &[],
        }
    }

    // The default case that is kept of a choice.
    fn kept_case(&self, choice: NodeId) -> Option<NodeId>
        ensures { result ≡ cases_at self.now.cases choice.0 }
    {
        self.cases.get(&choice.number()).copied()
    }

    // Meets the node of a number, and gives what it is refused for. What an earlier node names of
    // which the same is said shows which names this one means.
    fn meet(
        &mut self,
        models: &mut ListModels,
        alloc: Global,
        nodes: &Nodes,
        number: NodeId,
    ) -> Result<Option<Refusal>, AllocError>
        requires within { number.0 < length nodes.now.rows }
        requires right { AreRight nodes.now.rows self.old }
        ensures right { OnOk result (AreRight nodes.now.rows self.new) }
        ensures keeps { IfOk result
            (λ here. here ≡ None → AreUpTo nodes.now.rows self.old number.0
            → AreUpTo nodes.now.rows self.new (number.0 + 1)) }
        ensures fault { (ts : Forest) → nodes.now.rows ≡ rows_from 0 ts → (p : Place)
            → slice_get (places ts) number.0 ≡ Some p
            → IfOk result (λ here. IsLeast (BadOfLeafs p) here) }
    {
        let node = nodes.get(number);
        let first = nodes.first_alike(number);
        let model = models.model(nodes, number)?;
        let known = self.kept_keys(model);
        let keys = key_leafs_like(alloc, nodes, number, node.keys(), model, known)?;
        let known = self.kept_uniques(model);
        let uniques = unique_leafs_like(alloc, nodes, number, node.uniques(), model, known)?;
        let bad_key = node.refusal_if(keys.is_none(), Code::BadKey);
        let bad_unique = node.refusal_if(uniques.is_none(), Code::BadUnique);
        keep_both(&mut self.lists, number, keys, uniques)?;
        let case = default_case(nodes, number, self.kept_case(first));
        keep_case(&mut self.cases, number, case)?;
        Ok(lesser(bad_key, bad_unique))
    }
}

// Keeps what a list names, where it names what it may.
fn keep_both(
    lists: &mut BTreeMap<u32, ListLeafs>,
    list: NodeId,
    keys: Option<Vec<NodeId>>,
    uniques: Option<Vec<Vec<NodeId>>>,
) -> Result<(), AllocError>
    ensures right { (rows : List Row)
        → ((ks : Vec NodeId Global) (us : Vec (Vec NodeId Global) Global)
        → keys ≡ Some ks → uniques ≡ Some us
        → HasLeafs rows list.0 (Some (record { keys = ks; uniques = us })))
        → IsRight (lists_at lists.old) (HasLeafs rows)
        → OnOk result (IsRight (lists_at lists.new) (HasLeafs rows)) }
    ensures up_to { (rows : List Row) (ks : Vec NodeId Global) (us : Vec (Vec NodeId Global) Global)
        → keys ≡ Some ks → uniques ≡ Some us
        → HasLeafs rows list.0 (Some (record { keys = ks; uniques = us }))
        → IsKeptUpTo (lists_at lists.old) (HasLeafs rows) list.0
        → OnOk result (IsKeptUpTo (lists_at lists.new) (HasLeafs rows) (list.0 + 1)) }
{
    match (keys, uniques) {
        (Some(keys), Some(uniques)) => keep_leafs(lists, list, ListLeafs { keys, uniques }),
        _ => Ok(()),
    }
}

// Keeps what a list names.
fn keep_leafs(
    lists: &mut BTreeMap<u32, ListLeafs>,
    list: NodeId,
    leafs: ListLeafs,
) -> Result<(), AllocError>
    ensures right { (rows : List Row) → HasLeafs rows list.0 (Some leafs)
        → IsRight (lists_at lists.old) (HasLeafs rows)
        → OnOk result (IsRight (lists_at lists.new) (HasLeafs rows)) }
    ensures up_to { (rows : List Row) → HasLeafs rows list.0 (Some leafs)
        → IsKeptUpTo (lists_at lists.old) (HasLeafs rows) list.0
        → OnOk result (IsKeptUpTo (lists_at lists.new) (HasLeafs rows) (list.0 + 1)) }
{
    if leafs.keys.is_empty() && leafs.uniques.is_empty() {
        return Ok(());
    }
    lists.insert(list.number(), leafs)?;
    Ok(())
}

// Keeps the default case of a choice, where there is one.
fn keep_case(
    cases: &mut BTreeMap<u32, NodeId>,
    choice: NodeId,
    case: Option<NodeId>,
) -> Result<(), AllocError>
    ensures right { (rows : List Row) → HasCase rows choice.0 case
        → IsRight (cases_at cases.old) (HasCase rows)
        → OnOk result (IsRight (cases_at cases.new) (HasCase rows)) }
    ensures up_to { (rows : List Row) → HasCase rows choice.0 case
        → IsKeptUpTo (cases_at cases.old) (HasCase rows) choice.0
        → OnOk result (IsKeptUpTo (cases_at cases.new) (HasCase rows) (choice.0 + 1)) }
{
    if let Some(case) = case {
        cases.insert(choice.number(), case)?;
    }
    Ok(())
}

/// What all lists and choices of these nodes name, and the least refusal: BadKey at a list whose
/// key has a name of no leaf directly below, and BadUnique at a list with more than 64 `unique`
/// statements, or with a path that names no leaf, or with a statement whose leafs are and aren't
/// configuration (RFC 7950, sections 7.8.2, 7.8.3 and 7.9.3). It takes time n log n in the names of
/// the nodes and the steps of all lists. Err only if memory runs out.
pub fn leaf_targets(alloc: Global, nodes: &Nodes) -> Result<FoundTargets, AllocError>
    // If nothing is refused, the leafs that keys and `unique` statements name, and the default
    // cases of choices.
    ensures targets { IfOk result
        (λ found. found.fault ≡ None → AreLeafTargets nodes.now.rows found.targets) }
    // The least `BadKey` or `BadUnique` in the tree with these rows, or none.
    ensures fault { (ts : Forest) → nodes.now.rows ≡ rows_from 0 ts
        → IfOk result (λ found. IsLeast (BadLeafs ts) found.fault) }
{
    let mut targets = LeafTargets::new(alloc);
    let mut models = ListModels::new(alloc);
    let mut fault = None;
    for number in 0..nodes.len() {
        let here = targets.meet(&mut models, alloc, nodes, NodeId(number))?;
        fault = lesser(fault, here);
    }
    Ok(FoundTargets { targets, fault })
}
