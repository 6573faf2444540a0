//! The faults that a walk has reported, and what their paths share.
ghost use Rattle.std.specs.Prelude.{◌≡◌, [], ◌∷◌, ◌++◌, true, IfOk, OnErr, OnOk};
ghost use Rattle.yv_nodes.specs.Rows.{row_at};
ghost use Rattle.yv_data_leafrefs.specs.Place.{step_name, under};
ghost use Rattle.yv_data_faults.specs.{InnerPath.{is_entry, numbers, trail_names, trail_numbers, way_names}, Trails.{places, IsWithin}};

use crate::fault::Fault;
use crate::path::{Entries, Path, Way};
use crate::trail::Trail;
use std::alloc::{AllocError, Global};
use std::collections::BTreeMap;
use std::marker::Model;
use std::rc::{Rc, RcStr};
use yv_data_leafrefs::Step;
use yv_nodes::Node;
use yv_schema_tables::Schema;

/// Faults in order. Ways to nodes are kept, so that the paths of later faults share them, and so
/// are the entries around the last fault. Contracts see the faults alone: what is kept is compared
/// before it is shared.
#[derive(Drop)]
pub struct Faults {
    list: Vec<Fault>,
    ways: BTreeMap<u32, Rc<Way>>,
    entries: Rc<Entries>,
}

impl Model for Faults {
    ghost use Rattle.yv_data_faults.specs.Trails.{Flaws};

    ghost Value = { Flaws };

    ghost view = { λ f. record { items = f.list.items } };
}

impl Faults {
    /// No faults.
    pub fn new(alloc: Global) -> Result<Faults, AllocError>
        ensures { IfOk result (λ f. f.items ≡ []) }
    {
        Ok(Faults {
            list: Vec::new(alloc),
            ways: BTreeMap::new(alloc),
            entries: Rc::new(alloc, Entries::Outside)?,
        })
    }

    /// The faults themselves.
    pub fn into_vec(self) -> Vec<Fault>
        ensures { result.items ≡ self.items }
    {
        self.list
    }

    /// Puts a fault after the others. Where memory runs out, there are only those as before.
    pub fn push(&mut self, fault: Fault) -> Result<(), AllocError>
        // The fault comes after the others.
        ensures items { OnOk result (self.new.items ≡ self.old.items ++ fault ∷ []) }
        // After an error the faults are as before.
        ensures keeps { OnErr result (self.new.items ≡ self.old.items) }
    {
        self.list.push(fault)?;
        Ok(())
    }

    /// The path to the end of a way.
    pub fn path(
        &mut self,
        alloc: Global,
        schema: &Schema,
        trail: &Trail<'_>,
    ) -> Result<Path, AllocError>
        // The way is one of this schema.
        requires { IsWithin schema.now trail.now }
        // The path to the end of a way.
        ensures path { IfOk result (λ p. p ≡ places schema.now trail.now) }
        // The faults stay.
        ensures same { self.new.items ≡ self.old.items }
    {
        let way = way_to(alloc, schema, &mut self.ways, trail)?;
        let node = trail.node();
        match trail {
            Trail::Root => Ok(Path::of_way(node, way, self.entries_to(alloc, trail)?, None)),
            Trail::Below(outer, _, item) => {
                Ok(Path::of_way(node, way, self.entries_to(alloc, outer)?, *item))
            }
        }
    }

    /// The path to a member that names no node, in an object at the end of a way.
    pub fn path_under(
        &mut self,
        alloc: Global,
        schema: &Schema,
        trail: &Trail<'_>,
        member: &str,
    ) -> Result<Path, AllocError>
        // The way is one of this schema.
        requires { IsWithin schema.now trail.now }
        // The path to a member that names no node, in the object there.
        ensures path { IfOk result (λ p. p ≡ under (places schema.now trail.now) member.now) }
        // The faults stay.
        ensures same { self.new.items ≡ self.old.items }
    {
        let way = way_to(alloc, schema, &mut self.ways, trail)?;
        let step = Step::of_name(RcStr::from_str(alloc, member)?, None);
        let way = Rc::new(alloc, Way::After(way, trail.is_entry(), step))?;
        let around = self.entries_to(alloc, trail)?;
        Ok(Path::of_way(trail.node(), way, around, None))
    }

    // The entries on a way, which are kept for the next fault.
    fn entries_to(&mut self, alloc: Global, trail: &Trail<'_>) -> Result<Rc<Entries>, AllocError>
        ensures entries { IfOk result (λ e. numbers e.value ≡ trail_numbers trail.now) }
        ensures same { self.new.items ≡ self.old.items }
    {
        let count = trail.count();
        let (entries, _) = entries_on(alloc, trail, count, cut(&self.entries, count))?;
        self.entries = entries.clone()?;
        Ok(entries)
    }
}

// The outer ones of entries, so many of them.
fn cut<'e>(entries: &'e Rc<Entries>, most: u64) -> &'e Rc<Entries> {
    match entries.as_ref() {
        Entries::Within(outer, _, count) if *count > most => cut(outer, most),
        _ => entries,
    }
}

// The entries on a way, of which there are so many, and whether they are the same as others: then
// they are shared.
fn entries_on(
    alloc: Global,
    trail: &Trail<'_>,
    count: u64,
    others: &Rc<Entries>,
) -> Result<(Rc<Entries>, bool), AllocError>
    ensures entries { IfOk result (λ r. numbers r.0.value ≡ trail_numbers trail.now) }
    ensures same { IfOk result (λ r. r.1 ≡ true → numbers r.0.value ≡ numbers others.now.value) }
{
    match trail {
        Trail::Root => outside(alloc, others),
        Trail::Below(outer, _, None) => entries_on(alloc, outer, count, others),
        Trail::Below(outer, _, Some(number)) => {
            let around = match others.as_ref() {
                Entries::Within(around, _, many) if *many == count => around,
                _ => others,
            };
            let (entries, is_same) = entries_on(alloc, outer, count.saturating_sub(1), around)?;
            match others.as_ref() {
                Entries::Within(_, other, many) if is_same && *many == count && other == number => {
                    Ok((others.clone()?, true))
                }
                _ => Ok((
                    Rc::new(alloc, Entries::Within(entries, *number, count))?,
                    false,
                )),
            }
        }
    }
}

// No entries; whether these are none.
fn outside(alloc: Global, others: &Rc<Entries>) -> Result<(Rc<Entries>, bool), AllocError>
    ensures entries { IfOk result (λ r. numbers r.0.value ≡ []) }
    ensures same { IfOk result (λ r. r.1 ≡ true → numbers r.0.value ≡ numbers others.now.value) }
{
    match others.as_ref() {
        Entries::Outside => Ok((others.clone()?, true)),
        Entries::Within(_, _, _) => Ok((Rc::new(alloc, Entries::Outside)?, false)),
    }
}

// The way to a node, as it is kept; it is kept, where it isn't yet.
fn way_to(
    alloc: Global,
    schema: &Schema,
    ways: &mut BTreeMap<u32, Rc<Way>>,
    trail: &Trail<'_>,
) -> Result<Rc<Way>, AllocError>
    requires { IsWithin schema.now trail.now }
    ensures { IfOk result (λ w. way_names w.value ≡ trail_names schema.now trail.now) }
{
    let node = trail.node();
    if let Some(way) = ways.get(&node.0) {
        if leads(schema, way, trail)? {
            return way.clone();
        }
    }
    let way = match trail {
        Trail::Root => Rc::new(alloc, Way::Start)?,
        Trail::Below(outer, id, _) => {
            let before = way_to(alloc, schema, ways, outer)?;
            let step = Step::of(schema.node(*id), None)?;
            Rc::new(alloc, Way::After(before, outer.is_entry(), step))?
        }
    };
    ways.insert(node.0, way.clone()?)?;
    Ok(way)
}

// Whether a way is this one.
fn leads(schema: &Schema, way: &Way, trail: &Trail<'_>) -> Result<bool, AllocError>
    requires { IsWithin schema.now trail.now }
    ensures { IfOk result (λ b. b ≡ true → way_names way.now ≡ trail_names schema.now trail.now) }
{
    match trail {
        Trail::Root => Ok(matches!(way, Way::Start)),
        Trail::Below(outer, id, _) => match way {
            Way::Start => Ok(false),
            Way::After(before, is_entry, step) => {
                if *is_entry != outer.is_entry() || !is_step(step, schema.node(*id))? {
                    return Ok(false);
                }
                leads(schema, before, outer)
            }
        },
    }
}

// Whether a step has the name of a node.
fn is_step(step: &Step, node: &Node) -> Result<bool, AllocError>
    ensures { IfOk result (λ b. b ≡ true → step.now.member ≡ step_name node.now.label) }
{
    let other = Step::of(node, None)?;
    Ok(has_name(step, &other))
}

// Whether two steps have the same name.
fn has_name(step: &Step, other: &Step) -> bool
    ensures { result ≡ true → step.now.member ≡ other.now.member }
{
    let (name, other) = (step.parts(), other.parts());
    name.is_choice == other.is_choice && name.name == other.name && name.module == other.module
}
