//! The values of leafrefs that reach nothing.
ghost use Rattle.std.specs.{Prelude.{◌≡◌, ◌+◌, [], ◌++◌, List, IfOk, OnErr, OnOk, option_map, unwrap_or, if◌then◌else◌}, List.{sum_by}};
ghost use Rattle.serde_json.specs.Data.{Members, object};
ghost use Rattle.yv_text_statement.specs.declared.document_kind.Kind.{Kind};
ghost use Rattle.yv_values.specs.Count.{count_up};
ghost use Rattle.yv_nodes.specs.Link.{link_in};
ghost use Rattle.yv_data_leafrefs.specs.{Findings.{HasMet, position_at, Spreads, TargetDefault}, InnerAnswers.{AreMarks, count_leafrefs, asked_once, climbed_to, defaults_at, further_out, is_used, judge, judge_all, location_of, Marks, objects_of, paths_of}, InnerNames.{AreNames}, Meetings.{all_met}, References.{all_references, lookups_at}};

use crate::findings::{Findings, Note, Position};
use crate::names::StepNames;
use crate::paths::{Location, Locations, ValuePath, share};
use crate::targets::Targets;
use crate::uses::Uses;
use std::alloc::{AllocError, Global};
use yv_nodes::{Links, NodeId};
use yv_schema_tables::Schema;
use yv_values::{Defaults, Meter, Tuple};

/// The paths of the values of leafrefs that are the same as none that their own paths reach (RFC
/// 7950, section 9.9), in the order in which a walk found them. Each value of a leafref that it
/// found is looked up once, in time log n, which is one step; a path is made only for a value that
/// is reported. It fails only if memory runs out, and then the meter is as it was.
pub fn answer(
    alloc: Global,
    schema: &Schema,
    found: Findings,
    meter: &mut Meter,
) -> Result<Vec<ValuePath>, AllocError>
    // If a walk has found what is to be found in a document of a kind: exactly the paths of the
    // values that equal none of those that their leafrefs' paths reach, in the order in which they
    // are met.
    ensures tells { IfOk result (λ paths. (k : Kind) (ms : Members) → HasMet k schema.now ms found
        → paths.items ≡ all_references k schema.now (object ms)) }
    // The meter counts each look-up.
    ensures steps { OnOk result ((k : Kind) (ms : Members) → HasMet k schema.now ms found
        → count_up meter.new
        ≡ count_up
        (meter.old
        + sum_by (lookups_at (link_in schema.now.links)) (all_met k schema.now (object ms)))) }
    // After an error the meter is as it was.
    ensures same { OnErr result (meter.new ≡ meter.old) }
{
    let Findings {
        alloc: _,
        positions,
        targets,
        uses,
        notes,
    } = found;
    let answers = Answers {
        alloc,
        schema,
        links: schema.links(),
        positions,
        targets,
        uses,
    };
    let _nodes = schema.children(Schema::ROOT);
    let mut steps = Meter::new();
    let paths = answers.all(notes, &mut steps)?;
    meter.visit_all(steps.steps());
    Ok(paths)
}

/// What answers rest on.
#[derive(Drop)]
struct Answers<'a> {
    alloc: Global,
    schema: &'a Schema,
    links: &'a Links,
    positions: Vec<Position>,
    targets: Targets,
    uses: Uses,
}

impl Answers<'_> {
    fn all(&self, notes: Vec<Note>, meter: &mut Meter) -> Result<Vec<ValuePath>, AllocError>
        ensures tells { IfOk result
            (λ paths. (m : Marks) → AreMarks self.now.targets self.now.uses m
            → paths.items
            ≡ judge_all self.now.schema.now (link_in self.now.links.now) m self.now.positions.items
            notes.items) }
        ensures steps { OnOk result
            (count_up meter.new
            ≡ count_up (meter.old + count_leafrefs (link_in self.now.links.now) notes.items)) }
    {
        let mut names = StepNames::new(self.alloc);
        let mut values = Vec::new(self.alloc);
        for note in notes {
            self.one(note, &mut names, &mut values, meter)?;
        }
        self.paths_to(&mut names, values)
    }

    fn one(
        &self,
        note: Note,
        names: &mut StepNames,
        values: &mut Vec<Location>,
        meter: &mut Meter,
    ) -> Result<(), AllocError>
        requires { AreNames self.now.schema.now names.old }
        ensures tells { OnOk result ((m : Marks) → AreMarks self.now.targets self.now.uses m
            → paths_of self.now.schema.now self.now.positions.items values.new.items
            ≡ paths_of self.now.schema.now self.now.positions.items values.old.items
            ++ judge self.now.schema.now (link_in self.now.links.now) m self.now.positions.items
            note) }
        ensures steps { OnOk result
            (count_up meter.new
            ≡ count_up (meter.old + asked_once (link_in self.now.links.now note.node))) }
        ensures names { OnOk result (AreNames self.now.schema.now names.new) }
    {
        let link = match self.links.link(note.node) {
            Some(link) => link,
            None => return Ok(()),
        };
        let Note {
            position,
            node,
            item,
            value,
        } = note;
        let first = self.climbed_to(link.climbs, position);
        let last = self.last_of(first);
        let defaults = self.defaults_in_use(link.target, first, last);
        let mut key = Tuple::new(self.alloc);
        key.push(value)?;
        if self
            .targets
            .within_or_among(meter, link.target, &key, first, last, defaults)
        {
            return Ok(());
        }
        values.push(self.location(names, position, node, item)?)?;
        Ok(())
    }

    // The defaults of a target, where they are in use in an object from the first to the last.
    fn defaults_in_use(&self, target: NodeId, first: u64, last: u64) -> Option<&Defaults>
        ensures { (us : List TargetDefault) → Spreads [] self.now.uses us
            → unwrap_or (option_map (λ d. d.now) result) []
            ≡ (if is_used target.0 first last us then defaults_at self.now.schema.now target.0
            else []) }
    {
        if self.uses.is_within(target, first, last) {
            self.defaults_of(target)
        } else {
            None
        }
    }

    // The defaults of a node. What the schema doesn't have, and no link leads to, has none.
    fn defaults_of(&self, target: NodeId) -> Option<&Defaults>
        ensures { unwrap_or (option_map (λ d. d.now) result) []
            ≡ defaults_at self.now.schema.now target.0 }
    {
        if target.number() < self.schema.len() {
            self.schema.node(target).default_values()
        } else {
            None
        }
    }

    // The object that a path climbs to from another; the first `../` only leaves the leafref
    // itself.
    fn climbed_to(&self, climbs: Option<usize>, position: u64) -> u64
        ensures { result ≡ climbed_to self.now.positions.items climbs position }
    {
        match climbs {
            Some(climbs) => self.further_out(climbs.saturating_sub(1), position),
            None => 0,
        }
    }

    fn further_out(&self, many: usize, position: u64) -> u64
        ensures { result ≡ further_out self.now.positions.items many position }
    {
        let mut outer = position;
        for _ in 0..many {
            outer = self.parent_of(outer);
        }
        outer
    }

    fn parent_of(&self, position: u64) -> u64
        ensures { result ≡ (position_at self.now.positions.items position).parent }
    {
        match self.positions.get(position as usize) {
            Some(found) => found.parent,
            None => 0,
        }
    }

    fn last_of(&self, position: u64) -> u64
        ensures { result ≡ (position_at self.now.positions.items position).last }
    {
        match self.positions.get(position as usize) {
            Some(found) => found.last,
            None => 0,
        }
    }

    // The paths to values in the objects that were entered.
    fn paths_to(
        &self,
        names: &mut StepNames,
        values: Vec<Location>,
    ) -> Result<Vec<ValuePath>, AllocError>
        requires { AreNames self.now.schema.now names.old }
        ensures { IfOk result
            (λ paths. paths.items
            ≡ paths_of self.now.schema.now self.now.positions.items values.items) }
    {
        if values.is_empty() {
            return Ok(Vec::new(self.alloc));
        }
        let objects = self.objects(names)?;
        share(self.alloc, Locations { objects, values })
    }

    // Where the objects are that were entered.
    fn objects(&self, names: &mut StepNames) -> Result<Vec<Location>, AllocError>
        requires { AreNames self.now.schema.now names.old }
        ensures { IfOk result
            (λ objects. objects.items ≡ objects_of self.now.schema.now self.now.positions.items) }
    {
        let mut objects = Vec::new(self.alloc);
        for object in &self.positions {
            objects.push(self.location(names, object.parent, object.node, object.item())?)?;
        }
        Ok(objects)
    }

    fn location(
        &self,
        names: &mut StepNames,
        outer: u64,
        node: NodeId,
        item: Option<u64>,
    ) -> Result<Location, AllocError>
        requires { AreNames self.now.schema.now names.old }
        ensures names { OnOk result (AreNames self.now.schema.now names.new) }
        ensures location { IfOk result
            (λ location. location ≡ location_of self.now.schema.now outer node.0 item) }
    {
        Ok(Location {
            outer,
            node,
            name: names.name_of(self.schema, node)?,
            item,
        })
    }
}
