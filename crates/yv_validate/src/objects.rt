//! Objects, and what is met in them.
ghost use Rattle.std.specs.Prelude.{◌≡◌, ◌==◌, ◌<◌, ◌≤◌, ◌+◌, ◌*◌, ℕ, List, [], ◌∷◌, length, IfOk, IfSome, OnOk, None, Some, if◌then◌else◌};
ghost use Rattle.serde_json.specs.{Data.{object as an_object}, View.{view, items_view, members_view}};
ghost use Rattle.yv_node_content.specs.Kinds.{is_data};
ghost use Rattle.yv_values.specs.Count.{count_up};
ghost use Rattle.yv_nodes.specs.Rows.{rank, below, children_of};
ghost use Rattle.yv_walk.specs.{Context.{members_len, members_of}, Existence.{any, existence_of}};
ghost use Rattle.yv_data_leafrefs.specs.{Findings.{first_of}, InUse.{is_asked, is_number}};
ghost use Rattle.yv_validate.specs.{Faults.{array_faults, flaw}, InnerNotes.{GainsBy, HasTuples}, InnerWalk.{children_met, Meets, MeetsBelow}, InnerPromises.{ClosesAt, ClosesData, data_of, fallback_in, faults_in, GainsData, GrowsAt, GrowsBy, GrowsWithAt, IsDataOn, IsObjectOn, IsParentOn, IsStateOn, MayChoose, MayMeet, MayMeetBelow, met_at_data, met_at_node, met_below, met_in_cases, met_in_container, met_in_entries, met_in_list, met_in_object, next_at, node_in, own_node, Reports, unknowns_in, work_in}};
ghost use Rattle.yv_data_quiet.specs.{Quiet.{IsEmptied, IsPassed}, Runs.{AreRuns, IsPast}};

use crate::memory::stood_before;
use crate::nodes::count_of;
use crate::notes::Notes;
use crate::progress::Progress;
use crate::report::Report;
use crate::tell::tell_references;
use crate::walk::{Visit, Walk};
use serde_json::{Map, Value};
use std::alloc::AllocError;
use yv_data_faults::{FaultKind, Faults, Trail};
use yv_data_leafrefs::{RuleScope, answer, laws as found_laws};
use yv_data_quiet::{Run, inner_steps, known_steps, pass_quiet, pass_quiet_children};
use yv_node_content::NodeKind;
use yv_nodes::NodeId;
use yv_schema_tables::Schema;
use yv_values::{Index, Meter};
use yv_walk::{Context, Existence, is_there, laws};

impl<'a> Walk<'a> {
    /// The faults of a document that is an object: what is wrong with its data, and after that its
    /// references that reach nothing.
    pub(crate) fn document(&self, members: &Map<String, Value>) -> Result<Report, AllocError>
        ensures faults { IfOk result
            (λ r. r.faults.items ≡ faults_in self.now (members_view members.now.entries)) }
        ensures steps { IfOk result
            (λ r. r.steps ≡ count_up (work_in self.now (members_view members.now.entries))) }
    {
        let mut progress = Progress::new(self.alloc)?;
        let mut notes = Notes::new(self.alloc);
        let root = Trail::Root;
        let top = Visit {
            scope: RuleScope::Always,
            id: Schema::ROOT,
            path: &root,
            position: 0,
        };
        self.object(top, None, members, &mut notes, &mut progress)?;
        let Progress {
            mut faults,
            found,
            mut meter,
            matchers: _matchers,
        } = progress;
        let paths = answer(self.alloc, self.schema, found, &mut meter)?;
        tell_references(paths, &mut faults)?;
        Ok(Report {
            faults: faults.into_vec(),
            steps: meter.steps(),
        })
    }

    /// The fault of a document that is not an object.
    pub(crate) fn no_object(&self) -> Result<Report, AllocError>
        ensures faults { IfOk result (λ r. r.faults.items ≡ flaw FaultKind.Shape [] ∷ []) }
        ensures steps { IfOk result (λ r. r.steps ≡ 0) }
    {
        let mut faults = Faults::new(self.alloc)?;
        self.tell(FaultKind::Shape, &Trail::Root, &mut faults)?;
        Ok(Report {
            faults: faults.into_vec(),
            steps: 0,
        })
    }

    // Looks up the members of an object, and reports those that name no node.
    fn enter<'v>(
        &self,
        at: Visit<'_>,
        members: &'v Map<String, Value>,
        meter: &mut Meter,
        faults: &mut Faults,
    ) -> Result<Context<'v>, AllocError>
        requires { IsParentOn self.now at }
        ensures faults { OnOk result (Reports faults.old faults.new
            (unknowns_in self.now at.entry (members_view members.now.entries))) }
        ensures meets { IfOk result (λ c. MeetsBelow self.now.schema.now c at.entry.id) }
        ensures members { IfOk result (λ c. members_of c ≡ members_view members.now.entries) }
        ensures steps { OnOk result (count_up meter.new
            ≡ count_up (meter.old + members_len (members_view members.now.entries))) }
    {
        let _children = self.schema.children(at.id);
        let context = Context::read(self.alloc, self.schema, meter, at.id, members)?;
        laws::child_stands();
        self.tell_unknowns(context.unknown(), at.path, faults)?;
        Ok(context)
    }

    // An object of a node, with all that is below it, which is in the object with this number; with
    // its number from 1, where it is an entry.
    #[cycle(walk)]
    fn object(
        &self,
        at: Visit<'_>,
        item: Option<u64>,
        members: &Map<String, Value>,
        notes: &mut Notes,
        progress: &mut Progress<'a>,
    ) -> Result<(), AllocError>
        requires { IsParentOn self.now at }
        ensures grows { OnOk result ((outer : List ℕ) (entry : ℕ)
            → first_of outer ≡ at.entry.position → GrowsBy self.now progress.old progress.new
            (met_in_object self.now at.entry item outer entry progress.old
            (an_object (members_view members.now.entries)))) }
        ensures notes { OnOk result (GainsBy self.now.schema.now notes.old notes.new
            (children_met self.now.kind self.now.schema.now RuleScope.Always at.entry.id
            (members_view members.now.entries))) }
    {
        found_laws::object_met();
        let context = self.enter(at, members, &mut progress.meter, &mut progress.faults)?;
        let position = progress.found.enter(at.position, at.id, item)?;
        let inner = Visit { position, ..at };
        self.inside(inner, members, &context, notes, progress)?;
        progress.found.leave(position);
        Ok(())
    }

    // What is below a node, in an object of it with these members, which has this number.
    #[cycle(walk)]
    fn inside(
        &self,
        at: Visit<'_>,
        members: &Map<String, Value>,
        context: &Context<'_>,
        notes: &mut Notes,
        progress: &mut Progress<'a>,
    ) -> Result<(), AllocError>
        requires node { MayMeetBelow self.now at context.now }
        requires members { members_of context.now ≡ members_view members.now.entries }
        ensures grows { OnOk result (GrowsAt self.now at.entry progress.old progress.new
            (met_below self.now RuleScope.Always at.entry.id context.now)) }
        ensures notes { OnOk result (GainsBy self.now.schema.now notes.old notes.new
            (met_below self.now RuleScope.Always at.entry.id context.now)) }
    {
        found_laws::nothing_met();
        if let Some(steps) = self.empty_steps(at.id, members) {
            progress.meter.visit_all(steps);
            return Ok(());
        }
        let scope = RuleScope::Always;
        let all = Visit { scope, ..at };
        self.children(all, context, notes, progress)
    }

    // The steps of what is below a node in an object without members, where nothing else comes of
    // it. Where there are many children, these are passed over one run after the other.
    fn empty_steps(&self, parent: NodeId, members: &Map<String, Value>) -> Option<u64>
        requires { rank parent ≤ length self.now.schema.now.nodes }
        ensures { IfSome result
            (IsEmptied self.now.schema.now parent (members_view members.now.entries)) }
    {
        if !members.is_empty() {
            return None;
        }
        if !self.runs.runs_at(parent).is_empty() {
            return None;
        }
        let steps = inner_steps(self.schema, self.known, parent)?;
        Some(steps)
    }

    // The nodes below one, each in this scope, in the object with this number: of many, those of
    // which nothing comes are passed over at once.
    #[cycle(walk)]
    fn children(
        &self,
        at: Visit<'_>,
        context: &Context<'_>,
        notes: &mut Notes,
        progress: &mut Progress<'a>,
    ) -> Result<(), AllocError>
        requires { MayMeetBelow self.now at context.now }
        ensures grows { OnOk result (GrowsAt self.now at.entry progress.old progress.new
            (met_below self.now at.entry.scope at.entry.id context.now)) }
        ensures notes { OnOk result (GainsBy self.now.schema.now notes.old notes.new
            (met_below self.now at.entry.scope at.entry.id context.now)) }
    {
        laws::child_numbers();
        found_laws::nothing_met();
        found_laws::met_behind();
        found_laws::kept_objects_are_entered();
        let parent = at.id;
        let children = self.schema.children(parent);
        let runs = self.runs.runs_at(parent);
        let mut place = 0;
        while place < children.len() {
            let id = children[place];
            let is_passed = self.meet(Visit { id, ..at }, context, notes, progress)?;
            let meter = &mut progress.meter;
            place = self.next_place(runs, parent, place + 1, is_passed, context, meter);
        }
        Ok(())
    }

    // The place of the child that is met next, from this one on. A run is looked for only where the
    // child before was passed over: then those after it are often not in the object either.
    fn next_place(
        &self,
        runs: &[Run],
        parent: NodeId,
        from: usize,
        is_passed: bool,
        context: &Context<'_>,
        meter: &mut Meter,
    ) -> usize
        requires node { rank parent ≤ length self.now.schema.now.nodes }
        requires runs { AreRuns self.now.schema.now (children_of self.now.schema.now parent)
            runs.now }
        requires meets { MeetsBelow self.now.schema.now context.now parent }
        ensures { IsPast self.now.schema.now parent (members_of context.now) from result meter.old
            meter.new }
    {
        if !is_passed || runs.is_empty() {
            return from;
        }
        pass_quiet_children(self.schema, runs, parent, from, context, meter)
    }

    // The cases of a choice, each in a scope of its own: many of which nothing comes are passed
    // over at once.
    #[cycle(walk)]
    fn cases(
        &self,
        at: Visit<'_>,
        context: &Context<'_>,
        notes: &mut Notes,
        progress: &mut Progress<'a>,
    ) -> Result<(), AllocError>
        requires { MayChoose self.now at context.now }
        ensures grows { OnOk result (GrowsAt self.now at.entry progress.old progress.new
            (met_in_cases self.now at.entry.id context.now)) }
        ensures notes { OnOk result (GainsBy self.now.schema.now notes.old notes.new
            (met_in_cases self.now at.entry.id context.now)) }
    {
        laws::child_numbers();
        found_laws::nothing_met();
        found_laws::met_behind();
        found_laws::kept_objects_are_entered();
        let choice = at.id;
        let _node = self.schema.node(choice);
        let fallback = self.fallback(at, context);
        let children = self.schema.children(choice);
        let runs = self.runs.runs_at(choice);
        let mut place = pass_quiet(self.schema, runs, choice, 0, context, &mut progress.meter);
        while place < children.len() {
            let id = children[place];
            let those = context.existence_of(self.schema, id);
            let scope = case_scope(fallback, id, those);
            self.meet(Visit { scope, id, ..at }, context, notes, progress)?;
            place = pass_quiet(
                self.schema,
                runs,
                choice,
                place + 1,
                context,
                &mut progress.meter,
            );
        }
        Ok(())
    }

    // The default case of a choice, where none of its cases exists.
    fn fallback(&self, at: Visit<'_>, context: &Context<'_>) -> Option<NodeId>
        requires { MayChoose self.now at context.now }
        ensures { result ≡ fallback_in self.now at.entry.id context.now }
    {
        let _node = self.schema.node(at.id);
        if context.existence_of(self.schema, at.id).any() {
            return None;
        }
        self.schema.default_case(at.id)
    }

    // A node that may be in the object, whose surroundings have this scope. Most nodes of an object
    // are often not in it, and nothing comes of them: then their steps are counted at once. The
    // answer says whether that was so.
    #[cycle(walk)]
    fn meet(
        &self,
        at: Visit<'_>,
        context: &Context<'_>,
        notes: &mut Notes,
        progress: &mut Progress<'a>,
    ) -> Result<bool, AllocError>
        requires { MayMeet self.now at context.now }
        ensures grows { OnOk result (GrowsAt self.now at.entry progress.old progress.new
            (met_at_node self.now at.entry context.now)) }
        ensures notes { OnOk result (GainsBy self.now.schema.now notes.old notes.new
            (met_at_node self.now at.entry context.now)) }
    {
        found_laws::nothing_met();
        if let Some(steps) = self.passed_steps(at.id, context) {
            progress.meter.visit_all(steps);
            return Ok(true);
        }
        self.node(at, context, notes, progress)?;
        Ok(false)
    }

    // The steps of a node with all that is met below it, where none of them exists in the object
    // and nothing else comes of them.
    fn passed_steps(&self, id: NodeId, context: &Context<'_>) -> Option<u64>
        requires node { id.0 < length self.now.schema.now.nodes }
        requires meets { Meets self.now.schema.now context.now id }
        ensures { IfSome result (IsPassed self.now.schema.now id (members_of context.now)) }
    {
        let _node = self.schema.node(id);
        let steps = known_steps(self.schema, self.known, id)?;
        match context.existence_of(self.schema, id) {
            Existence::Nothing => Some(steps),
            _ => None,
        }
    }

    // A node that may be in the object, whose surroundings have this scope.
    #[cycle(walk)]
    fn node(
        &self,
        at: Visit<'_>,
        context: &Context<'_>,
        notes: &mut Notes,
        progress: &mut Progress<'a>,
    ) -> Result<(), AllocError>
        requires { MayMeet self.now at context.now }
        ensures grows { OnOk result (GrowsAt self.now at.entry progress.old progress.new
            (met_at_node self.now at.entry context.now)) }
        ensures notes { OnOk result (GainsBy self.now.schema.now notes.old notes.new
            (met_at_node self.now at.entry context.now)) }
    {
        found_laws::nothing_met();
        found_laws::met_behind();
        found_laws::default_met();
        let node = self.schema.node(at.id);
        let kind = node.kind();
        if kind.is_operation_or_notification() {
            return Ok(());
        }
        self.visit(at.id, &mut progress.meter);
        laws::inner_stands();
        let scope = at.scope.narrow(self.kind, node.config());
        let at = Visit { scope, ..at };
        if kind.is_data() {
            let value = context.value(at.id);
            return self.data(at, value, notes, progress);
        }
        match kind {
            NodeKind::Choice => self.choice(at, context, notes, progress),
            NodeKind::Case => self.children(at, context, notes, progress),
            _ => Ok(()),
        }
    }

    // A choice that was visited.
    #[cycle(walk)]
    fn choice(
        &self,
        at: Visit<'_>,
        context: &Context<'_>,
        notes: &mut Notes,
        progress: &mut Progress<'a>,
    ) -> Result<(), AllocError>
        requires { MayChoose self.now at context.now }
        ensures grows { OnOk result (ClosesAt self.now at.entry progress.old progress.new
            (met_in_cases self.now at.entry.id context.now)
            (node_in self.now at.entry context.now)) }
        ensures notes { OnOk result (GainsBy self.now.schema.now notes.old notes.new
            (met_in_cases self.now at.entry.id context.now)) }
    {
        found_laws::nothing_met();
        found_laws::met_behind();
        found_laws::default_met();
        let _node = self.schema.node(at.id);
        self.cases(at, context, notes, progress)?;
        let existing = context.count(self.schema, at.id);
        self.end_choice(at, existing, &mut progress.faults)
    }

    // A data node that was visited, written so or not.
    #[cycle(walk)]
    fn data(
        &self,
        at: Visit<'_>,
        value: Option<&Value>,
        notes: &mut Notes,
        progress: &mut Progress<'a>,
    ) -> Result<(), AllocError>
        requires { IsDataOn self.now at }
        ensures grows { OnOk result (ClosesData self.now at.entry progress.old progress.new
            value.entry (met_at_data self.now at.entry)) }
        ensures notes { OnOk result (GainsData self.now at.entry notes.old notes.new value.entry
            (met_at_data self.now at.entry)) }
    {
        found_laws::nothing_met();
        found_laws::met_behind();
        found_laws::default_met();
        let node = self.schema.node(at.id);
        if !at.scope.is_asked() {
            return self.state(at, value, notes, progress);
        }
        match node.kind() {
            NodeKind::Container => self.container(at, value, notes, progress),
            NodeKind::Leaf => self.leaf(at, value, notes, progress),
            NodeKind::LeafList => self.leaf_list(at, value, progress),
            NodeKind::List => self.list(at, value, progress),
            NodeKind::Anydata => self.anydata(at, value, &mut progress.faults),
            NodeKind::Anyxml => self.anyxml(at, value, &mut progress.faults),
            _ => Ok(()),
        }
    }

    // State, where configuration only is asked for: it may not be there, and what is written of it
    // isn't entered.
    #[cycle(walk)]
    fn state(
        &self,
        at: Visit<'_>,
        value: Option<&Value>,
        notes: &mut Notes,
        progress: &mut Progress<'a>,
    ) -> Result<(), AllocError>
        requires { IsStateOn self.now at }
        ensures grows { OnOk result (ClosesData self.now at.entry progress.old progress.new
            value.entry (met_at_data self.now at.entry)) }
        ensures notes { OnOk result (GainsData self.now at.entry notes.old notes.new value.entry
            (met_at_data self.now at.entry)) }
    {
        found_laws::nothing_met();
        found_laws::met_behind();
        found_laws::default_met();
        let kind = self.schema.node(at.id).kind();
        match value {
            Some(written) => {
                let here = Trail::Below(at.path, at.id, None);
                let exists = is_there(kind, written);
                self.tell_if(exists, FaultKind::State, &here, &mut progress.faults)
            }
            None => match kind {
                NodeKind::Container => self.container(at, None, notes, progress),
                _ => Ok(()),
            },
        }
    }

    #[cycle(walk)]
    fn container(
        &self,
        at: Visit<'_>,
        value: Option<&Value>,
        notes: &mut Notes,
        progress: &mut Progress<'a>,
    ) -> Result<(), AllocError>
        requires { IsObjectOn self.now at }
        ensures grows { OnOk result (GrowsAt self.now at.entry progress.old progress.new
            (met_in_container self.now at.entry value.entry)) }
        ensures notes { OnOk result (GainsBy self.now.schema.now notes.old notes.new
            (met_in_container self.now at.entry value.entry)) }
    {
        found_laws::nothing_met();
        let node = self.schema.node(at.id);
        let here = Trail::Below(at.path, at.id, None);
        let inner = Visit { path: &here, ..at };
        match value {
            None => {
                if node.presence() {
                    return Ok(());
                }
                let context = Context::empty(self.alloc, at.id);
                laws::child_stands();
                self.children(inner, &context, notes, progress)
            }
            Some(written) => match written {
                Value::Object(members) => self.object(inner, None, members, notes, progress),
                _ => self.tell(FaultKind::Shape, &here, &mut progress.faults),
            },
        }
    }

    #[cycle(walk)]
    fn list(
        &self,
        at: Visit<'_>,
        value: Option<&Value>,
        progress: &mut Progress<'a>,
    ) -> Result<(), AllocError>
        requires { IsObjectOn self.now at }
        ensures grows { OnOk result (GrowsWithAt self.now at.entry progress.old progress.new
            (met_in_list self.now at.entry value.entry)
            (array_faults (own_node self.now at.entry) (data_of value.entry))) }
    {
        found_laws::nothing_met();
        match value {
            None => self.end_array(at, 0, &mut progress.faults),
            Some(written) => match written {
                Value::Array(items) => {
                    self.entries(at, items, progress)?;
                    self.end_array(at, count_of(items), &mut progress.faults)
                }
                _ => self.misshapen(at, &mut progress.faults),
            },
        }
    }

    #[cycle(walk)]
    fn entries(
        &self,
        at: Visit<'_>,
        items: &Vec<Value>,
        progress: &mut Progress<'a>,
    ) -> Result<(), AllocError>
        requires { IsObjectOn self.now at }
        ensures grows { OnOk result (GrowsAt self.now at.entry progress.old progress.new
            (met_in_entries self.now at.entry (items_view items.now.items))) }
    {
        found_laws::nothing_met();
        found_laws::met_behind();
        found_laws::kept_objects_are_entered();
        let _node = self.schema.node(at.id);
        let mut keys = Index::new(self.alloc);
        let mut uniques = self.no_tuples(at.id)?;
        for (index, item) in items.iter().enumerate() {
            let place = index as u64 + 1;
            let here = Trail::Below(at.path, at.id, Some(place));
            let earlier = &items[..index];
            let notes = self.entry(Visit { path: &here, ..at }, item, place, progress)?;
            let leafs = self.schema.keys(at.id);
            let tuple = self.tuple(&notes, leafs)?;
            let first = stood_before(tuple, place, &mut keys, &mut progress.meter)?;
            self.tell_repeat(first, FaultKind::Duplicate, 0, &here, &mut progress.faults)?;
            self.end_uniques(
                at.id,
                earlier,
                &notes,
                &mut uniques,
                &here,
                &mut progress.meter,
                &mut progress.faults,
            )?;
        }
        Ok(())
    }

    // An entry of a list, with its number from 1, and the values of its leafs where it is an
    // object.
    #[cycle(walk)]
    fn entry(
        &self,
        at: Visit<'_>,
        item: &Value,
        place: u64,
        progress: &mut Progress<'a>,
    ) -> Result<Option<Notes>, AllocError>
        requires { IsObjectOn self.now at }
        ensures grows { OnOk result ((outer : List ℕ) → GrowsBy self.now progress.old progress.new
            (met_in_object self.now at.entry (Some place) (at.entry.position ∷ outer)
            (next_at progress.old) progress.old (view item.now))) }
        ensures tuples { IfOk result
            (λ o. HasTuples self.now.kind self.now.schema.now at.entry.id o (view item.now)) }
    {
        found_laws::nothing_met();
        let _node = self.schema.node(at.id);
        match item {
            Value::Object(members) => {
                let mut notes = Notes::new(self.alloc);
                self.object(at, Some(place), members, &mut notes, progress)?;
                Ok(Some(notes))
            }
            _ => {
                self.tell(FaultKind::Shape, at.path, &mut progress.faults)?;
                Ok(None)
            }
        }
    }
}

// The scope of a choice's child: that of the default case, if this is the one in use, else that of
// a case of which these nodes exist.
fn case_scope(fallback: Option<NodeId>, child: NodeId, those: Existence) -> RuleScope
    ensures { result
        ≡ (if is_number fallback child.0 then RuleScope.InDefault else RuleScope.InCase those) }
{
    match fallback {
        Some(number) if number.0 == child.0 => RuleScope::InDefault,
        _ => RuleScope::InCase(those),
    }
}
