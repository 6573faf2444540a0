//! Nodes below which the walk doesn't go.
ghost use Rattle.std.specs.Prelude.{◌≡◌, ◌==◌, ◌&&◌, ◌∷◌, [], ◌++◌, ◌+◌, ◌<◌, Option, nat_lt, length, map, false, true, Some, None, IfOk, OnOk, option_map, unwrap_or, if◌then◌else◌};
ghost use Rattle.serde_json.specs.{Events.{items_len}, View.{view, items_view}};
ghost use Rattle.yv_node_content.specs.declared.kind.NodeKind.TheVariants.{Leaf, LeafList};
ghost use Rattle.yv_values.specs.Count.{count_up};
ghost use Rattle.yv_nodes.specs.{Defaults.{width}, Rows.{row_at}};
ghost use Rattle.yv_data_leafrefs.specs.{Findings.{Finds}, InUse.{is_asked, is_empty_at, uses_defaults}};
ghost use Rattle.yv_validate.specs.{Faults.{anydata_faults, anyxml_faults, array_faults, choice_faults, count_faults, flaw_if, leaf_faults, misshapen as misshapen_faults}, InnerNotes.{Gains}, InnerWalk.{items_at, leaf_at, leaf_list_at}, InnerPromises.{all_defaults_found, ClosesData, data_of, default_found, default_in_use, GainsData, GrowsAt, GrowsWithAt, IsAskedOn, IsNodeOn, met_at_item, own_node, RemembersItems, Reports, value_at, value_found_at, work_at_value}};
ghost use Rattle.yv_data_faults.specs.Trails.{places, IsWithin};

use crate::memory::{alone, stood_before};
use crate::notes::Notes;
use crate::progress::{Progress, meet};
use crate::walk::{Visit, Walk};
use serde_json::Value;
use std::alloc::AllocError;
use yv_data_faults::{FaultKind, Faults, Trail};
use yv_data_leafrefs::{Findings, RuleScope, laws};
use yv_node_content::NodeKind;
use yv_nodes::NodeId;
use yv_values::{Index, Meter, Value as Read, check_with};
use yv_walk::is_there;

/// How many items an array has.
pub(crate) fn count_of(items: &Vec<Value>) -> usize
    ensures { result ≡ items_len (items_view items.now.items) }
{
    items.as_slice().len()
}

impl<'a> Walk<'a> {
    /// The visit of a node at an object: one step, or one for each of its defaults where it has
    /// more.
    pub(crate) fn visit(&self, id: NodeId, meter: &mut Meter)
        requires { id.0 < length self.now.schema.now.nodes }
        ensures { meter.new ≡ count_up (meter.old + width (row_at self.now.schema.now id).label) }
    {
        meter.visit_all(self.schema.node(id).width());
    }

    /// A leaf that was visited, written so or not.
    pub(crate) fn leaf(
        &self,
        at: Visit<'_>,
        value: Option<&Value>,
        notes: &mut Notes,
        progress: &mut Progress<'a>,
    ) -> Result<(), AllocError>
        requires { IsAskedOn self.now at Leaf }
        ensures grows { OnOk result (ClosesData self.now at.entry progress.old progress.new
            value.entry (leaf_at self.now.schema.now at.entry.id)) }
        ensures notes { OnOk result (GainsData self.now at.entry notes.old notes.new value.entry
            (leaf_at self.now.schema.now at.entry.id)) }
    {
        laws::nothing_met();
        laws::met_behind();
        laws::default_met();
        match value {
            None => {
                self.note_default(at, notes, &mut progress.found)?;
                self.absent_leaf(at, &mut progress.faults)
            }
            Some(written) => self.written_leaf(at, written, notes, progress),
        }
    }

    // Notes the default of a leaf that isn't written, and keeps it for references, where it is in
    // use.
    fn note_default(
        &self,
        at: Visit<'_>,
        notes: &mut Notes,
        found: &mut Findings,
    ) -> Result<(), AllocError>
        requires { at.id.0 < length self.now.schema.now.nodes }
        ensures notes { OnOk result (Gains self.now.schema.now notes.old notes.new
            (λ n. if at.entry.id.0 == n then default_in_use self.now at.entry else None)) }
        ensures finds { OnOk result
            (Finds found.old found.new (default_found self.now at.entry)) }
    {
        laws::nothing_met();
        if !at.scope.uses_defaults() {
            return Ok(());
        }
        notes.keep_default(self.schema, at.id)?;
        self.use_defaults(at, found)
    }

    // Keeps for references that the defaults of a leaf or leaf-list are in use in the object with
    // this number, where it has some.
    fn use_defaults(&self, at: Visit<'_>, found: &mut Findings) -> Result<(), AllocError>
        requires { at.id.0 < length self.now.schema.now.nodes }
        ensures { OnOk result (Finds found.old found.new
            (all_defaults_found self.now at.entry)) }
    {
        laws::nothing_met();
        if self.schema.node(at.id).defaults().is_empty() {
            return Ok(());
        }
        found.use_defaults(self.schema.links(), at.id, at.position)
    }

    fn absent_leaf(&self, at: Visit<'_>, faults: &mut Faults) -> Result<(), AllocError>
        requires { IsNodeOn self.now at }
        ensures { OnOk result (Reports faults.old faults.new
            (leaf_faults (own_node self.now at.entry) None)) }
    {
        let node = self.schema.node(at.id);
        let here = Trail::Below(at.path, at.id, None);
        if node.is_key() {
            self.tell(FaultKind::MissingKey, &here, faults)
        } else {
            self.report_missing(node, at.scope, &here, faults)
        }
    }

    fn written_leaf(
        &self,
        at: Visit<'_>,
        value: &Value,
        notes: &mut Notes,
        progress: &mut Progress<'a>,
    ) -> Result<(), AllocError>
        requires { IsNodeOn self.now at }
        ensures grows { OnOk result (GrowsAt self.now at.entry progress.old progress.new
            (leaf_at self.now.schema.now at.entry.id (Some (view value.now)))) }
        ensures notes { OnOk result (Gains self.now.schema.now notes.old notes.new
            (λ n. if at.entry.id.0 == n then value_at self.now at.entry value.now else None)) }
    {
        laws::value_met();
        let here = Trail::Below(at.path, at.id, None);
        let read = self.read(at, None, value, progress)?;
        match read {
            Some(read) => notes.keep(at.id, read),
            None => self.tell(FaultKind::Value, &here, &mut progress.faults),
        }
    }

    // The value of a leaf or an item in the object with this number, where the types of its node
    // read it; it is kept and noted for references, with its number from 1, where it is an item.
    fn read(
        &self,
        at: Visit<'_>,
        item: Option<u64>,
        value: &Value,
        progress: &mut Progress<'a>,
    ) -> Result<Option<Read>, AllocError>
        requires { at.id.0 < length self.now.schema.now.nodes }
        ensures value { IfOk result (λ read. read ≡ value_at self.now at.entry value.now) }
        ensures faults { progress.new.faults.items ≡ progress.old.faults.items }
        ensures finds { OnOk result (Finds progress.old.found progress.new.found
            (value_found_at self.now at.entry item (value_at self.now at.entry value.now))) }
        ensures steps { OnOk result (count_up progress.new.meter ≡ count_up (progress.old.meter
            + work_at_value self.now at.entry value.now)) }
    {
        let node = self.schema.node(at.id);
        let read = check_with(
            self.alloc,
            &mut progress.meter,
            &mut progress.matchers,
            node.types(),
            node.module(),
            value,
        )?;
        meet(self.schema, at, item, &read, &mut progress.found)?;
        Ok(read)
    }

    /// An anydata node, written so or not: an object of any content.
    pub(crate) fn anydata(
        &self,
        at: Visit<'_>,
        value: Option<&Value>,
        faults: &mut Faults,
    ) -> Result<(), AllocError>
        requires { IsNodeOn self.now at }
        ensures { OnOk result (Reports faults.old faults.new
            (anydata_faults (own_node self.now at.entry) (data_of value.entry))) }
    {
        let here = Trail::Below(at.path, at.id, None);
        match value {
            None => self.report_missing(self.schema.node(at.id), at.scope, &here, faults),
            Some(Value::Object(_)) => Ok(()),
            Some(_) => self.tell(FaultKind::Shape, &here, faults),
        }
    }

    /// An anyxml node, written so or not: any value.
    pub(crate) fn anyxml(
        &self,
        at: Visit<'_>,
        value: Option<&Value>,
        faults: &mut Faults,
    ) -> Result<(), AllocError>
        requires { IsNodeOn self.now at }
        ensures { OnOk result (Reports faults.old faults.new
            (anyxml_faults (own_node self.now at.entry) (data_of value.entry))) }
    {
        let here = Trail::Below(at.path, at.id, None);
        match value {
            None => self.report_missing(self.schema.node(at.id), at.scope, &here, faults),
            Some(_) => Ok(()),
        }
    }

    /// What follows the cases of a choice, so many of which exist.
    pub(crate) fn end_choice(
        &self,
        at: Visit<'_>,
        existing: usize,
        faults: &mut Faults,
    ) -> Result<(), AllocError>
        requires { IsNodeOn self.now at }
        ensures { OnOk result (Reports faults.old faults.new (if is_asked at.entry.scope
            then choice_faults (own_node self.now at.entry) existing else [])) }
    {
        if !at.scope.is_asked() {
            return Ok(());
        }
        let here = Trail::Below(at.path, at.id, None);
        match existing {
            0 => self.report_missing(self.schema.node(at.id), at.scope, &here, faults),
            1 => Ok(()),
            _ => self.tell(FaultKind::Choice, &here, faults),
        }
    }

    /// What follows the entries of a list or leaf-list.
    pub(crate) fn end_array(
        &self,
        at: Visit<'_>,
        total: usize,
        faults: &mut Faults,
    ) -> Result<(), AllocError>
        requires { IsNodeOn self.now at }
        ensures { OnOk result (Reports faults.old faults.new
            (count_faults (own_node self.now at.entry) total)) }
    {
        let node = self.schema.node(at.id);
        let here = Trail::Below(at.path, at.id, None);
        let is_short = total < node.min() as usize && at.scope.enforces_beside(at.id);
        self.tell_if(is_short, FaultKind::Min, &here, faults)?;
        let is_long = exceeds(total, node.max());
        self.tell_if(is_long, FaultKind::Max, &here, faults)
    }

    /// A list or leaf-list for which no array is written.
    pub(crate) fn misshapen(&self, at: Visit<'_>, faults: &mut Faults) -> Result<(), AllocError>
        requires { IsNodeOn self.now at }
        ensures { OnOk result (Reports faults.old faults.new
            (misshapen_faults (own_node self.now at.entry))) }
    {
        let here = Trail::Below(at.path, at.id, None);
        self.tell(FaultKind::Shape, &here, faults)
    }

    /// Tells a fault, where there is one.
    pub(crate) fn tell_if(
        &self,
        is_wrong: bool,
        kind: FaultKind,
        here: &Trail<'_>,
        faults: &mut Faults,
    ) -> Result<(), AllocError>
        requires { IsWithin self.now.schema.now here.now }
        ensures { OnOk result (Reports faults.old faults.new
            (flaw_if is_wrong kind (places self.now.schema.now here.now))) }
    {
        if is_wrong {
            self.tell(kind, here, faults)?;
        }
        Ok(())
    }

    /// A leaf-list that was visited, written so or not. Where it has no items, its defaults are in
    /// use.
    pub(crate) fn leaf_list(
        &self,
        at: Visit<'_>,
        value: Option<&Value>,
        progress: &mut Progress<'a>,
    ) -> Result<(), AllocError>
        requires { IsAskedOn self.now at LeafList }
        ensures grows { OnOk result (ClosesData self.now at.entry progress.old progress.new
            value.entry (leaf_list_at self.now.schema.now at.entry.id)) }
    {
        laws::nothing_met();
        laws::met_behind();
        laws::default_met();
        self.array(at, value, progress)?;
        if takes_defaults(at.scope, value) {
            return self.use_defaults(at, &mut progress.found);
        }
        Ok(())
    }

    // The items of a leaf-list, and what is wrong with their number.
    fn array(
        &self,
        at: Visit<'_>,
        value: Option<&Value>,
        progress: &mut Progress<'a>,
    ) -> Result<(), AllocError>
        requires { IsNodeOn self.now at }
        ensures grows { OnOk result (GrowsWithAt self.now at.entry progress.old progress.new
            (leaf_list_at self.now.schema.now at.entry.id (data_of value.entry))
            (array_faults (own_node self.now at.entry) (data_of value.entry))) }
    {
        laws::nothing_met();
        match value {
            None => self.end_array(at, 0, &mut progress.faults),
            Some(written) => match written {
                Value::Array(items) => {
                    self.items(at, items, progress)?;
                    self.end_array(at, count_of(items), &mut progress.faults)
                }
                _ => self.misshapen(at, &mut progress.faults),
            },
        }
    }

    fn items(
        &self,
        at: Visit<'_>,
        items: &Vec<Value>,
        progress: &mut Progress<'a>,
    ) -> Result<(), AllocError>
        requires { IsNodeOn self.now at }
        ensures grows { OnOk result (GrowsAt self.now at.entry progress.old progress.new
            (items_at self.now.schema.now at.entry.id [] (items_view items.now.items))) }
    {
        laws::nothing_met();
        laws::met_behind();
        laws::kept_objects_are_entered();
        let mut kept = Index::new(self.alloc);
        for (index, item) in items.iter().enumerate() {
            let earlier = &items[..index];
            self.item(at, earlier, item, &mut kept, progress)?;
        }
        Ok(())
    }

    // An item of a leaf-list, after these.
    fn item(
        &self,
        at: Visit<'_>,
        earlier: &[Value],
        item: &Value,
        kept: &mut Index,
        progress: &mut Progress<'a>,
    ) -> Result<(), AllocError>
        requires node { IsNodeOn self.now at }
        requires keeps { RemembersItems self.now at kept.now (map view earlier.now) }
        ensures grows { OnOk result (GrowsAt self.now at.entry progress.old progress.new
            (met_at_item self.now at.entry (map view earlier.now) (view item.now))) }
        ensures keeps { OnOk result (RemembersItems self.now at.entry kept.new
            (map view earlier.now ++ view item.now ∷ [])) }
    {
        laws::value_met();
        let node = self.schema.node(at.id);
        let place = earlier.len() as u64 + 1;
        let here = Trail::Below(at.path, at.id, Some(place));
        let read = self.read(at, Some(place), item, progress)?;
        let is_read = read.is_some();
        let tuple = alone(self.alloc, node.config(), read)?;
        let first = stood_before(tuple, place, kept, &mut progress.meter)?;
        if !is_read {
            return self.tell(FaultKind::Value, &here, &mut progress.faults);
        }
        self.tell_repeat(first, FaultKind::Duplicate, 0, &here, &mut progress.faults)
    }
}

// Whether the defaults of a leaf-list are in use.
fn takes_defaults(scope: RuleScope, value: Option<&Value>) -> bool
    ensures { result
        ≡ (uses_defaults scope && is_empty_at LeafList (data_of value.entry)) }
{
    scope.uses_defaults() && has_no_items(value)
}

// Whether a leaf-list has no items: none are written, or an empty array is.
fn has_no_items(value: Option<&Value>) -> bool
    ensures { result ≡ is_empty_at LeafList (data_of value.entry) }
{
    match value {
        Some(written) => !is_there(NodeKind::LeafList, written),
        None => true,
    }
}

// Whether it is more than there may be.
fn exceeds(total: usize, most: Option<u32>) -> bool
    ensures { result ≡ unwrap_or (option_map (λ n. nat_lt n total) most) false }
{
    match most {
        Some(most) => (most as usize) < total,
        None => false,
    }
}
