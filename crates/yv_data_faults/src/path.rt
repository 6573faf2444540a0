//! Paths of faults, which share what is around their places.
ghost use Rattle.std.specs.{Prelude.{◌≡◌, ◌==◌, [], ◌∷◌, ◌++◌, length, IfOk, MatchOption, string_bytes}, Option.{option_map}};
ghost use Rattle.yv_nodes.specs.Member.{behind};
ghost use Rattle.yv_data_leafrefs.specs.InnerSteps.{left_steps};
ghost use Rattle.yv_data_faults.specs.{InnerPath.{first_if, numbers, rest_if, places_of, way_names}, Part.{part_of, steps_of}};

use std::alloc::{AllocError, Global};
use std::marker::Model;
use std::rc::Rc;
use yv_data_leafrefs::{MemberName, Step, ValuePath, ValueSteps};
use yv_nodes::NodeId;
use yv_schema_tables::Schema;

/// The way to a node, or to a member that names none: what its steps are called. The ways below one
/// share it.
#[derive(Drop)]
pub(crate) enum Way {
    /// That of the document.
    Start,
    /// Behind another, which ends in an entry or an item, or doesn't: a step of this name.
    After(Rc<Way>, bool, Step),
}

/// The numbers of the entries around a place. Those in one entry share them.
#[derive(Drop)]
pub(crate) enum Entries {
    /// There are none.
    Outside,
    /// In others, an entry of this number; and how many it makes.
    Within(Rc<Entries>, u64, u64),
}

// A path as it is kept.
#[derive(Drop)]
enum KeptWay {
    // By its way, the entries around its place, and the number of that, where it is an entry or an
    // item itself.
    Shared(Rc<Way>, Rc<Entries>, Option<u64>),
    // That of a value.
    Value(ValuePath),
}

/// The path to a place of a document from the top. Paths share what is around their places, so that
/// one takes as much memory where it is long as where it is short.
#[derive(Drop)]
pub struct Path {
    kept: KeptWay,
    node: NodeId,
}

impl Model for Path {
    ghost use Rattle.std.specs.Prelude.{List};
    ghost use Rattle.yv_data_leafrefs.specs.Place.{Place};
    ghost use Rattle.yv_data_faults.specs.InnerPath.{kept_steps};

    ghost Value = { List Place };

    ghost view = { λ p. kept_steps p.kept };
}

impl Path {
    /// The path of a way, in these entries, to an entry or an item of this number. It is about this
    /// schema node.
    pub(crate) fn of_way(
        node: NodeId,
        way: Rc<Way>,
        entries: Rc<Entries>,
        item: Option<u64>,
    ) -> Path
        ensures { result ≡ places_of (way_names way.value) (numbers entries.value) item }
    {
        Path {
            kept: KeptWay::Shared(way, entries, item),
            node,
        }
    }

    /// The path to a value.
    pub fn to_value(path: ValuePath) -> Path
        ensures { result ≡ path }
    {
        let node = path.node().unwrap_or(Schema::ROOT);
        Path {
            kept: KeptWay::Value(path),
            node,
        }
    }

    /// The schema node at the end of the path. It is the node around a member that names none, and
    /// the root for the whole document.
    pub fn node(&self) -> NodeId {
        self.node
    }

    /// The path's steps.
    pub fn steps(&self) -> PathSteps<'_>
        ensures { result ≡ self.now }
    {
        match &self.kept {
            KeptWay::Shared(way, entries, item) => PathSteps {
                left: Left::Shared(way.as_ref(), entries.as_ref(), *item),
            },
            KeptWay::Value(path) => PathSteps {
                left: Left::Value(path.steps()),
            },
        }
    }
}

// Steps that are left of a path.
#[derive(Clone, Copy)]
enum Left<'p> {
    Shared(&'p Way, &'p Entries, Option<u64>),
    Value(ValueSteps<'p>),
}

/// A part of a path, one step: what the member is called, and its number from 1 where it is an
/// entry or an item of an array.
#[derive(Clone, Copy)]
pub struct Part<'p> {
    /// The name of the member.
    pub name: MemberName<'p>,
    /// The number from 1 of the entry or item.
    pub item: Option<u64>,
}

impl Part<'_> {
    /// What the member is called, with its module in front where it is written with it; a choice,
    /// which no member writes, in parentheses. The text is made anew.
    pub fn member(&self, alloc: Global) -> Result<String, AllocError>
        ensures { IfOk result (λ text. string_bytes text ≡ (part_of self.now).member) }
    {
        let name = qualified_name(alloc, &self.name)?;
        if !self.name.is_choice {
            return Ok(name);
        }
        let mut text = String::from_str(alloc, "(")?;
        text.push_str(name.as_str())?;
        text.push(')')?;
        Ok(text)
    }
}

/// Steps of a path, from the top on. Contracts see them as the places on it.
#[derive(Drop)]
pub struct PathSteps<'p> {
    left: Left<'p>,
}

impl<'p> Model for PathSteps<'p> {
    ghost use Rattle.std.specs.Prelude.{List};
    ghost use Rattle.yv_data_leafrefs.specs.Place.{Place};
    ghost use Rattle.yv_data_faults.specs.InnerPath.{left_steps};

    ghost Value = { List Place };

    ghost view = { λ s. left_steps s.left };
}

impl<'p> PathSteps<'p> {
    /// Whether there are no steps.
    #[tactic(auto, using(crate::proofs::WaySpelling::some_spelled))]
    pub fn is_empty(&self) -> bool
        ensures { result ≡ (length self.now == 0) }
    {
        match self.left {
            Left::Shared(way, _, _) => matches!(way, Way::Start),
            Left::Value(steps) => steps.split_last().is_none(),
        }
    }

    /// The last step, and those before it; None where there are no steps.
    pub fn split_last(&self) -> Option<(Part<'p>, PathSteps<'p>)>
        ensures { MatchOption result (self.now ≡ []) (λ r. self.now ≡ r.1 ++ part_of r.0 ∷ []) }
    {
        match self.left {
            Left::Shared(way, entries, item) => last_of(way, entries, item),
            Left::Value(steps) => last_among(&steps),
        }
    }

    /// All the steps.
    pub fn to_vec(&self, alloc: Global) -> Result<Vec<Part<'p>>, AllocError>
        ensures { IfOk result (λ v. steps_of v.items ≡ self.now) }
    {
        match self.split_last() {
            None => Ok(Vec::new(alloc)),
            Some((last, before)) => {
                let mut steps = before.to_vec(alloc)?;
                steps.push(last)?;
                Ok(steps)
            }
        }
    }
}

// A name, after that of its module where it is written with it.
fn qualified_name(alloc: Global, name: &MemberName<'_>) -> Result<String, AllocError>
    ensures { IfOk result
        (λ text. string_bytes text
        ≡ behind (option_map (λ m. m.now) name.now.module) name.now.name.now) }
{
    let mut text = String::new(alloc);
    if let Some(module) = name.module {
        text.push_str(module)?;
        text.push(':')?;
    }
    text.push_str(name.name)?;
    Ok(text)
}

// The last step of a way, in these entries, to an entry or an item of this number; and those before
// it.
fn last_of<'p>(
    way: &'p Way,
    entries: &'p Entries,
    item: Option<u64>,
) -> Option<(Part<'p>, PathSteps<'p>)>
    ensures { MatchOption result (places_of (way_names way.now) (numbers entries.now) item ≡ [])
        (λ r. places_of (way_names way.now) (numbers entries.now) item ≡ r.1 ++ part_of r.0 ∷ []) }
{
    match way {
        Way::Start => None,
        Way::After(before, is_entry, step) => {
            let last = Part {
                name: step.parts(),
                item,
            };
            Some((last, around(before.as_ref(), *is_entry, entries)))
        }
    }
}

// The steps of a way, in these entries, the innermost of which is at its end where that is an
// entry.
fn around<'p>(way: &'p Way, is_entry: bool, entries: &'p Entries) -> PathSteps<'p>
    ensures { result
        ≡ places_of (way_names way.now) (rest_if is_entry (numbers entries.now))
        (first_if is_entry (numbers entries.now)) }
{
    match entries {
        Entries::Within(outer, number, _) if is_entry => PathSteps {
            left: Left::Shared(way, outer.as_ref(), Some(*number)),
        },
        _ => PathSteps {
            left: Left::Shared(way, entries, None),
        },
    }
}

fn last_among<'p>(steps: &ValueSteps<'p>) -> Option<(Part<'p>, PathSteps<'p>)>
    ensures { MatchOption result (left_steps steps.now ≡ [])
        (λ r. left_steps steps.now ≡ r.1 ++ part_of r.0 ∷ []) }
{
    let last = steps.split_last()?;
    let part = Part {
        name: last.name,
        item: last.item,
    };
    let before = PathSteps {
        left: Left::Value(last.before),
    };
    Some((part, before))
}
