//! Paths to values, which share what is around the values.
ghost use Rattle.std.specs.{Prelude.{◌≡◌, ◌∷◌, [], ◌++◌, IfOk, MatchOption, map}, Option.{option_map}};
ghost use Rattle.yv_data_leafrefs.specs.{InnerLocations.{numbered_path, path_in, value_path}, InnerSteps.{left_steps}, Place.{member_text}};

use crate::place::{MemberName, Step};
use std::alloc::{AllocError, Global};
use std::marker::Model;
use std::rc::Rc;
use yv_nodes::NodeId;

/// Where something is: the number of the object around it, its schema node, what its member is
/// called, and its number from 1 where it is an entry or an item.
#[derive(Drop)]
pub(crate) struct Location {
    pub(crate) outer: u64,
    pub(crate) node: NodeId,
    pub(crate) name: Rc<Step>,
    pub(crate) item: Option<u64>,
}

impl Model for Location {
    ghost use Rattle.yv_data_leafrefs.specs.InnerLocations as locations;

    ghost Value = { locations.Location };

    ghost view = { λ l. record { outer = l.outer; place = record { member = l.name.value.member; item = l.item } } };
}

/// Where objects are, by their numbers, and where values are in them.
#[derive(Drop)]
pub(crate) struct Locations {
    pub(crate) objects: Vec<Location>,
    pub(crate) values: Vec<Location>,
}

/// The path to a value of a document from the top. All such paths share where the objects are, so
/// that one takes as much memory where it is long as where it is short.
#[derive(Drop)]
pub struct ValuePath {
    locations: Rc<Locations>,
    number: u64,
}

impl Model for ValuePath {
    ghost use Rattle.std.specs.Prelude.{List};
    ghost use Rattle.yv_data_leafrefs.specs.{InnerLocations.{numbered_path}, Place.{Place}};

    ghost Value = { List Place };

    ghost view = { λ p. numbered_path p.locations.value.objects.items p.locations.value.values.items p.number };
}

impl ValuePath {
    /// The path's steps.
    pub fn steps(&self) -> ValueSteps<'_>
        ensures { left_steps result ≡ self.now }
    {
        ValueSteps {
            locations: self.locations.as_ref(),
            end: End::Value(self.number),
        }
    }

    /// The schema node of the value.
    pub fn node(&self) -> Option<NodeId> {
        let location = self.locations.values.get(self.number as usize)?;
        Some(location.node)
    }
}

// Where steps end.
#[derive(Clone, Copy)]
enum End {
    // At the value of this number.
    Value(u64),
    // At the object of this number, in which at most so many others are.
    Object(u64, u64),
}

/// Steps of the path to a value, from the top on.
#[derive(Clone, Copy)]
pub struct ValueSteps<'p> {
    locations: &'p Locations,
    end: End,
}

/// The last step of a path, and those before it.
#[derive(Clone, Copy)]
pub struct LastStep<'p> {
    /// What the member is called.
    pub name: MemberName<'p>,
    /// The number from 1 of the entry or item.
    pub item: Option<u64>,
    /// The steps before it.
    pub before: ValueSteps<'p>,
}

impl<'p> ValueSteps<'p> {
    /// The last step, and those before it; None where there are no steps.
    pub fn split_last(&self) -> Option<LastStep<'p>>
        ensures { MatchOption result (left_steps self.now ≡ [])
            (λ last. left_steps self.now ≡ left_steps last.before
            ++ record {
              member = member_text last.name.is_choice
                  (option_map (λ m. m.now) last.name.module) last.name.name.now;
              item = last.item;
            }
            ∷ []) }
    {
        match self.end {
            End::Value(number) => last_of_value(self.locations, number),
            End::Object(most, number) => last_of_object(self.locations, most, number),
        }
    }
}

fn last_of_value<'p>(locations: &'p Locations, number: u64) -> Option<LastStep<'p>>
    ensures { MatchOption result
        (numbered_path locations.now.objects.items locations.now.values.items number ≡ [])
        (λ last. numbered_path locations.now.objects.items locations.now.values.items number
        ≡ left_steps last.before
        ++ record {
          member = member_text last.name.is_choice
              (option_map (λ m. m.now) last.name.module) last.name.name.now;
          item = last.item;
        } ∷ []) }
{
    match locations.values.get(number as usize) {
        None => None,
        Some(value) => Some(last_at(locations, value, value.outer)),
    }
}

fn last_of_object<'p>(locations: &'p Locations, most: u64, number: u64) -> Option<LastStep<'p>>
    ensures { MatchOption result (path_in locations.now.objects.items most number ≡ [])
        (λ last. path_in locations.now.objects.items most number ≡ left_steps last.before
        ++ record {
          member = member_text last.name.is_choice
              (option_map (λ m. m.now) last.name.module) last.name.name.now;
          item = last.item;
        } ∷ []) }
{
    if most == 0 || number == 0 {
        return None;
    }
    match locations.objects.get(number as usize) {
        None => None,
        Some(object) => Some(last_at(locations, object, most - 1)),
    }
}

// The step of a location, in an object in which at most so many others are.
fn last_at<'p>(locations: &'p Locations, location: &'p Location, most: u64) -> LastStep<'p>
    ensures before { left_steps result.before
        ≡ path_in locations.now.objects.items most location.now.outer }
    ensures step { location.now.place
        ≡ record {
          member = member_text result.name.is_choice
              (option_map (λ m. m.now) result.name.module) result.name.name.now;
          item = result.item;
        } }
{
    LastStep {
        name: location.name.parts(),
        item: location.item,
        before: ValueSteps {
            locations,
            end: End::Object(most, location.outer),
        },
    }
}

/// The paths to all values of these locations.
pub(crate) fn share(alloc: Global, locations: Locations) -> Result<Vec<ValuePath>, AllocError>
    ensures { IfOk result
        (λ paths. paths.items ≡ map (value_path locations.objects.items) locations.values.items) }
{
    let many = locations.values.len() as u64;
    let shared = Rc::new(alloc, locations)?;
    let mut paths = Vec::new(alloc);
    for number in 0..many {
        paths.push(ValuePath {
            locations: shared.clone()?,
            number,
        })?;
    }
    Ok(paths)
}
