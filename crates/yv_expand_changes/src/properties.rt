//! What is said of items.
ghost use Rattle.std.specs.Prelude.{◌≡◌, ◌++◌, List, ℕ, map, IfOk};
ghost use Rattle.yv_link_scopes.specs.Views.{lent_in};
ghost use Rattle.yv_expand_augments.specs.MandatoryNodes.{told_in};
ghost use Rattle.yv_expand_refines.specs.Changes.{each};
ghost use Rattle.yv_node_properties.specs.{Marks.{is_mandatory, stated_of}, Properties.{last_said, said_at, statements_of_origin}};
ghost use Rattle.yv_expand_changes.specs.{Properties.{said_of, said_of_all, told_of}, InnerProperties.{AreSaid, said_by_refines}};

use crate::sequences::known_of;
use std::alloc::{AllocError, Global};
use yv_expand::Item;
use yv_expand_augments::RefinedMarks;
use yv_expand_refines::Changes;
use yv_expand_statements::Origin;
use yv_link_scopes::Rows;
use yv_node_properties::StatedProperties;

// What a numbered statement says; nothing where there is none.
fn said_at(rows: &Rows<'_, '_>, number: usize) -> StatedProperties
    ensures { result ≡ stated_of (said_at (lent_in rows.now) number) }
{
    match rows.statement(number) {
        Some(statement) => StatedProperties::read(statement),
        None => StatedProperties::nothing(),
    }
}

// What each numbered statement says: a long block is searched once, however many items its
// statement gives.
fn all_said(alloc: Global, rows: &Rows<'_, '_>) -> Result<Vec<StatedProperties>, AllocError>
    ensures { IfOk result (λ each. AreSaid (lent_in rows.now) each.items) }
{
    let mut each = Vec::new(alloc);
    for number in 0..rows.entries().len() {
        each.push(said_at(rows, number))?;
    }
    Ok(each)
}

// What a numbered statement says, where these were read.
fn known_at(rows: &Rows<'_, '_>, each: &[StatedProperties], number: usize) -> StatedProperties
    requires { AreSaid (lent_in rows.now) each.now }
    ensures { result ≡ stated_of (said_at (lent_in rows.now) number) }
{
    match each.get(number) {
        Some(said) => *said,
        None => said_at(rows, number),
    }
}

// What the last of these numbered statements says that says something.
fn last_said(rows: &Rows<'_, '_>, each: &[StatedProperties], numbers: &[usize]) -> StatedProperties
    requires { AreSaid (lent_in rows.now) each.now }
    ensures { result ≡ stated_of (last_said (lent_in rows.now) numbers.now) }
{
    yv_node_properties::laws::the_last_statement_stands();
    let mut said = StatedProperties::nothing();
    for number in numbers {
        said = known_at(rows, each, *number).over(said);
    }
    said
}

// What each sequence of refines says, by what the sequence before it and the run after say.
fn sequences_said(
    alloc: Global,
    rows: &Rows<'_, '_>,
    each: &[StatedProperties],
    changes: &Changes,
) -> Result<Vec<StatedProperties>, AllocError>
    requires { AreSaid (lent_in rows.now) each.now }
    ensures { IfOk result
        (λ said. said.items ≡ map (said_by_refines (lent_in rows.now)) changes.now.sequences) }
{
    yv_node_properties::laws::the_last_statement_stands();
    let mut said = Vec::new(alloc);
    for sequence in 0..changes.count() {
        let link = changes.link(sequence);
        let front = known_of(&said, link.front, StatedProperties::nothing());
        let run = last_said(rows, each, link.run);
        said.push(run.over(front))?;
    }
    Ok(said)
}

// What is said of an item whose refines say this.
fn said_of(
    rows: &Rows<'_, '_>,
    each: &[StatedProperties],
    item: &Item,
    later: StatedProperties,
) -> StatedProperties
    requires { AreSaid (lent_in rows.now) each.now }
    ensures { (changes : List ℕ) → later ≡ said_by_refines (lent_in rows.now) changes → result
        ≡ said_of (lent_in rows.now) item.now changes }
{
    yv_node_properties::laws::the_last_statement_stands();
    match item.origin {
        Origin::Statement(number) => later.over(known_at(rows, each, number)),
        _ => later,
    }
}

/// What is said of each item, as refines change it. Each statement is read once, and each sequence
/// of refines is gone through once.
pub fn said_of_all(
    alloc: Global,
    rows: &Rows<'_, '_>,
    items: &[Item],
    changes: &Changes,
) -> Result<Vec<StatedProperties>, AllocError>
    ensures { IfOk result
        (λ said. said.items ≡ said_of_all (lent_in rows.now) items.now (each changes.now)) }
{
    yv_node_properties::laws::the_last_statement_stands();
    let each = all_said(alloc, rows)?;
    let known = sequences_said(alloc, rows, &each, changes)?;
    let mut said = Vec::with_capacity(alloc, items.len())?;
    for (number, item) in items.iter().enumerate() {
        let later = known_of(
            &known,
            changes.sequence(number),
            StatedProperties::nothing(),
        );
        said.push(said_of(rows, &each, item, later))?;
    }
    Ok(said)
}

/// Of each item whether it is mandatory, has a presence, and states its configuration.
#[derive(Drop)]
pub struct ItemProperties {
    pub mandatory: Vec<bool>,
    pub presence: Vec<bool>,
    pub config: Vec<Option<bool>>,
}

impl ItemProperties {
    /// What is known of items, by what their statements say.
    pub fn of(alloc: Global, said: &[StatedProperties]) -> Result<ItemProperties, AllocError>
        // For each item whether it is mandatory by itself.
        ensures mandatory { IfOk result (λ properties. properties.mandatory.items
            ≡ map is_mandatory said.now) }
        // For each whether it has a presence.
        ensures presence { IfOk result
            (λ properties. properties.presence.items ≡ map (λ
            (s : StatedProperties). s.presence) said.now) }
        // For each what it states of its configuration.
        ensures config { IfOk result
            (λ properties. properties.config.items ≡ map (λ
            (s : StatedProperties). s.config) said.now) }
    {
        let mut properties = ItemProperties {
            mandatory: Vec::with_capacity(alloc, said.len())?,
            presence: Vec::with_capacity(alloc, said.len())?,
            config: Vec::with_capacity(alloc, said.len())?,
        };
        for stated in said {
            properties.mandatory.push(stated.is_mandatory())?;
            properties.presence.push(stated.presence)?;
            properties.config.push(stated.config)?;
        }
        Ok(properties)
    }

    /// The same as marks that are lent.
    pub fn marks(&self) -> RefinedMarks<'_>
        ensures { (said : List StatedProperties) → self.now.mandatory.items ≡ map is_mandatory said
            → self.now.presence.items ≡ map (λ (s : StatedProperties). s.presence) said
            → self.now.config.items ≡ map (λ (s : StatedProperties). s.config) said
            → told_in result ≡ told_of said }
    {
        RefinedMarks {
            mandatory: &self.mandatory,
            presence: &self.presence,
            config: &self.config,
        }
    }
}
