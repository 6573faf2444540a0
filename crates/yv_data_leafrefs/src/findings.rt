//! What a walk finds of references and of their targets.
ghost use Rattle.std.specs.Prelude.{◌≡◌, ◌<◌, [], ◌∷◌, ◌++◌, length, Some, IfOk, OnErr, OnOk};
ghost use Rattle.yv_data_leafrefs.specs.Findings.{end_object, Finds, kept_if, none_found, only_kept, only_notes, only_used, open_object, use_if, value_notes};
ghost use Rattle.yv_nodes.specs.Link.{is_target, link_in};

use crate::targets::Targets;
use crate::uses::Uses;
use std::alloc::{AllocError, Global};
use std::marker::Model;
use yv_nodes::{Links, NodeId};
use yv_values::Value;

/// An object that was entered. A document may have millions, so whether there is a number is kept
/// beside the node, where it takes no room.
#[derive(Drop)]
pub(crate) struct Position {
    /// The number of the object around it.
    pub(crate) parent: u64,
    /// The container, or the list that it is an entry of.
    pub(crate) node: NodeId,
    // Whether it is an entry, and then its number from 1.
    is_entry: bool,
    number: u64,
    /// The number of the last object in it, once it was left.
    pub(crate) last: u64,
}

impl Model for Position {
    ghost use Rattle.yv_data_leafrefs.specs.Findings as findings;
    ghost use Rattle.yv_data_leafrefs.specs.InnerNumbers.{number_if};

    ghost Value = { findings.Position };

    ghost view = { λ p. record { parent = p.parent; node = p.node.0; item = number_if p.is_entry p.number; last = p.last } };
}

impl Position {
    // An object that is entered.
    fn open(parent: u64, node: NodeId, item: Option<u64>) -> Position
        ensures { result ≡ open_object parent node.0 item }
    {
        Position {
            parent,
            node,
            is_entry: item.is_some(),
            number: item.unwrap_or(0),
            last: 0,
        }
    }

    /// Its number from 1, where it is an entry.
    pub(crate) fn item(&self) -> Option<u64>
        ensures { result ≡ self.now.item }
    {
        if self.is_entry {
            Some(self.number)
        } else {
            None
        }
    }
}

/// A value of a leafref that was read.
#[derive(Drop)]
pub(crate) struct Note {
    /// The number of the object that it is in.
    pub(crate) position: u64,
    /// The leafref.
    pub(crate) node: NodeId,
    /// Its number from 1, where it is an item of a leaf-list.
    pub(crate) item: Option<u64>,
    pub(crate) value: Value,
}

impl Model for Note {
    ghost use Rattle.yv_data_leafrefs.specs.Findings.{LeafrefValue};

    ghost Value = { LeafrefValue };

    ghost view = { λ n. record { position = n.position; node = n.node.0; item = n.item; value = n.value } };
}

/// The findings of a walk over a document: the objects that it enters, with numbers from 0 on in
/// the order in which it enters them, the document first; the values of targets, and where their
/// defaults are in use; and the values of leafrefs. Beside values it keeps a few numbers of each,
/// and no path. What fails for want of memory leaves it as it was.
#[derive(Drop)]
pub struct Findings {
    pub(crate) alloc: Global,
    pub(crate) positions: Vec<Position>,
    pub(crate) targets: Targets,
    pub(crate) uses: Uses,
    pub(crate) notes: Vec<Note>,
}

impl Model for Findings {
    ghost use Rattle.yv_data_leafrefs.specs.Findings.{Findings};

    ghost Value = { Findings };

    ghost view = { λ f. record { indexes = f.targets; uses = f.uses; positions = f.positions.items; notes = f.notes.items } };
}

impl Findings {
    /// Nothing.
    pub fn new(alloc: Global) -> Findings
        ensures { result ≡ none_found }
    {
        Findings {
            alloc,
            positions: Vec::new(alloc),
            targets: Targets::new(alloc),
            uses: Uses::new(alloc),
            notes: Vec::new(alloc),
        }
    }

    /// Enters an object of this container or list, which is in the object with the number `parent`;
    /// with its number from 1, where it is a list entry. It answers the number of the object. The
    /// document is entered first, with the root as its node and 0 as its parent.
    pub fn enter(&mut self, parent: u64, node: NodeId, item: Option<u64>) -> Result<u64, AllocError>
        // The object has the next number, and comes after those that were entered.
        ensures number { IfOk result (λ n. n ≡ length self.old.positions) }
        // The object is noted after the others.
        ensures positions { OnOk result
            (self.new.positions ≡ self.old.positions ++ open_object parent node.0 item ∷ []) }
        // The values stay.
        ensures indexes { self.new.indexes ≡ self.old.indexes }
        // The defaults in use stay.
        ensures uses { self.new.uses ≡ self.old.uses }
        // The values of leafrefs stay.
        ensures notes { self.new.notes ≡ self.old.notes }
        // Where memory runs out, all is as before.
        ensures same { OnErr result (self.new ≡ self.old) }
    {
        let number = self.positions.len() as u64;
        self.positions.push(Position::open(parent, node, item))?;
        Ok(number)
    }

    /// Leaves the object with this number: the last object that was entered is the last one in it.
    pub fn leave(&mut self, number: u64)
        // The object was entered.
        requires { number < length self.old.positions }
        // The last object that was entered is the last in this one.
        ensures positions { self.new.positions ≡ end_object self.old.positions number }
        // The values stay.
        ensures indexes { self.new.indexes ≡ self.old.indexes }
        // The defaults in use stay.
        ensures uses { self.new.uses ≡ self.old.uses }
        // The values of leafrefs stay.
        ensures notes { self.new.notes ≡ self.old.notes }
    {
        let last = self.positions.len() as u64 - 1;
        self.positions[number as usize].last = last;
    }

    /// Keeps a value of a node in the object with this number, where the node is a target.
    pub fn keep(
        &mut self,
        links: &Links,
        node: NodeId,
        value: &Value,
        position: u64,
    ) -> Result<(), AllocError>
        // The value is kept for the object if the node is a target, and nothing else.
        ensures keeps { OnOk result
            (Finds self.old self.new
            (only_kept (kept_if (is_target links.now node.0) node.0 position (Some value.now)))) }
        // Where memory runs out, all is as before.
        ensures same { OnErr result (self.new ≡ self.old) }
    {
        if !links.is_target(node) {
            return Ok(());
        }
        self.targets.keep(node, value.copy(self.alloc)?, position)
    }

    /// Keeps that the defaults of a node are in use in the object with this number, all of them
    /// together, where the node is a target. It copies no value: the defaults are read in the
    /// schema where a reference is looked up.
    pub fn use_defaults(
        &mut self,
        links: &Links,
        node: NodeId,
        position: u64,
    ) -> Result<(), AllocError>
        // That all defaults of the node are in use in the object is kept if the node is a target,
        // and nothing else.
        ensures uses { OnOk result
            (Finds self.old self.new
            (only_used (use_if (is_target links.now node.0) node.0 position))) }
        // Where memory runs out, all is as before.
        ensures same { OnErr result (self.new ≡ self.old) }
    {
        if !links.is_target(node) {
            return Ok(());
        }
        self.uses.add(self.alloc, node, position)
    }

    /// Notes a value of a leafref in the object with this number, where the leafref has a link;
    /// with its number from 1, where it is an item of a leaf-list.
    pub fn note(
        &mut self,
        links: &Links,
        node: NodeId,
        item: Option<u64>,
        value: &Value,
        position: u64,
    ) -> Result<(), AllocError>
        // The value is noted if the leafref has a link, and nothing else.
        ensures notes { OnOk result
            (Finds self.old self.new
            (only_notes
            (value_notes (link_in links.now node.0) position node.0 item (Some value.now)))) }
        // Where memory runs out, all is as before.
        ensures same { OnErr result (self.new ≡ self.old) }
    {
        if links.link(node).is_none() {
            return Ok(());
        }
        let value = value.copy(self.alloc)?;
        self.notes.push(Note {
            position,
            node,
            item,
            value,
        })?;
        Ok(())
    }
}
