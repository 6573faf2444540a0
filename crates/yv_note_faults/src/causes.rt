//! Which faults of a document have the same cause: the same kind at the same node of the schema.
ghost use Rattle.std.specs.Prelude.{◌≡◌, ◌<◌, length, IfOk, OnOk};

use std::alloc::{AllocError, Global};
use std::collections::BTreeMap;
use yv_data_faults::{Fault, FaultKind};

/// The causes of faults, each by the first fault that it has.
#[derive(Drop)]
pub(crate) struct Causes {
    /// For each fault, whether it leads: it is the first of its cause.
    pub(crate) leads: Vec<bool>,
    // How many faults each of these causes has besides, in their order.
    likes: Vec<u64>,
    // Which of these it is, by its number.
    places: BTreeMap<u64, usize>,
}

impl Causes {
    /// The causes of faults; of many causes the first ones, so many of them.
    pub(crate) fn find(alloc: Global, faults: &[Fault], most: usize) -> Result<Causes, AllocError>
        ensures { IfOk result (λ causes. length causes.leads.items ≡ length faults.now) }
    {
        let mut causes = Causes {
            leads: Vec::new(alloc),
            likes: Vec::new(alloc),
            places: BTreeMap::new(alloc),
        };
        for fault in faults {
            let leads = causes.count(fault, most)?;
            causes.leads.push(leads)?;
        }
        Ok(causes)
    }

    // Counts a fault, and answers whether it leads.
    fn count(&mut self, fault: &Fault, most: usize) -> Result<bool, AllocError>
        ensures { OnOk result (self.new.leads ≡ self.old.leads) }
    {
        let number = number_of(fault);
        if let Some(place) = self.places.get(&number) {
            if let Some(likes) = self.likes.get_mut(*place) {
                *likes = likes.saturating_add(1);
            }
            return Ok(false);
        }
        if self.likes.len() >= most {
            return Ok(false);
        }
        self.places.insert(number, self.likes.len())?;
        self.likes.push(0)?;
        Ok(true)
    }

    /// How many faults there are besides of the cause of this place, from 0.
    pub(crate) fn likes(&self, place: usize) -> u64 {
        self.likes.get(place).copied().unwrap_or(0)
    }
}

// The number of a fault's cause.
fn number_of(fault: &Fault) -> u64 {
    let node = u64::from(fault.path.node().number());
    node * 16 + u64::from(kind_number(fault.kind))
}

fn kind_number(kind: FaultKind) -> u8
    ensures { result < 16 }
{
    match kind {
        FaultKind::Unknown => 0,
        FaultKind::Shape => 1,
        FaultKind::Value => 2,
        FaultKind::MissingKey => 3,
        FaultKind::Duplicate => 4,
        FaultKind::Unique => 5,
        FaultKind::Mandatory => 6,
        FaultKind::Min => 7,
        FaultKind::Max => 8,
        FaultKind::Choice => 9,
        FaultKind::Reference => 10,
        FaultKind::State => 11,
    }
}
