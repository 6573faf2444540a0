//! The modules of a schema.
ghost use Rattle.std.specs.Prelude.{◌≡◌, IfOk};
ghost use Rattle.yv_tree.specs.{Lines.{prefix_in}, InnerModules.{ArePlaces}};

use std::alloc::{AllocError, Global};
use std::collections::BTreeMap;
use std::marker::Model;
use yv_schema_tables::Module;

/// Modules, found by the numbers of their files: a line compares no names, since these may be as
/// long as a file. Contracts see the list of modules.
#[derive(Drop)]
pub(crate) struct Modules<'a> {
    modules: &'a [Module],
    places: BTreeMap<u32, usize>,
}

impl<'a> Model for Modules<'a> {
    ghost use Rattle.std.specs.Prelude.{List};
    ghost use Rattle.yv_nodes.specs.Rows.{Module as Named};
    ghost use Rattle.yv_tree.specs.InnerModules.{ArePlaces};

    ghost Value = { List Named };

    ghost view = { λ m. m.modules.now };

    ghost invariant = { λ m. ArePlaces m.modules.now m.places };
}

impl<'a> Modules<'a> {
    /// These modules.
    pub(crate) fn of(alloc: Global, modules: &'a [Module]) -> Result<Modules<'a>, AllocError>
        ensures { IfOk result (λ found. found ≡ modules.now) }
    {
        let places = places_of(alloc, modules)?;
        Ok(Modules { modules, places })
    }

    /// The prefix of the module of this number, in its own file. It is empty where there is no such
    /// module.
    pub(crate) fn prefix(&self, module_file: u32) -> &str
        ensures { result.now ≡ prefix_in self.now module_file }
    {
        match self.places.get(&module_file).copied() {
            Some(place) => {
                let found = &self.modules[place];
                found.prefix.as_str()
            }
            None => "",
        }
    }
}

// The place of the first of these modules of each number.
fn places_of(alloc: Global, modules: &[Module]) -> Result<BTreeMap<u32, usize>, AllocError>
    ensures { IfOk result (ArePlaces modules.now) }
{
    let mut places = BTreeMap::new(alloc);
    let mut left = modules.len();
    while left > 0 {
        left -= 1;
        let first = &modules[left];
        places.insert(first.module_file, left)?;
    }
    Ok(places)
}
