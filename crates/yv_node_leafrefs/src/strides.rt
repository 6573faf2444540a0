//! The steps of paths, with the numbers of their names.
ghost use Rattle.std.specs.Prelude.{◌≡◌, map, IfOk};
ghost use Rattle.yv_node_leafrefs.specs.InnerNames.{told_of, stride_of};

use crate::leafref::Leafref;
use crate::names::NameTable;
use std::alloc::{AllocError, Global};
use yv_node_content::PathStep;

/// A step of a path: the number of the file of the module that its prefix identifies, none without
/// one, and the number of its name.
#[derive(Clone, Copy)]
pub(crate) struct Stride {
    pub(crate) module_file: Option<u32>,
    pub(crate) name: u32,
}

// A step with the number of its name, if a node has that.
fn numbered_step<'n>(names: &NameTable<'n>, step: &'n Option<PathStep>) -> Option<Stride>
    ensures { result ≡ stride_of (told_of names.now) step.now }
{
    match step {
        Some(step) => {
            let name = names.get(step.name())?;
            Some(Stride {
                module_file: step.module_file(),
                name,
            })
        }
        None => None,
    }
}

// Those of a path.
fn strides_of<'n>(
    alloc: Global,
    names: &NameTable<'n>,
    steps: &'n [Option<PathStep>],
) -> Result<Vec<Option<Stride>>, AllocError>
    ensures { IfOk result
        (λ strides. strides.items ≡ map (stride_of (told_of names.now)) steps.now) }
{
    let mut strides = Vec::new(alloc);
    for step in steps {
        strides.push(numbered_step(names, step))?;
    }
    Ok(strides)
}

/// Those of the paths of all leafrefs.
pub(crate) fn all_strides<'n>(
    alloc: Global,
    names: &NameTable<'n>,
    leafrefs: &'n [Leafref],
) -> Result<Vec<Vec<Option<Stride>>>, AllocError>
    ensures { IfOk result (λ all. map (λ strides. strides.items) all.items
        ≡ map (λ ref. map (stride_of (told_of names.now)) ref.steps) leafrefs.now) }
{
    let mut all = Vec::new(alloc);
    for leafref in leafrefs {
        let strides = strides_of(alloc, names, leafref.steps())?;
        all.push(strides)?;
    }
    Ok(all)
}
