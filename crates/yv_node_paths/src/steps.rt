//! The steps of paths.
ghost use Rattle.std.specs.{Prelude.{◌≡◌, Some, None, map, IfOk}, Option.{option_map}};
ghost use Rattle.yv_link_scopes.specs.Files.{Files};
ghost use Rattle.yv_node_paths.specs.{Steps.{path_of, step_of, texts_of}, InnerPrefixes.{IsPrefixTable}};

use std::alloc::{AllocError, Global};
use std::rc::RcStr;
use yv_link_scopes::{PrefixTable, local, prefix_of};
use yv_node_content::PathStep;

// A step without a prefix.
fn bare_step(alloc: Global, name: &str) -> Result<PathStep, AllocError>
    ensures { IfOk result (λ step. step ≡ record { module_file = None; name = name.now }) }
{
    Ok(PathStep {
        module_file: None,
        name: RcStr::from_str(alloc, name)?,
    })
}

// A step whose prefix refers to a module, if it does.
fn step_in(
    alloc: Global,
    module_file: Option<u32>,
    name: &str,
) -> Result<Option<PathStep>, AllocError>
    ensures { IfOk result
        (λ step. step
        ≡ option_map (λ number. record { module_file = Some number; name = name.now })
        module_file) }
{
    match module_file {
        Some(module_file) => Ok(Some(PathStep {
            module_file: Some(module_file),
            name: RcStr::from_str(alloc, name)?,
        })),
        None => Ok(None),
    }
}

/// The text of each step of a path.
pub(crate) fn texts_of(alloc: Global, text: &str) -> Result<Vec<&str>, AllocError>
    ensures { IfOk result (λ texts. map (λ t. t.now) texts.items ≡ texts_of text.now) }
{
    text.split('/').collect(alloc)
}

/// Reads paths as they are written in a file.
#[derive(Clone, Copy)]
pub(crate) struct PathReader<'p, 'a> {
    pub(crate) alloc: Global,
    pub(crate) module_files: &'p PrefixTable<'a>,
    pub(crate) file: usize,
}

impl<'a> PathReader<'_, 'a> {
    /// The step that is written so.
    pub(crate) fn step(&self, text: &'a str) -> Result<Option<PathStep>, AllocError>
        ensures { (files : Files) → IsPrefixTable files self.now.module_files.now
            → IfOk result (λ step. step ≡ step_of files self.now.file text.now) }
    {
        let name = local(text);
        match prefix_of(text) {
            Some(prefix) => step_in(self.alloc, self.module_files.get(self.file, prefix), name),
            None => Ok(Some(bare_step(self.alloc, name)?)),
        }
    }

    /// The steps that are written so.
    pub(crate) fn steps(&self, texts: &[&'a str]) -> Result<Vec<Option<PathStep>>, AllocError>
        ensures { (files : Files) → IsPrefixTable files self.now.module_files.now
            → IfOk result
            (λ steps. steps.items
            ≡ map (step_of files self.now.file) (map (λ t. t.now) texts.now)) }
    {
        let mut steps = Vec::new(self.alloc);
        for text in texts {
            steps.push(self.step(text)?)?;
        }
        Ok(steps)
    }

    /// The path that is written so.
    pub(crate) fn path(&self, text: &'a str) -> Result<Vec<Option<PathStep>>, AllocError>
        ensures { (files : Files) → IsPrefixTable files self.now.module_files.now
            → IfOk result (λ path. path.items ≡ path_of files self.now.file text.now) }
    {
        self.steps(&texts_of(self.alloc, text)?)
    }
}
