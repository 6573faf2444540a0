//! The modules of files by number.
ghost use Rattle.std.specs.{Prelude.{◌≡◌, ◌||◌, ℕ, List, false, map, string_bytes, IfOk, OnOk}, Option.{option_map}, Str.{bytes_eq}};
ghost use Rattle.yv_text_statement.specs.Words.{is_among};
ghost use Rattle.yv_search.specs.{Roles.{root_module, is_there}, InnerModules.{module_at, lookup, ref_of}, InnerNames.{has}};

use crate::table::{ModuleRef, Table};
use crate::wants::module_of;
use std::alloc::{AllocError, Global};
use std::collections::BTreeSet;
use yv_text_statement::{Keyword, Statement};

/// The module that is the root of a file.
pub(crate) fn root_module<'a>(root: &'a Option<Statement<'_>>) -> Option<&'a str>
    ensures { option_map (λ text. text.now) result ≡ root_module root.now }
{
    match root {
        Some(root) if root.is(Keyword::Module) => root.argument(),
        _ => None,
    }
}

/// The module of the file with this root.
pub(crate) fn module_at<'a>(root: &'a Option<Statement<'_>>) -> Option<&'a str>
    ensures { option_map (λ text. text.now) result ≡ module_at root.now }
{
    match root {
        Some(root) => module_of(root),
        None => None,
    }
}

/// A set of names.
#[derive(Drop)]
pub(crate) struct Names<'a> {
    set: BTreeSet<&'a [u8]>,
}

impl<'a> Names<'a> {
    /// No names.
    pub(crate) fn new(alloc: Global) -> Names<'a>
        ensures { (q : List ℕ) → has result q ≡ false }
    {
        Names {
            set: BTreeSet::new(alloc),
        }
    }

    /// Whether a name is among them.
    pub(crate) fn has(&self, name: &str) -> bool
        ensures { result ≡ has self.now name.now }
    {
        self.set.contains(name.as_bytes())
    }

    /// Adds a name.
    pub(crate) fn add(&mut self, name: &'a str) -> Result<(), AllocError>
        ensures { OnOk result ((q : List ℕ)
            → has self.new q ≡ (bytes_eq name.now q || has self.old q)) }
    {
        self.set.insert(name.as_bytes())?;
        Ok(())
    }
}

/// The names in a list.
pub(crate) fn names_in<'a>(alloc: Global, list: &'a [String]) -> Result<Names<'a>, AllocError>
    ensures { IfOk result (λ names. (q : List ℕ)
        → has names q ≡ is_among (map string_bytes list.now) q) }
{
    let mut names = Names::new(alloc);
    for name in list {
        names.add(name.as_str())?;
    }
    Ok(names)
}

// The modules that are roots of files.
fn root_modules<'a>(
    alloc: Global,
    roots: &'a [Option<Statement<'_>>],
) -> Result<Names<'a>, AllocError>
    ensures { IfOk result (λ names. (q : List ℕ) → has names q ≡ is_there roots.now q) }
{
    let mut names = Names::new(alloc);
    for root in roots {
        if let Some(name) = root_module(root) {
            names.add(name)?;
        }
    }
    Ok(names)
}

/// The modules that have files, each with the number of its first.
pub(crate) fn numbered_modules<'a>(
    alloc: Global,
    roots: &'a [Option<Statement<'_>>],
    given: &[String],
) -> Result<Table<'a>, AllocError>
    ensures { IfOk result (λ table. (q : List ℕ)
        → lookup table q ≡ ref_of roots.now (map string_bytes given.now) q) }
{
    let there = root_modules(alloc, roots)?;
    let given = names_in(alloc, given)?;
    let mut table = Table::new(alloc);
    for (number, root) in roots.iter().enumerate() {
        if let Some(name) = module_at(root) {
            let module = ModuleRef {
                number,
                is_there: there.has(name),
                is_free: !given.has(name),
            };
            table.keep(name, Some(module))?;
        }
    }
    Ok(table)
}
