//! What is known of statements before items are looked at.
ghost use Rattle.std.specs.Prelude.{◌≡◌, ◌<◌, ℕ, length, map, slice_get, IfOk, Some};
ghost use Rattle.yv_link_scopes.specs.{Files.{module_file_at}, Views.{files_in, rows_in}};
ghost use Rattle.yv_expand_uses.specs.{AugmentOrder.{augments_giving, is_giving, ordinal, place_of, augments_in}, Paths.{module_paths, path_in, step_name}, RefineTargets.{refines_in}, Spots.{own_module_file}, InnerPlan.{AreModuleFiles}};

use crate::augment_order::{
    augment_places, giving_places, is_in, ordinals, places_in, refine_places,
};
use std::alloc::{AllocError, Global};
use yv_base_tables::Families;
use yv_expand::Item;
use yv_expand_paths::{NodeNames, Paths, SchemaStep};
use yv_link_scopes::Rows;

// No node has this name.
const NO_NAME: usize = 4_294_967_295;

// For each file that of its module. A name is looked up once for a file, and not for each item at
// its top: the names may be long.
fn module_files(alloc: Global, rows: &Rows<'_, '_>) -> Result<Vec<u32>, AllocError>
    ensures { IfOk result (λ module_files. AreModuleFiles (files_in rows.now) module_files.items) }
{
    yv_link_scopes::laws::modules_are_files();
    let count = rows.files().len();
    let mut module_files = Vec::new(alloc);
    for number in 0..count {
        module_files.push(rows.module_file(number) as u32)?;
    }
    Ok(module_files)
}

// The number of a step's name, where one without prefix is of the module of this file.
fn step_name(module_file: u32, step: Option<SchemaStep>) -> usize
    ensures { result ≡ step_name module_file step }
{
    match step {
        Some(step) => step.number(module_file),
        None => NO_NAME,
    }
}

// The names of steps.
fn names_of(
    alloc: Global,
    module_file: u32,
    steps: &[Option<SchemaStep>],
) -> Result<Vec<usize>, AllocError>
    ensures { IfOk result (λ names. names.items ≡ map (step_name module_file) steps.now) }
{
    let mut names = Vec::new(alloc);
    for step in steps {
        names.push(step_name(module_file, *step))?;
    }
    Ok(names)
}

/// The plan of an expansion: statements, the augments of modules among them, and the items; for
/// each file that of its module, the names and the paths, the refines and augments of each block,
/// and which of these give something.
#[derive(Drop)]
pub struct Plan<'r, 'a, 'b> {
    /// The statements of all files.
    pub rows: &'r Rows<'a, 'b>,
    /// The augments of modules, by their statements.
    pub augments: &'r [usize],
    /// The items of the expansion.
    pub items: &'r [Item],
    module_files: Vec<u32>,
    pub(crate) names: NodeNames<'a>,
    paths: Paths,
    places: Vec<Option<usize>>,
    giving: Families,
    ordinals: Vec<usize>,
    modules: Vec<Option<usize>>,
    blocks: Families,
    refines: Families,
}

impl<'r, 'a, 'b> Plan<'r, 'a, 'b> {
    ghost use Rattle.yv_expand_uses.specs.{InnerPlan.{IsPlan, whole_in}, Spots.{whole}};

    /// What is known of these statements, of augments of modules among them, and of how many items
    /// there are. Takes time n log n in the text. Err if memory runs out, and where there are more
    /// than 2 to the 32 less 3 statements.
    pub fn read(
        alloc: Global,
        rows: &'r Rows<'a, 'b>,
        augments: &'r [usize],
        items: &'r [Item],
    ) -> Result<Plan<'r, 'a, 'b>, AllocError>
        // A plan of these statements, augments and items.
        ensures plan { IfOk result IsPlan }
        // It is that of these files, augments and items.
        ensures whole { IfOk result
            (λ plan. whole_in plan
            ≡ whole (files_in rows.now) (rows_in rows.now) augments.now (length items.now)) }
    {
        yv_link_scopes::laws::blocks_are_nested();
        let names = NodeNames::read(alloc, rows)?;
        let paths = Paths::read(alloc, rows, &names)?;
        let places = giving_places(alloc, rows)?;
        let giving = Families::new(alloc, &places, places.len())?;
        let ordinals = ordinals(alloc, &places)?;
        let modules = places_in(alloc, augments, places.len())?;
        let module_files = module_files(alloc, rows)?;
        let augment_places = augment_places(alloc, rows)?;
        let blocks = Families::new(alloc, &augment_places, augment_places.len())?;
        let refine_places = refine_places(alloc, rows)?;
        let refines = Families::new(alloc, &refine_places, refine_places.len())?;
        Ok(Plan {
            rows,
            augments,
            items,
            module_files,
            names,
            paths,
            places,
            giving,
            ordinals,
            modules,
            blocks,
            refines,
        })
    }

    /// The file of the module of a numbered statement's file.
    pub(crate) fn own_module_file(&self, statement: usize) -> u32
        requires { IsPlan self.now }
        ensures { result
            ≡ own_module_file (files_in self.now.rows.now)
            (slice_get (rows_in self.now.rows.now) statement) }
    {
        match self.rows.entries().get(statement) {
            Some(entry) => {
                let file = entry.file;
                self.module_files
                    .get(file as usize)
                    .copied()
                    .unwrap_or(file)
            }
            None => 0,
        }
    }

    /// Whether a numbered statement is an augment of this block that gives something.
    pub fn is_giving(&self, block: usize, augment: usize) -> bool
        // Whether the statement is an augment of this block that gives something.
        requires { IsPlan self.now }
        // Whether the statement is an augment of this block that gives something.
        ensures { result ≡ is_giving (rows_in self.now.rows.now) block augment }
    {
        is_in(block, self.places.get(augment).copied())
    }

    /// How many of the augments of its block that give something come before this one.
    pub(crate) fn ordinal(&self, augment: usize) -> usize
        requires { IsPlan self.now }
        ensures { result ≡ ordinal (rows_in self.now.rows.now) augment }
    {
        self.ordinals.get(augment).copied().unwrap_or(0)
    }

    /// The place of a numbered statement among the augments of modules.
    pub(crate) fn module_place(&self, statement: usize) -> Option<usize>
        requires plan { IsPlan self.now }
        requires within { statement < length (rows_in self.now.rows.now) }
        ensures { result ≡ place_of self.now.augments.now statement }
    {
        self.modules.get(statement).copied().unwrap_or(None)
    }

    /// The augments of a block, in order.
    pub fn augments_in(&self, block: usize) -> &[usize]
        // The augments of a block, in order.
        requires { IsPlan self.now }
        // The augments of a block, in order.
        ensures { result.now ≡ augments_in (rows_in self.now.rows.now) block }
    {
        yv_base_tables::laws::each_place_has_its_numbers();
        self.blocks.at(block)
    }

    /// The refines of a block.
    pub(crate) fn refines_in(&self, block: usize) -> &[usize]
        requires { IsPlan self.now }
        ensures { result.now ≡ refines_in (rows_in self.now.rows.now) block }
    {
        yv_base_tables::laws::each_place_has_its_numbers();
        self.refines.at(block)
    }

    /// The augments of a block that give something.
    pub(crate) fn augments_giving(&self, block: usize) -> &[usize]
        requires { IsPlan self.now }
        ensures { result.now ≡ augments_giving (rows_in self.now.rows.now) block }
    {
        yv_base_tables::laws::each_place_has_its_numbers();
        self.giving.at(block)
    }

    /// The path of an augment or a refine, each step as one number for its module and name, where a
    /// name without prefix is of the module of this file. Err only if memory runs out.
    pub fn path(
        &self,
        alloc: Global,
        module_file: u32,
        augment: usize,
    ) -> Result<Vec<usize>, AllocError>
        // The path of an augment or a refine, each step as a number, where names without prefix are
        // of the module of this file.
        requires { IsPlan self.now }
        // The path of an augment or a refine, each step as a number, where names without prefix are
        // of the module of this file.
        ensures { IfOk result
            (λ path. path.items ≡ path_in (whole_in self.now) module_file augment) }
    {
        names_of(alloc, module_file, self.paths.of(augment))
    }

    /// The paths of the augments of modules, where names without prefix are of the module of the
    /// augment's file. Err only if memory runs out.
    pub fn module_paths(&self, alloc: Global) -> Result<Vec<Vec<usize>>, AllocError>
        // The paths of the augments of modules, where names without prefix are of the module of the
        // augment's file.
        requires { IsPlan self.now }
        // The paths of the augments of modules, where names without prefix are of the module of the
        // augment's file.
        ensures { IfOk result
            (λ paths. map (λ p. p.items) paths.items ≡ module_paths (whole_in self.now)) }
    {
        let mut paths = Vec::new(alloc);
        for augment in self.augments {
            let path = self.path(alloc, self.own_module_file(*augment), *augment)?;
            paths.push(path)?;
        }
        Ok(paths)
    }
}
