//! The schema paths of refines and augments.
ghost use Rattle.std.specs.{Prelude.{◌≡◌, List, Some, map, slice_get, IfOk}, Option.{option_map}};
ghost use Rattle.yv_link_scopes.specs.{Files.{Briefs}, Rows.{Row, row}, Views.{files_in, rows_in}, Prefixes.{IsPrefixTable}};
ghost use Rattle.yv_expand_paths.specs.{InnerSteps.{step_with, step_of, has_path, path_of, path_at}, PathTables.{AreNames}};
ghost use Rattle.yv_expand_statements.specs.Paths.{behind_root, steps_of};

use crate::names::NodeNames;
use crate::step::SchemaStep;
use std::alloc::{AllocError, Global};
use yv_link_scopes::{Entry, PrefixTable, Rows, local, name_of, prefix_of};
use yv_text_statement::Keyword;

// A step whose name has this number.
fn named_step<'a>(
    module_files: &PrefixTable<'a>,
    file: usize,
    prefix: Option<&'a str>,
    name: u32,
) -> Option<SchemaStep>
    ensures { (files : Briefs) (rows : List Row) → IsPrefixTable files rows module_files.now
        → result ≡ step_with files rows file (option_map (λ p. p.now) prefix.entry) name }
{
    match prefix {
        None => Some(SchemaStep {
            module_file: None,
            name,
        }),
        Some(prefix) => Some(SchemaStep {
            module_file: Some(module_files.get(file, prefix)?),
            name,
        }),
    }
}

// The step of a path in a file that is written so.
fn read_step<'a>(
    module_files: &PrefixTable<'a>,
    names: &NodeNames<'a>,
    file: usize,
    text: &'a str,
) -> Option<SchemaStep>
    ensures { (files : Briefs) (rows : List Row) → IsPrefixTable files rows module_files.now
        → AreNames rows names.now
        → result ≡ step_of files rows file text.now }
{
    let name = names.get(local(text))?;
    named_step(module_files, file, prefix_of(text), name)
}

// A path without the '/' at the start of an absolute one.
fn behind_root(text: &str) -> &str
    ensures { result.now ≡ behind_root text.now }
{
    match text.strip_prefix('/') {
        Some(rest) => rest,
        None => text,
    }
}

// The text of each step of a path.
fn steps(alloc: Global, text: &str) -> Result<Vec<&str>, AllocError>
    ensures { IfOk result (λ steps. map (λ s. s.now) steps.items ≡ steps_of text.now) }
{
    behind_root(text).split('/').collect(alloc)
}

// Whether a statement has a schema path.
fn has_path(entry: &Entry<'_, '_>) -> bool
    ensures { result ≡ has_path (row entry.now) }
{
    entry.is(Keyword::Refine) || entry.is(Keyword::Augment)
}

// The steps of a statement's path.
fn path<'a>(
    alloc: Global,
    module_files: &PrefixTable<'a>,
    names: &NodeNames<'a>,
    entry: &Entry<'a, '_>,
) -> Result<Vec<Option<SchemaStep>>, AllocError>
    ensures { IfOk result
        (λ path. (files : Briefs) (rows : List Row) → IsPrefixTable files rows module_files.now
        → AreNames rows names.now
        → path.items ≡ path_of files rows (row entry.now)) }
{
    let file = entry.file as usize;
    let texts = steps(alloc, name_of(entry.statement))?;
    let mut path = Vec::new(alloc);
    for text in &texts {
        path.push(read_step(module_files, names, file, text))?;
    }
    Ok(path)
}

// The path of a statement, if it is a refine or an augment.
fn path_at<'a>(
    alloc: Global,
    module_files: &PrefixTable<'a>,
    names: &NodeNames<'a>,
    entry: &Entry<'a, '_>,
) -> Result<Vec<Option<SchemaStep>>, AllocError>
    ensures { IfOk result
        (λ path. (files : Briefs) (rows : List Row) → IsPrefixTable files rows module_files.now
        → AreNames rows names.now
        → path.items ≡ path_at files rows (Some (row entry.now))) }
{
    if has_path(entry) {
        path(alloc, module_files, names, entry)
    } else {
        Ok(Vec::new(alloc))
    }
}

/// The schema paths of statements, each read once.
#[derive(Drop)]
pub struct Paths {
    paths: Vec<Vec<Option<SchemaStep>>>,
}

impl Paths {
    ghost use Rattle.yv_expand_paths.specs.PathTables.{ArePaths};

    /// Reads the paths of all refines and augments, whose names have these numbers. Takes time n
    /// log n and memory linear in the text. Err only if memory runs out.
    pub fn read<'a>(
        alloc: Global,
        rows: &Rows<'a, '_>,
        names: &NodeNames<'a>,
    ) -> Result<Paths, AllocError>
        // The paths of all refines and augments, each read once.
        requires { AreNames (rows_in rows.now) names.now }
        // The paths of all refines and augments, each read once.
        ensures { IfOk result (ArePaths (files_in rows.now) (rows_in rows.now)) }
    {
        let module_files = PrefixTable::read(alloc, rows)?;
        let mut paths = Vec::new(alloc);
        for entry in rows.entries() {
            paths.push(path_at(alloc, &module_files, names, entry)?)?;
        }
        Ok(Paths { paths })
    }

    /// The steps of the path of a numbered refine or augment. A step is None where no node answers
    /// it: its prefix identifies no module, or no node has its name.
    pub fn of(&self, statement: usize) -> &[Option<SchemaStep>]
        ensures { (files : Briefs) (rows : List Row) → ArePaths files rows self.now
            → result.now ≡ path_at files rows (slice_get rows statement) }
    {
        match self.paths.get(statement) {
            Some(path) => path,
            None => &[],
        }
    }
}
