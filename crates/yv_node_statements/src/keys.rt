//! The paths in blocks: those of keys, of `unique` statements and of leafrefs.
ghost use Rattle.std.specs.Prelude.{◌≡◌, ◌∷◌, [], ◌++◌, ℕ, map, IfOk, OnOk};
ghost use Rattle.yv_text_statement.specs.Tree.{End, trees};
ghost use Rattle.yv_link_scopes.specs.Files.{Files};
ghost use Rattle.yv_node_paths.specs.LeafPaths.{AreLeafPaths};
ghost use Rattle.yv_node_content.specs.Definition.{paths_in};
ghost use Rattle.yv_node_statements.specs.{Definitions.{keys_in, path_in, path_of_type, uniques_in}, InnerNames.{AreNamed}};

use crate::nothing::Nothing;
use std::alloc::{AllocError, Global};
use std::rc::Rc;
use yv_node_content::{Keys, PathPiece, PathStep};
use yv_node_paths::LeafPaths;
use yv_node_properties::{argument_of, first_of, is_of, name_of};
use yv_text_grammar::Keyword;
use yv_text_statement::Statement;

/// What the `key` and `unique` statements of a block name, and the path of the leafref that it has
/// as its type.
#[derive(Drop)]
pub(crate) struct BlockPaths {
    pub(crate) keys: Rc<Keys>,
    pub(crate) uniques: Rc<Vec<Vec<Vec<Option<PathStep>>>>>,
    pub(crate) path: Rc<Vec<PathPiece>>,
}

impl BlockPaths {
    /// What those of this block name, as they are written in this file.
    pub(crate) fn read<'a>(
        alloc: Global,
        nothing: &Nothing,
        paths: &LeafPaths<'a>,
        file: u32,
        statement: &'a Statement<'_>,
    ) -> Result<BlockPaths, AllocError>
        ensures { (files : Files) → AreLeafPaths files paths.now
            → IfOk result (AreNamed files file statement.now.children) }
    {
        let keys = keys_in(alloc, nothing, paths, file, statement)?;
        let uniques = uniques_in(alloc, nothing, paths, file, statement)?;
        let path = path_in(alloc, nothing, paths, file, statement)?;
        Ok(BlockPaths {
            keys,
            uniques,
            path,
        })
    }

    /// Nothing.
    pub(crate) fn none(nothing: &Nothing) -> Result<BlockPaths, AllocError>
        ensures { (files : Files) (file : ℕ) → IfOk result (AreNamed files file End) }
    {
        let keys = nothing.keys()?;
        let uniques = nothing.uniques()?;
        let path = nothing.path()?;
        Ok(BlockPaths {
            keys,
            uniques,
            path,
        })
    }
}

// What the `key` statement of its block names, in order, as it is written in this file: nothing
// without one (RFC 7950, section 7.8.2).
fn keys_in<'a>(
    alloc: Global,
    nothing: &Nothing,
    paths: &LeafPaths<'a>,
    file: u32,
    statement: &'a Statement<'_>,
) -> Result<Rc<Keys>, AllocError>
    ensures { (files : Files) → AreLeafPaths files paths.now
        → IfOk result (λ keys. keys.value ≡ keys_in files file statement.now.children) }
{
    let steps = paths.names(alloc, file as usize, argument_of(Keyword::Key, statement))?;
    if steps.is_empty() {
        return nothing.keys();
    }
    let keys = Keys::of(alloc, steps)?;
    Ok(Rc::new(alloc, keys)?)
}

// The paths of each of the `unique` statements of its block, in order, as they are written in this
// file (RFC 7950, section 7.8.3).
fn uniques_in<'a>(
    alloc: Global,
    nothing: &Nothing,
    paths: &LeafPaths<'a>,
    file: u32,
    statement: &'a Statement<'_>,
) -> Result<Rc<Vec<Vec<Vec<Option<PathStep>>>>>, AllocError>
    ensures { (files : Files) → AreLeafPaths files paths.now
        → IfOk result
        (λ uniques. map paths_in uniques.value.items
        ≡ uniques_in files file (trees statement.now.children)) }
{
    let mut uniques = Vec::new(alloc);
    for child in statement.children() {
        push_unique(alloc, paths, file, &mut uniques, child)?;
    }
    if uniques.is_empty() {
        return nothing.uniques();
    }
    Ok(Rc::new(alloc, uniques)?)
}

// Adds the paths of a statement, where it is a `unique` statement.
fn push_unique<'a>(
    alloc: Global,
    paths: &LeafPaths<'a>,
    file: u32,
    uniques: &mut Vec<Vec<Vec<Option<PathStep>>>>,
    statement: &'a Statement<'_>,
) -> Result<(), AllocError>
    ensures { (files : Files) → AreLeafPaths files paths.now
        → OnOk result
        (map paths_in uniques.new.items ≡ map paths_in uniques.old.items
        ++ uniques_in files file (statement.now ∷ [])) }
{
    if is_of(Keyword::Unique, statement) {
        uniques.push(paths.paths(alloc, file as usize, name_of(statement))?)?;
    }
    Ok(())
}

// The pieces of the path of the leafref that its block has as its type, as it is written in this
// file: nothing, where that isn't written as a leafref.
fn path_in<'a>(
    alloc: Global,
    nothing: &Nothing,
    paths: &LeafPaths<'a>,
    file: u32,
    statement: &'a Statement<'_>,
) -> Result<Rc<Vec<PathPiece>>, AllocError>
    ensures { (files : Files) → AreLeafPaths files paths.now
        → IfOk result (λ path. path.value.items ≡ path_in files file statement.now.children) }
{
    match first_of(Keyword::Type, statement) {
        Some(found) => path_of_type(alloc, nothing, paths, file, found),
        None => nothing.path(),
    }
}

// The same of a `type` statement.
fn path_of_type<'a>(
    alloc: Global,
    nothing: &Nothing,
    paths: &LeafPaths<'a>,
    file: u32,
    found: &'a Statement<'_>,
) -> Result<Rc<Vec<PathPiece>>, AllocError>
    ensures { (files : Files) → AreLeafPaths files paths.now
        → IfOk result (λ path. path.value.items ≡ path_of_type files file found.now) }
{
    if name_of(found) != "leafref" {
        return nothing.path();
    }
    let pieces = paths.pieces(alloc, file as usize, argument_of(Keyword::Path, found))?;
    Ok(Rc::new(alloc, pieces)?)
}
