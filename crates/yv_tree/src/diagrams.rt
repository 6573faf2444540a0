//! The diagrams of several modules.
ghost use Rattle.std.specs.{Prelude.{◌≡◌, ◌∷◌, ◌++◌, [], ◌↔◌, ℕ, true, false, Err, IfOk, MatchResult, None, Ok, filter, map, string_bytes, take}, Io.KnownBytes.{Appends}};
ghost use Rattle.yv_base_streams.specs.{Stream.{has_failed, stream_inner, FailsOnceAtMost}, Pages.{Adds}};
ghost use Rattle.yv_nodes.specs.Rows.{whole};
ghost use Rattle.yv_tree.specs.{DrawnModules.{diagrams_of, drawn_modules, if_any, is_in_first, joined_texts, module_if, module_of_way, module_text, modules_named}, Lines.{behind_each}, Part.{leads}};

use crate::paper::Paper;
use crate::tree_diagram::{TreeDiagram, module_named};
use crate::way::leads;
use std::alloc::{AllocError, Global};
use std::io::Write;
use std::marker::Model;
use yv_base_streams::{Counted, Page};
use yv_schema_tables::{Module, Schema};
use yv_tree_drawing::{Drawing, TreeOptions, WayStep};

/// What is missing of what was asked for.
#[derive(Clone, Copy, Debug, PartialEq, Eq)]
pub enum Missing {
    /// The schema has no implemented module of a name that was given; or none was given, and no
    /// file that was named has an implemented module.
    Module,
    /// The way leads to no node.
    Node,
}

/// The tree diagrams of modules (RFC 8340), before they are drawn: all that wants memory is at
/// hand. Contracts see their text, with an empty line between two diagrams.
#[derive(Drop)]
pub struct TreeDiagrams<'a> {
    diagrams: Vec<TreeDiagram<'a>>,
}

impl<'a> Model for TreeDiagrams<'a> {
    ghost use Rattle.std.specs.Prelude.{ℕ, List};
    ghost use Rattle.yv_tree.specs.DrawnModules.{joined_texts};

    ghost Value = { List ℕ };

    ghost view = { λ t. joined_texts t.diagrams.items };
}

impl<'a> TreeDiagrams<'a> {
    /// The diagrams that are asked for, or what is missing.
    pub fn of(
        alloc: Global,
        schema: &'a Schema,
        options: &'a TreeOptions,
    ) -> Result<Result<TreeDiagrams<'a>, Missing>, AllocError>
        // The text that the definition gives, or what is missing.
        ensures { IfOk result (λ found. found ≡ diagrams_of schema.now options.now) }
    {
        let modules = match asked_modules(alloc, schema.modules(), options)? {
            Ok(modules) => modules,
            Err(missing) => return Ok(Err(missing)),
        };
        if !leads_down(schema, options.drawing.below.as_slice()) {
            return Ok(Err(Missing::Node));
        }
        Ok(Ok(TreeDiagrams::ready(alloc, schema, &options.drawing, modules.as_slice())?))
    }

    // The diagrams of these modules with a drawing.
    fn ready(
        alloc: Global,
        schema: &'a Schema,
        drawing: &'a Drawing,
        modules: &[&'a Module],
    ) -> Result<TreeDiagrams<'a>, AllocError>
        ensures { IfOk result (λ found. found
            ≡ joined_texts
            (map (module_text schema.now drawing.now) (map (λ m. m.now) modules.now))) }
    {
        let mut diagrams = Vec::new(alloc);
        for shown in modules {
            diagrams.push(with_drawing(alloc, schema, *shown, drawing)?)?;
        }
        Ok(TreeDiagrams { diagrams })
    }

    /// Writes the diagrams, and answers whether all was taken. It takes no memory, however much
    /// text that is.
    pub fn write<W: Write>(&self, writer: &mut Counted<W>) -> bool
        // The writer has not failed.
        requires { has_failed writer.old ≡ false }
        // If true is returned, the writer has received the text of the diagrams, and nothing else.
        ensures done { result ≡ true → Appends (W.contents (stream_inner writer.old))
            (W.contents (stream_inner writer.new)) self.now }
        // In any case it has received the first bytes of that text, and nothing else.
        ensures part { (n : ℕ) × Appends (W.contents (stream_inner writer.old))
            (W.contents (stream_inner writer.new)) (take n self.now) }
        // False is returned exactly if the writer has failed.
        ensures fault { result ≡ false ↔ (has_failed writer.new ≡ true) }
        // At most one call of the writer failed in a way that is not tolerated, and none came after
        // it.
        ensures once { FailsOnceAtMost writer.new }
    {
        let mut page = Page::new();
        self.draw(writer, &mut page);
        page.turn(writer);
        !writer.has_failed()
    }

    // Draws the diagrams.
    fn draw<P: Paper>(&self, paper: &mut P, page: &mut P::Page)
        ensures { Adds self.now (P.output page.old paper.old) (P.output page.new paper.new) }
    {
        if let Some((first, others)) = self.diagrams.as_slice().split_first() {
            first.draw(paper, page);
            put_others(others, paper, page);
        }
    }
}

// The diagram of a module with a drawing.
fn with_drawing<'a>(
    alloc: Global,
    schema: &'a Schema,
    shown: &'a Module,
    drawing: &'a Drawing,
) -> Result<TreeDiagram<'a>, AllocError>
    ensures { IfOk result (λ found. found ≡ module_text schema.now drawing.now shown.now) }
{
    TreeDiagram::ready(
        alloc,
        schema,
        shown,
        drawing.depth,
        drawing.below.as_slice(),
        drawing.columns,
    )
}

// Puts diagrams, each after an empty line.
fn put_others<P: Paper>(diagrams: &[TreeDiagram<'_>], paper: &mut P, page: &mut P::Page)
    ensures { Adds (behind_each (10 ∷ []) diagrams.now)
        (P.output page.old paper.old) (P.output page.new paper.new) }
{
    for diagram in diagrams {
        put_other(diagram, paper, page);
    }
}

// A further diagram after its empty line.
fn put_other<P: Paper>(diagram: &TreeDiagram<'_>, paper: &mut P, page: &mut P::Page)
    ensures { Adds ((10 ∷ []) ++ diagram.now)
        (P.output page.old paper.old) (P.output page.new paper.new) }
{
    paper.put(page, "\n");
    diagram.draw(paper, page);
}

// Whether these steps lead to a node, from the top.
fn leads_down(schema: &Schema, way: &[WayStep]) -> bool
    ensures { result ≡ leads None way.now (whole schema.now) }
{
    leads(
        schema,
        None,
        Schema::ROOT,
        schema.children(Schema::ROOT),
        way,
    )
}

// The modules that are drawn, among these.
fn asked_modules<'a>(
    alloc: Global,
    modules: &'a [Module],
    options: &TreeOptions,
) -> Result<Result<Vec<&'a Module>, Missing>, AllocError>
    ensures { let modules_asked = drawn_modules modules.now options.now options.now.modules in
        IfOk result (λ found. MatchResult found
        (λ v. modules_asked ≡ Ok (map (λ m. m.now) v.items)) (λ e. modules_asked ≡ Err e)) }
{
    if !options.modules.is_empty() {
        return all_named(alloc, modules, options.modules.as_slice());
    }
    match options.drawing.below.as_slice().first() {
        Some(step) => named_by(alloc, modules, step),
        None => in_first(alloc, modules, options.named_files),
    }
}

// The modules of these names.
fn all_named<'a>(
    alloc: Global,
    modules: &'a [Module],
    names: &[String],
) -> Result<Result<Vec<&'a Module>, Missing>, AllocError>
    ensures { let modules_asked = modules_named modules.now (map string_bytes names.now) in
        IfOk result (λ found. MatchResult found
        (λ v. modules_asked ≡ Ok (map (λ m. m.now) v.items)) (λ e. modules_asked ≡ Err e)) }
{
    let mut found = Vec::new(alloc);
    for name in names {
        match module_named(modules, name.as_str()) {
            Some(known) => found.push(known)?,
            None => return Ok(Err(Missing::Module)),
        }
    }
    Ok(Ok(found))
}

// The module that a way begins with.
fn named_by<'a>(
    alloc: Global,
    modules: &'a [Module],
    step: &WayStep,
) -> Result<Result<Vec<&'a Module>, Missing>, AllocError>
    ensures { let modules_asked = module_of_way (module_if modules.now step.now.module) in
        IfOk result (λ found. MatchResult found
        (λ v. modules_asked ≡ Ok (map (λ m. m.now) v.items)) (λ e. modules_asked ≡ Err e)) }
{
    let mut found = Vec::new(alloc);
    match step.module() {
        Some(name) => match module_named(modules, name) {
            Some(known) => {
                found.push(known)?;
                Ok(Ok(found))
            }
            None => Ok(Err(Missing::Node)),
        },
        None => Ok(Err(Missing::Node)),
    }
}

// The modules whose own files are among the first, which are so many.
fn in_first<'a>(
    alloc: Global,
    modules: &'a [Module],
    files: usize,
) -> Result<Result<Vec<&'a Module>, Missing>, AllocError>
    ensures { let modules_asked = if_any (filter (is_in_first files) modules.now) in
        IfOk result (λ found. MatchResult found
        (λ v. modules_asked ≡ Ok (map (λ m. m.now) v.items)) (λ e. modules_asked ≡ Err e)) }
{
    let mut found = Vec::new(alloc);
    for known in modules {
        if (known.module_file as usize) < files {
            found.push(known)?;
        }
    }
    if found.is_empty() {
        return Ok(Err(Missing::Module));
    }
    Ok(Ok(found))
}
