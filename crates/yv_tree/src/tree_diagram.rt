//! The diagram of a module, which is drawn in memory or written to a stream.
ghost use Rattle.std.specs.{Prelude.{◌≡◌, ◌++◌, ◌↔◌, ℕ, true, false, IfOk, codes, option_map, string_bytes, take}, Io.KnownBytes.{Appends}};
ghost use Rattle.yv_base_streams.specs.{Stream.{has_failed, stream_inner, FailsOnceAtMost}, Pages.{Adds}};
ghost use Rattle.yv_tree.specs.{Diagram.{diagram_of, module_in, text_of}, DrawnDiagram.{drawn_lines}, InnerDraw.{drawing_with}};

use crate::draw::Subject;
use crate::modules::Modules;
use crate::paper::Paper;
use crate::sections::Part;
use crate::text::Text;
use std::alloc::{AllocError, Global};
use std::io::Write;
use std::marker::Model;
use yv_base_streams::{Counted, Page};
use yv_nodes::NodeId;
use yv_schema_tables::{Module, Schema};
use yv_tree_drawing::WayStep;

/// The tree diagram of a module (RFC 8340), before it is drawn: all that wants memory is at hand.
/// Contracts see its text.
#[derive(Drop)]
pub struct TreeDiagram<'a> {
    schema: &'a Schema,
    shown: &'a Module,
    depth: Option<u32>,
    below: &'a [WayStep],
    columns: bool,
    modules: Modules<'a>,
    data_nodes: Vec<NodeId>,
    rpcs: Vec<NodeId>,
    notifications: Vec<NodeId>,
}

impl<'a> Model for TreeDiagram<'a> {
    ghost use Rattle.std.specs.Prelude.{◌≡◌, ℕ, List};
    ghost use Rattle.yv_tree.specs.{Diagram.{text_of}, DrawnDiagram.{drawn_lines}, InnerDraw.{drawing_with}, InnerTops.{AreReady}};

    ghost Value = { List ℕ };

    ghost view = { λ d. text_of (drawn_lines d.schema.now d.shown.now.name d.shown.now.module_file
        (drawing_with d.depth d.below.now d.columns)) };

    ghost invariant = { λ d.
        AreReady d.schema.now d.shown.now.module_file d.modules
        d.data_nodes.items d.rpcs.items d.notifications.items };
}

/// The tree diagram of a module as a text: None where the schema has no implemented module of this
/// name.
pub fn diagram(alloc: Global, schema: &Schema, name: &str) -> Result<Option<String>, AllocError>
    ensures { IfOk result (λ text. option_map string_bytes text ≡ diagram_of schema.now name.now) }
{
    match TreeDiagram::of(alloc, schema, name)? {
        Some(found) => Ok(Some(found.text(alloc)?)),
        None => Ok(None),
    }
}

/// The first of these modules that has this name.
pub(crate) fn module_named<'a>(modules: &'a [Module], name: &str) -> Option<&'a Module>
    ensures { option_map (λ found. found.now) result ≡ module_in modules.now name.now }
{
    for known in modules {
        if known.name.as_str() == name {
            return Some(known);
        }
    }
    None
}

impl<'a> TreeDiagram<'a> {
    /// The diagram of a module: None where the schema has no implemented module of this name.
    pub fn of(
        alloc: Global,
        schema: &'a Schema,
        name: &str,
    ) -> Result<Option<TreeDiagram<'a>>, AllocError>
        ensures { IfOk result (λ found. found ≡ diagram_of schema.now name.now) }
    {
        match module_named(schema.modules(), name) {
            Some(shown) => Ok(Some(TreeDiagram::ready(alloc, schema, shown, None, &[], false)?)),
            None => Ok(None),
        }
    }

    /// The diagram of this module, with so many levels of nodes, of what this way shows, in columns
    /// or not.
    pub(crate) fn ready(
        alloc: Global,
        schema: &'a Schema,
        shown: &'a Module,
        depth: Option<u32>,
        below: &'a [WayStep],
        columns: bool,
    ) -> Result<TreeDiagram<'a>, AllocError>
        ensures { IfOk result (λ found. found
            ≡ text_of (drawn_lines schema.now shown.now.name shown.now.module_file
            (drawing_with depth below.now columns))) }
    {
        let modules = Modules::of(alloc, schema.modules())?;
        let drawing = Subject {
            schema,
            modules: &modules,
            own: shown.module_file,
            depth,
            below,
            columns,
        };
        let data_nodes = drawing.tops(alloc, Part::Data)?;
        let rpcs = drawing.tops(alloc, Part::Rpcs)?;
        let notifications = drawing.tops(alloc, Part::Notifications)?;
        Ok(TreeDiagram {
            schema,
            shown,
            depth,
            below,
            columns,
            modules,
            data_nodes,
            rpcs,
            notifications,
        })
    }

    /// Writes the diagram, and answers whether all was taken. It takes no memory, however much text
    /// that is.
    pub fn write<W: Write>(&self, writer: &mut Counted<W>) -> bool
        // The writer has not failed.
        requires { has_failed writer.old ≡ false }
        // If true is returned, the writer has received the text of the diagram, and nothing else.
        ensures done { result ≡ true → Appends (W.contents (stream_inner writer.old))
            (W.contents (stream_inner writer.new)) self.now }
        // In any case it has received the first bytes of that text, and nothing else.
        ensures part { (n : ℕ) × Appends (W.contents (stream_inner writer.old))
            (W.contents (stream_inner writer.new)) (take n self.now) }
        // False is returned exactly if the writer has failed.
        ensures fault { result ≡ false ↔ (has_failed writer.new ≡ true) }
        // At most one call of the writer failed in a way that is not tolerated, and none came after
        // it.
        ensures once { FailsOnceAtMost writer.new }
    {
        let mut page = Page::new();
        self.draw(writer, &mut page);
        page.turn(writer);
        !writer.has_failed()
    }

    // The diagram as a text.
    fn text(&self, alloc: Global) -> Result<String, AllocError>
        ensures { IfOk result (λ text. string_bytes text ≡ self.now) }
    {
        let mut text = Text::new(alloc);
        self.draw(&mut text, &mut ());
        text.whole()
    }

    /// Draws the diagram.
    pub(crate) fn draw<P: Paper>(&self, paper: &mut P, page: &mut P::Page)
        ensures { Adds self.now (P.output page.old paper.old) (P.output page.new paper.new) }
    {
        let shown = self.shown;
        let drawing = Subject {
            schema: self.schema,
            modules: &self.modules,
            own: shown.module_file,
            depth: self.depth,
            below: self.below,
            columns: self.columns,
        };
        put_header(shown.name.as_str(), paper, page);
        drawing.top_nodes(self.data_nodes.as_slice(), paper, page);
        drawing.augments(paper, page);
        drawing.tops_section("rpcs", self.rpcs.as_slice(), paper, page);
        let notifications = self.notifications.as_slice();
        drawing.tops_section("notifications", notifications, paper, page);
    }
}

// Puts the first line, which tells this name of the module.
fn put_header<P: Paper>(name: &str, paper: &mut P, page: &mut P::Page)
    ensures { Adds (codes "module: " ++ name.now ++ codes "\n")
        (P.output page.old paper.old) (P.output page.new paper.new) }
{
    paper.put(page, "module: ");
    paper.put(page, name);
    paper.put(page, "\n");
}
