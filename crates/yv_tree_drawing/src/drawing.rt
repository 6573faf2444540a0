//! What is drawn of modules, and how.
ghost use Rattle.std.specs.Prelude.{◌≡◌, [], None, false};

use crate::step::WayStep;
use std::alloc::Global;
use std::marker::Model;

/// The drawing of a diagram: how much of it is shown, and in what form. Contracts see it as a
/// `DrawingAsked`.
#[derive(Debug, Drop)]
pub struct Drawing {
    /// How many levels of nodes are drawn: all of them where it is None. The nodes at the top of
    /// the data nodes and of each section are of level 1. A line of three dots is drawn in the
    /// place of the nodes below a node of the last level (RFC 8340, section 2.4).
    pub depth: Option<u32>,
    /// The way to a node, from the top of the schema. Shown are that node, the nodes on the way to
    /// it, and all below it. Without a step all is shown.
    pub below: Vec<WayStep>,
    /// Whether types begin in columns, and cases are drawn that a choice leaves out.
    pub columns: bool,
}

impl Model for Drawing {
    ghost use Rattle.yv_tree_drawing.specs.Trees.{DrawingAsked};

    ghost Value = { DrawingAsked };

    ghost view = { λ d. record { depth = d.depth; below = d.below.items; columns = d.columns } };
}

impl Drawing {
    /// A drawing that shows all, without columns.
    pub fn plain(alloc: Global) -> Drawing
        // All levels are drawn, all nodes are shown, and there are no columns.
        ensures { result ≡ record { depth = None; below = []; columns = false } }
    {
        Drawing {
            depth: None,
            below: Vec::new(alloc),
            columns: false,
        }
    }
}

/// The options of tree diagrams: which modules are drawn, and how. Contracts see it as a
/// `TreeAsked`.
#[derive(Debug, Drop)]
pub struct TreeOptions {
    /// The names of the modules, in the order of their diagrams. Without one, the module that the
    /// way of the drawing begins with is drawn; without a way, each implemented module whose own
    /// file was named.
    pub modules: Vec<String>,
    /// How many files were named. They come before those that were found in folders.
    pub named_files: usize,
    pub drawing: Drawing,
}

impl Model for TreeOptions {
    ghost use Rattle.std.specs.Prelude.{map, string_bytes};
    ghost use Rattle.yv_tree_drawing.specs.Trees.{TreeAsked};

    ghost Value = { TreeAsked };

    ghost view = { λ t. record {
      modules = map string_bytes t.modules.items;
      named_files = t.named_files;
      drawing = t.drawing;
    } };
}
