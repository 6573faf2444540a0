//! Nodes and those below them, drawn line by line.
ghost use Rattle.std.specs.Prelude.{◌≡◌, ◌++◌, ◌<◌, All, IfSome, codes, false, length, max, true};
ghost use Rattle.yv_nodes.specs.Rows.{AreTrees, forest, row_at, tree_of};
ghost use Rattle.yv_schema_tables.specs.Sound.{IsChild};
ghost use Rattle.yv_base_streams.specs.Pages.{Adds};
ghost use Rattle.yv_tree.specs.{Columns.{case_line, is_case, label_width, lacks_case, sheet_line, tree_width, width}, Diagram.{text_of}, DrawnNodes.{dots, drawn_nodes, none_left, one_less}, InnerDraw.{IsShown, form_with, node_lines, sheet_with, shown_text, trees_text, waiting_text}, InnerMargin.{margin_text}, InnerPart.{trimmed_trees, trimmed_tree}, Lines.{any_line, has_line}};

use crate::line::{label_width, put_case_line, put_sheet_line};
use crate::margin::{Margin, put_margin};
use crate::modules::Modules;
use crate::paper::Paper;
use crate::way::{Group, has_line, is_choice, others, shown_ids};
use yv_node_content::NodeKind;
use yv_nodes::{Node, NodeId};
use yv_schema_tables::Schema;
use yv_tree_drawing::WayStep;

/// What is drawn: a schema, its modules, the number of the file of one of these, and how: how many
/// levels of nodes, the way to the node below which all is shown, and whether types begin in
/// columns.
#[derive(Clone, Copy)]
pub(crate) struct Subject<'a> {
    pub(crate) schema: &'a Schema,
    pub(crate) modules: &'a Modules<'a>,
    pub(crate) own: u32,
    pub(crate) depth: Option<u32>,
    pub(crate) below: &'a [WayStep],
    pub(crate) columns: bool,
}

impl Subject<'_> {
    /// Puts the lines of a group of nodes, in order, of which so many levels are left. Where none
    /// is left, three dots stand for all of them, and those below aren't visited.
    #[cycle(draw)]
    pub(crate) fn nodes<P: Paper>(
        &self,
        group: &Group<'_>,
        left: Option<u32>,
        margin: &Margin<'_>,
        paper: &mut P,
        page: &mut P::Page,
    )
        requires children { All (IsChild self.now.schema.now group.now.parent) group.now.ids.now }
        requires trees { AreTrees self.now.schema.now group.now.ids.now }
        ensures { Adds
            (text_of (drawn_nodes
            (sheet_with self.now.modules.now self.now.own self.now.columns) group.now.in_choice left
            (margin_text margin.now)
            (trimmed_trees group.now.way.now (forest self.now.schema.now group.now.ids.now))))
            (P.output page.old paper.old) (P.output page.new paper.new) }
    {
        if none_left(left) {
            self.dots(group, margin, paper, page);
        } else {
            self.each(
                group,
                self.width(group),
                one_less(left),
                margin,
                paper,
                page,
            );
        }
    }

    // Puts the lines of a group of nodes of this width, in order, below which so many levels are
    // left. A node waits until it is known whether one with a line follows.
    #[cycle(draw)]
    fn each<P: Paper>(
        &self,
        group: &Group<'_>,
        width: u128,
        left: Option<u32>,
        margin: &Margin<'_>,
        paper: &mut P,
        page: &mut P::Page,
    )
        requires children { All (IsChild self.now.schema.now group.now.parent) group.now.ids.now }
        requires trees { AreTrees self.now.schema.now group.now.ids.now }
        ensures { Adds
            (trees_text (form_with
            (sheet_with self.now.modules.now self.now.own self.now.columns) group.now.in_choice
            width left (margin_text margin.now) group.now.way.now)
            (forest self.now.schema.now group.now.ids.now))
            (P.output page.old paper.old) (P.output page.new paper.new) }
    {
        let mut last = None;
        for id in group.ids {
            if has_line(self.schema, *id, group.way) {
                self.draw_waiting(group, last, width, left, true, margin, paper, page);
                last = Some(*id);
            }
        }
        self.draw_waiting(group, last, width, left, false, margin, paper, page);
    }

    #[cycle(draw)]
    fn draw_waiting<P: Paper>(
        &self,
        group: &Group<'_>,
        last: Option<NodeId>,
        width: u128,
        left: Option<u32>,
        follows: bool,
        margin: &Margin<'_>,
        paper: &mut P,
        page: &mut P::Page,
    )
        requires { IfSome last (IsChild self.now.schema.now group.now.parent) }
        ensures { Adds
            (waiting_text self.now.schema.now (form_with
            (sheet_with self.now.modules.now self.now.own self.now.columns) group.now.in_choice
            width left (margin_text margin.now) group.now.way.now) follows last)
            (P.output page.old paper.old) (P.output page.new paper.new) }
    {
        if let Some(id) = last {
            self.node(group, id, width, left, follows, margin, paper, page);
        }
    }

    // A node of a group and those below it. Nothing is done for paper that has failed, since it
    // takes no more.
    #[cycle(draw)]
    fn node<P: Paper>(
        &self,
        group: &Group<'_>,
        id: NodeId,
        width: u128,
        left: Option<u32>,
        follows: bool,
        margin: &Margin<'_>,
        paper: &mut P,
        page: &mut P::Page,
    )
        requires { id.0 < length self.now.schema.now.nodes }
        ensures { Adds
            (shown_text (form_with
            (sheet_with self.now.modules.now self.now.own self.now.columns) group.now.in_choice
            width left (margin_text margin.now) group.now.way.now) follows
            (tree_of self.now.schema.now id))
            (P.output page.old paper.old) (P.output page.new paper.new) }
    {
        if paper.has_failed() {
            return;
        }
        let node = self.schema.node(id);
        if self.lacks_case(group.in_choice, node) {
            let inner = Margin::Below(&*margin, follows);
            let alone = label_width(self, node);
            self.case_line(id, margin, paper, page);
            self.node_lines(id, group.way, alone, left, false, &inner, paper, page);
        } else {
            self.node_lines(id, group.way, width, left, follows, margin, paper, page);
        }
    }

    // The line of a node in a group of this width, and the nodes below it, for which these steps
    // are left.
    #[cycle(draw)]
    fn node_lines<P: Paper>(
        &self,
        id: NodeId,
        way: &[WayStep],
        width: u128,
        left: Option<u32>,
        follows: bool,
        margin: &Margin<'_>,
        paper: &mut P,
        page: &mut P::Page,
    )
        requires { id.0 < length self.now.schema.now.nodes }
        ensures { Adds
            (text_of (node_lines
            (sheet_with self.now.modules.now self.now.own self.now.columns) width
            left (margin_text margin.now) follows
            (trimmed_tree way.now (tree_of self.now.schema.now id))))
            (P.output page.old paper.old) (P.output page.new paper.new) }
    {
        self.line(id, width, margin, paper, page);
        let below = Margin::Below(&*margin, follows);
        let node = self.schema.node(id);
        let group = Group {
            parent: id,
            in_choice: is_choice(node.kind()),
            ids: shown_ids(
                self.schema,
                Some(node.module_file()),
                id,
                self.schema.children(id),
                way,
            ),
            way: others(way),
        };
        self.nodes(&group, left, &below, paper, page);
    }

    // Puts three dots in the place of a group of nodes, where one of them has a line.
    fn dots<P: Paper>(
        &self,
        group: &Group<'_>,
        margin: &Margin<'_>,
        paper: &mut P,
        page: &mut P::Page,
    )
        requires children { All (IsChild self.now.schema.now group.now.parent) group.now.ids.now }
        requires trees { AreTrees self.now.schema.now group.now.ids.now }
        ensures { Adds
            (text_of (dots (margin_text margin.now)
            (any_line (trimmed_trees group.now.way.now
            (forest self.now.schema.now group.now.ids.now)))))
            (P.output page.old paper.old) (P.output page.new paper.new) }
    {
        if self.any_line(group) {
            put_margin(margin, paper, page);
            paper.put(page, "...\n");
        }
    }

    // Whether one of a group of nodes has a line.
    fn any_line(&self, group: &Group<'_>) -> bool
        requires children { All (IsChild self.now.schema.now group.now.parent) group.now.ids.now }
        requires trees { AreTrees self.now.schema.now group.now.ids.now }
        ensures { result
            ≡ any_line (trimmed_trees group.now.way.now
            (forest self.now.schema.now group.now.ids.now)) }
    {
        for id in group.ids {
            if has_line(self.schema, *id, group.way) {
                return true;
            }
        }
        false
    }

    // The width of a group of nodes, where types begin in columns. It isn't asked for elsewhere.
    fn width(&self, group: &Group<'_>) -> u128
        requires children { All (IsChild self.now.schema.now group.now.parent) group.now.ids.now }
        requires trees { AreTrees self.now.schema.now group.now.ids.now }
        ensures { self.now.columns ≡ true → result
            ≡ width (sheet_with self.now.modules.now self.now.own self.now.columns)
            (trimmed_trees group.now.way.now (forest self.now.schema.now group.now.ids.now)) }
    {
        if self.columns {
            self.greatest(group)
        } else {
            0
        }
    }

    // The width of a group of nodes: the greatest of those of its nodes.
    fn greatest(&self, group: &Group<'_>) -> u128
        requires children { All (IsChild self.now.schema.now group.now.parent) group.now.ids.now }
        requires trees { AreTrees self.now.schema.now group.now.ids.now }
        ensures { result
            ≡ width (sheet_with self.now.modules.now self.now.own self.now.columns)
            (trimmed_trees group.now.way.now (forest self.now.schema.now group.now.ids.now)) }
    {
        let mut greatest = 0;
        for id in group.ids {
            greatest = greater(greatest, self.tree_width(*id, group.way));
        }
        greatest
    }

    // What a node adds to the width of its group: 0 where it has no line.
    fn tree_width(&self, id: NodeId, way: &[WayStep]) -> u128
        requires { id.0 < length self.now.schema.now.nodes }
        ensures { result
            ≡ tree_width (sheet_with self.now.modules.now self.now.own self.now.columns)
            (trimmed_tree way.now (tree_of self.now.schema.now id)) }
    {
        if has_line(self.schema, id, way) {
            label_width(self, self.schema.node(id))
        } else {
            0
        }
    }

    // Whether a case is written out before a node, which may be in a choice.
    fn lacks_case(&self, in_choice: bool, node: &Node) -> bool
        ensures { result
            ≡ lacks_case (sheet_with self.now.modules.now self.now.own self.now.columns) in_choice
            node.now.label }
    {
        self.columns && (in_choice && !is_case(node.kind()))
    }

    // Puts the line of a node in a group of this width.
    fn line<P: Paper>(
        &self,
        id: NodeId,
        width: u128,
        margin: &Margin<'_>,
        paper: &mut P,
        page: &mut P::Page,
    )
        requires { id.0 < length self.now.schema.now.nodes }
        ensures { Adds (margin_text margin.now
            ++ sheet_line (sheet_with self.now.modules.now self.now.own self.now.columns) width
            (row_at self.now.schema.now id).label
            ++ codes "\n")
            (P.output page.old paper.old) (P.output page.new paper.new) }
    {
        put_margin(margin, paper, page);
        put_sheet_line(self, width, self.schema.node(id), paper, page);
        paper.put(page, "\n");
    }

    // Puts the line of the case that is written out before a node.
    fn case_line<P: Paper>(
        &self,
        id: NodeId,
        margin: &Margin<'_>,
        paper: &mut P,
        page: &mut P::Page,
    )
        requires { id.0 < length self.now.schema.now.nodes }
        ensures { Adds (margin_text margin.now
            ++ case_line (sheet_with self.now.modules.now self.now.own self.now.columns)
            (row_at self.now.schema.now id).label
            ++ codes "\n")
            (P.output page.old paper.old) (P.output page.new paper.new) }
    {
        put_margin(margin, paper, page);
        put_case_line(self, self.schema.node(id), paper, page);
        paper.put(page, "\n");
    }
}

// Whether a node of this kind is a case.
fn is_case(kind: NodeKind) -> bool
    ensures { result ≡ is_case kind }
{
    matches!(kind, NodeKind::Case)
}

fn greater(left: u128, right: u128) -> u128
    ensures { result ≡ max left right }
{
    if left < right { right } else { left }
}

// Whether no level is left to be drawn.
fn none_left(left: Option<u32>) -> bool
    ensures { result ≡ none_left left }
{
    left == Some(0)
}

// One level fewer.
fn one_less(left: Option<u32>) -> Option<u32>
    requires { none_left left ≡ false }
    ensures { result ≡ one_less left }
{
    match left {
        Some(levels) => Some(levels - 1),
        None => None,
    }
}
