//! The parts of a diagram.
ghost use Rattle.std.specs.{Prelude.{◌≡◌, ◌==◌, [], ◌++◌, ◌<◌, All, IfOk, None, Some, codes, false, length, map, if◌then◌else◌}, Option.{option_map}};
ghost use Rattle.yv_nodes.specs.Rows.{row_at, forest, AreTrees};
ghost use Rattle.yv_schema_tables.specs.Sound.{IsChild, IsNote, IsSound};
ghost use Rattle.yv_base_streams.specs.Pages.{Adds};
ghost use Rattle.yv_tree.specs.{Columns.{is_choice}, Diagram.{belongs, first_module_file, is_shown, is_top, text_of, tops}, DrawnDiagram.{drawn_augment, drawn_section, drawn_tops, sheet_of, spaced_sections, tops_section}, DrawnNodes.{drawn_nodes}, InnerDraw.{drawing_with, sheet_with}, InnerPart.{trimmed_trees}, InnerSections.{apart, next_due}, Part.{part, steps_behind, way_to}};

use crate::draw::Subject;
use crate::margin::Margin;
use crate::paper::Paper;
use crate::way::{Group, is_choice, others, shown_ids, steps_behind};
use std::alloc::{AllocError, Global};
use yv_node_content::NodeKind;
use yv_nodes::NodeId;
use yv_schema_tables::laws::children_are_trees;
use yv_schema_tables::{AugmentNote, Schema};
use yv_tree_drawing::WayStep;

/// A part of a diagram.
#[derive(Clone, Copy)]
pub(crate) enum Part {
    /// The data nodes at the top.
    Data,
    /// The operations at the top.
    Rpcs,
    /// The notifications at the top.
    Notifications,
}

impl<'a> Subject<'a> {
    /// Puts the lines of nodes at the top.
    pub(crate) fn top_nodes<P: Paper>(&self, ids: &[NodeId], paper: &mut P, page: &mut P::Page)
        requires modules { self.now.modules.now ≡ self.now.schema.now.modules }
        requires children { All (IsChild self.now.schema.now Schema.ROOT) ids.now }
        requires trees { AreTrees self.now.schema.now ids.now }
        ensures { let drawing = drawing_with self.now.depth self.now.below.now self.now.columns in
            Adds (text_of (drawn_nodes (sheet_of self.now.schema.now self.now.own drawing) false
            self.now.depth (codes "  ")
            (drawn_tops self.now.schema.now self.now.own drawing ids.now)))
            (P.output page.old paper.old) (P.output page.new paper.new) }
    {
        self.nodes(&self.tops_group(ids), self.depth, &Margin::Top, paper, page);
    }

    // The group of those of these nodes at the top that are shown.
    fn tops_group<'b>(&'b self, ids: &'b [NodeId]) -> Group<'b>
        requires children { All (IsChild self.now.schema.now Schema.ROOT) ids.now }
        requires trees { AreTrees self.now.schema.now ids.now }
        ensures part { part None self.now.below.now (forest self.now.schema.now ids.now)
            ≡ trimmed_trees result.way.now (forest self.now.schema.now result.ids.now) }
        ensures children { All (IsChild self.now.schema.now result.parent) result.ids.now }
        ensures trees { AreTrees self.now.schema.now result.ids.now }
        ensures choice { result.in_choice ≡ false }
    {
        Group {
            parent: Schema::ROOT,
            in_choice: false,
            ids: shown_ids(self.schema, None, Schema::ROOT, ids, self.below),
            way: others(self.below),
        }
    }

    /// Puts the sections of the augments, each after an empty line, and in columns only the first.
    pub(crate) fn augments<P: Paper>(&self, paper: &mut P, page: &mut P::Page)
        requires { self.now.modules.now ≡ self.now.schema.now.modules }
        ensures { let drawing = drawing_with self.now.depth self.now.below.now self.now.columns in
            Adds (text_of (spaced_sections self.now.columns
            (map (drawn_augment self.now.schema.now self.now.own drawing)
            self.now.schema.now.augments)))
            (P.output page.old paper.old) (P.output page.new paper.new) }
    {
        let mut is_due = true;
        for augment in self.schema.augments() {
            is_due = self.augment(is_due, augment, paper, page);
        }
    }

    // Puts the section of an augment, where it is shown, after an empty line where that is due.
    // Answers whether one is due before the next section.
    fn augment<P: Paper>(
        &self,
        is_due: bool,
        augment: &AugmentNote,
        paper: &mut P,
        page: &mut P::Page,
    ) -> bool
        requires modules { self.now.modules.now ≡ self.now.schema.now.modules }
        requires note { IsNote self.now.schema.now augment.now }
        requires sound { IsSound self.now.schema.now }
        ensures put { let drawing = drawing_with self.now.depth self.now.below.now self.now.columns
            in Adds
            (text_of (apart is_due
            (drawn_augment self.now.schema.now self.now.own drawing augment.now)))
            (P.output page.old paper.old) (P.output page.new paper.new) }
        ensures next { let drawing = drawing_with self.now.depth self.now.below.now self.now.columns
            in result ≡ next_due self.now.columns is_due
            (drawn_augment self.now.schema.now self.now.own drawing augment.now) }
    {
        if !self.is_shown(augment) {
            return is_due;
        }
        match self.behind(augment.target) {
            Some(way) => {
                let group = self.added_group(augment, way);
                let argument = augment.argument.as_str();
                self.section(is_due, "augment ", argument, &group, paper, page)
            }
            None => is_due,
        }
    }

    // The group of those of the nodes that an augment adds that are shown, where these steps are
    // left behind its target.
    fn added_group<'b>(&'b self, augment: &'b AugmentNote, way: &'b [WayStep]) -> Group<'b>
        requires note { IsNote self.now.schema.now augment.now }
        requires sound { IsSound self.now.schema.now }
        ensures part { part (Some (row_at self.now.schema.now augment.now.target).label.module_file)
            way.now (forest self.now.schema.now augment.now.nodes)
            ≡ trimmed_trees result.way.now (forest self.now.schema.now result.ids.now) }
        ensures children { All (IsChild self.now.schema.now result.parent) result.ids.now }
        ensures trees { AreTrees self.now.schema.now result.ids.now }
        ensures choice { result.in_choice
            ≡ is_choice (row_at self.now.schema.now augment.now.target).label.defined.kind }
    {
        children_are_trees();
        let target = self.schema.node(augment.target);
        let above = Some(target.module_file());
        let ids = augment.nodes.as_slice();
        Group {
            parent: augment.target,
            in_choice: is_choice(target.kind()),
            ids: shown_ids(self.schema, above, augment.target, ids, way),
            way: others(way),
        }
    }

    /// Puts the section of nodes at the top, where any is shown, after an empty line.
    pub(crate) fn tops_section<P: Paper>(
        &self,
        title: &str,
        ids: &[NodeId],
        paper: &mut P,
        page: &mut P::Page,
    )
        requires modules { self.now.modules.now ≡ self.now.schema.now.modules }
        requires children { All (IsChild self.now.schema.now Schema.ROOT) ids.now }
        requires trees { AreTrees self.now.schema.now ids.now }
        ensures { let drawing = drawing_with self.now.depth self.now.below.now self.now.columns in
            Adds (text_of (tops_section self.now.schema.now self.now.own drawing title.now ids.now))
            (P.output page.old paper.old) (P.output page.new paper.new) }
    {
        let _ = self.section(true, title, "", &self.tops_group(ids), paper, page);
    }

    // Puts a section with a group of nodes, where there are any, after an empty line where that is
    // due. Answers whether one is due before the next section.
    fn section<P: Paper>(
        &self,
        is_due: bool,
        word: &str,
        argument: &str,
        group: &Group<'_>,
        paper: &mut P,
        page: &mut P::Page,
    ) -> bool
        requires children { All (IsChild self.now.schema.now group.now.parent) group.now.ids.now }
        requires trees { AreTrees self.now.schema.now group.now.ids.now }
        ensures put { Adds
            (text_of (apart is_due (drawn_section
            (sheet_with self.now.modules.now self.now.own self.now.columns) group.now.in_choice
            self.now.depth (word.now ++ argument.now)
            (trimmed_trees group.now.way.now (forest self.now.schema.now group.now.ids.now)))))
            (P.output page.old paper.old) (P.output page.new paper.new) }
        ensures next { result ≡ next_due self.now.columns is_due (drawn_section
            (sheet_with self.now.modules.now self.now.own self.now.columns) group.now.in_choice
            self.now.depth (word.now ++ argument.now)
            (trimmed_trees group.now.way.now (forest self.now.schema.now group.now.ids.now))) }
    {
        if group.ids.is_empty() {
            return is_due;
        }
        paper.put(page, line_feed_if(is_due));
        paper.put(page, "  ");
        paper.put(page, word);
        paper.put(page, argument);
        paper.put(page, ":\n");
        self.nodes(group, self.depth, &Margin::Section, paper, page);
        !self.columns
    }

    // Whether an augment is one of this module, and shows nodes that are below no node of it.
    fn is_shown(&self, augment: &AugmentNote) -> bool
        requires { IsNote self.now.schema.now augment.now }
        ensures { result ≡ is_shown self.now.schema.now self.now.own augment.now }
    {
        augment.module_file == self.own
            && !self.is_own(self.first(augment.target))
            && !self.is_own(augment.target)
    }

    // Whether a node is in the namespace of the module.
    fn is_own(&self, id: NodeId) -> bool
        requires { id.0 < length self.now.schema.now.nodes }
        ensures { result ≡ ((row_at self.now.schema.now id).label.module_file == self.now.own) }
    {
        self.schema.node(id).module_file() == self.own
    }

    // The node at the top of the way to this one.
    fn first(&self, id: NodeId) -> NodeId
        requires { id.0 < length self.now.schema.now.nodes }
        ensures within { result.0 < length self.now.schema.now.nodes }
        ensures value { first_module_file self.now.schema.now id
            ≡ (row_at self.now.schema.now result).label.module_file }
    {
        let parent = self.schema.node(id).parent();
        if parent == Schema::ROOT {
            id
        } else {
            self.first(parent)
        }
    }

    // The steps that are left behind a node of those on the way to what is shown: None where they
    // lead elsewhere.
    fn behind(&self, id: NodeId) -> Option<&'a [WayStep]>
        requires { id.0 < length self.now.schema.now.nodes }
        ensures { option_map (λ steps. steps.now) result
            ≡ steps_behind None self.now.below.now (way_to self.now.schema.now id) }
    {
        let node = self.schema.node(id);
        let parent = node.parent();
        if parent == Schema::ROOT {
            steps_behind(None, self.below, node)
        } else {
            let above = self.schema.node(parent).module_file();
            steps_behind(Some(above), self.behind(parent)?, node)
        }
    }

    /// The nodes of the module at the top that belong to a part.
    pub(crate) fn tops(&self, alloc: Global, part: Part) -> Result<Vec<NodeId>, AllocError>
        ensures value { IfOk result (λ v. v.items ≡ tops self.now.schema.now self.now.own part) }
        ensures children { IfOk result
            (λ v. All (IsChild self.now.schema.now Schema.ROOT) v.items) }
        ensures trees { IfOk result (λ v. AreTrees self.now.schema.now v.items) }
    {
        children_are_trees();
        let mut found = Vec::new(alloc);
        for id in self.schema.children(Schema::ROOT) {
            if self.is_top(*id, part) {
                found.push(*id)?;
            }
        }
        Ok(found)
    }

    fn is_top(&self, id: NodeId, part: Part) -> bool
        requires { id.0 < length self.now.schema.now.nodes }
        ensures { result ≡ is_top self.now.schema.now self.now.own part id }
    {
        self.is_own(id) && belongs(self.schema.node(id).kind(), part)
    }
}

// A line feed, or nothing.
fn line_feed_if(is_due: bool) -> &'static str
    ensures { result.now ≡ (if is_due then codes "\n" else []) }
{
    if is_due { "\n" } else { "" }
}

fn belongs(kind: NodeKind, part: Part) -> bool
    ensures { result ≡ belongs kind part }
{
    match (kind, part) {
        (NodeKind::Rpc, Part::Rpcs) | (NodeKind::Notification, Part::Notifications) => true,
        (NodeKind::Rpc | NodeKind::Notification, _) => false,
        (_, Part::Data) => true,
        (_, _) => false,
    }
}
