//! A schema, and how its nodes are found.
ghost use Rattle.std.specs.Prelude.{◌≡◌, ◌<◌, ◌≤◌, ◌==◌, ◌+◌, length, All, IfSome};
ghost use Rattle.yv_values.specs.Count.{count_up};

use crate::data_nodes::DataNodes;
use crate::directory::Directory;
use crate::member::Member;
use crate::names::NameTable;
use crate::notes::{AugmentNote, Module};
use std::collections::BTreeMap;
use std::marker::Model;
use std::rc::RcStr;
use yv_node_keys::LeafTargets;
use yv_nodes::{Link, Links, Node, NodeId, Nodes};
use yv_values::Meter;

/// The schema of modules: nodes with numbers from 0, each after its parent. Contracts see its rows,
/// and by them the tree that they represent.
#[derive(Drop)]
pub struct Schema {
    pub(crate) nodes: Nodes,
    pub(crate) top: Vec<NodeId>,
    /// The numbers of the files of the modules, by name.
    pub(crate) module_files: BTreeMap<RcStr, u32>,
    /// The numbers of the nodes' names.
    pub(crate) names: NameTable,
    /// What the members of the root's object name, with choices and cases opened.
    pub(crate) at_top: Directory,
    /// For each node what the members of its object name, and nothing for a choice or case.
    pub(crate) directories: Vec<Directory>,
    /// What lists and choices name.
    pub(crate) leafs: LeafTargets,
    /// The implemented modules, by file.
    pub(crate) implemented: Vec<Module>,
    /// The augments.
    pub(crate) notes: Vec<AugmentNote>,
    /// Where the paths of leafrefs lead.
    pub(crate) links: Links,
}

impl Model for Schema {
    ghost use Rattle.yv_nodes.specs.Rows.{Rows};
    ghost use Rattle.yv_schema_tables.specs.{InnerTables.{IsHeld}, NodeNumbers.{made_of}};

    ghost Value = { Rows };

    ghost view = { λ s. made_of s.nodes.rows s.top.items s.nodes.limit s.implemented.items
        s.notes.items s.links };

    ghost invariant = { λ s. IsHeld s.module_files s.names s.at_top s.directories.items s.leafs
        (made_of s.nodes.rows s.top.items s.nodes.limit s.implemented.items s.notes.items s.links) };
}

impl Schema {
    ghost use Rattle.std.specs.{Option.{option_map}, Prelude.{ℕ, List, ◌∷◌, ◌++◌, Some, None, is_some, map, IfNone}};
    ghost use Rattle.yv_node_keys.specs.Numbers.{default_case_at, key_leaf_at, unique_leaf_at};
    ghost use Rattle.yv_nodes.specs.{Link.{AreLinked, reference_in}, Tree.{count}, Rows.{AreTrees, row_at, children_of, rank, whole}, declared.node.NodeId.{NodeId}};
    ghost use Rattle.yv_schema_tables.specs.{Sound.{IsSound, IsChild, IsInside, IsNote, inside, is_known, member_named, object_trees}, DataNodes.{data_nodes_from}, InnerTables.{IsAnswering, directory_entry, module_file_named}, NodeNumbers.{HasNoColon}};

    /// The parent of the nodes at the top.
    pub const ROOT: NodeId = NodeId(u32::MAX);

    /// How many nodes there are: never more than the limit.
    pub fn len(&self) -> u32
        // The number of nodes, which is that of the tree, and at most the limit.
        ensures rows { result ≡ length self.now.nodes }
        // That is how many nodes its tree has.
        ensures nodes { result ≡ count (whole self.now) }
        // There are no more than the limit.
        ensures within { length self.now.nodes ≤ self.now.limit }
    {
        self.nodes.len()
    }

    /// The most nodes that there might have been: the limit on units that was given.
    pub fn limit(&self) -> u32
        ensures { result ≡ self.now.limit }
    {
        self.nodes.limit()
    }

    /// Whether the schema has no nodes.
    pub fn is_empty(&self) -> bool
        ensures { result ≡ (length self.now.nodes == 0) }
    {
        self.len() == 0
    }

    /// The nodes, by number.
    pub fn nodes(&self) -> &Nodes
        ensures { result.now.rows ≡ self.now.nodes }
    {
        &self.nodes
    }

    /// The numbers of the data nodes, in order (RFC 7950, section 3).
    pub fn data_nodes(&self) -> DataNodes<'_>
        ensures { result ≡ data_nodes_from 0 self.now.nodes }
    {
        let _count = self.nodes.len();
        DataNodes::of(self.nodes.all())
    }

    /// The node of this number.
    pub fn node(&self, id: NodeId) -> &Node
        // The number is that of a node.
        requires { id.0 < length self.now.nodes }
        // The row of that number.
        ensures value { result.now ≡ row_at self.now id }
        // The schema is sound: its rows are those of its tree, each data node of an object is found
        // by its member, each name of a key and each path of a `unique` statement names a leaf, and
        // each link leads to its target.
        ensures sound { IsSound self.now }
    {
        self.nodes.get(id)
    }

    /// The children of this node, or of the root, in the order of their statements.
    pub fn children(&self, parent: NodeId) -> &[NodeId]
        // The number is that of a node, or the root.
        requires { rank parent ≤ length self.now.nodes }
        // The numbers of the children, in order.
        ensures value { result.now ≡ children_of self.now parent }
        // Each is a child of the parent.
        ensures each { All (IsChild self.now parent) result.now }
        // They are the trees below it.
        ensures trees { AreTrees self.now result.now }
        // The schema is sound.
        ensures sound { IsSound self.now }
    {
        if parent == Schema::ROOT {
            self.top.as_slice()
        } else {
            self.node(parent).children()
        }
    }

    /// The numbers of the leafs that a list's key names, in order (RFC 7950, section 7.8.2): none
    /// without a key. Takes time log n.
    pub fn keys(&self, list: NodeId) -> &[NodeId]
        // The numbers of the leafs that the names of its key name, in order, one for each name.
        requires { list.0 < length self.now.nodes }
        // The numbers of the leafs that the names of its key name, in order, one for each name.
        ensures { map (λ n. Some n) result.now
            ≡ map (key_leaf_at self.now.nodes list) (row_at self.now list).label.defined.keys }
    {
        self.leafs.keys(list)
    }

    /// For each of a list's `unique` statements the numbers of the leafs that its paths name, in
    /// order (RFC 7950, section 7.8.3): at most 64 statements. Takes time log n.
    pub fn uniques(&self, list: NodeId) -> &[Vec<NodeId>]
        // For each of its `unique` statements the numbers of the leafs that its paths name, in
        // order, one for each path.
        requires { list.0 < length self.now.nodes }
        // For each of its `unique` statements the numbers of the leafs that its paths name, in
        // order, one for each path.
        ensures { map (λ leafs. map (λ n. Some n) leafs.items) result.now
            ≡ map (map (unique_leaf_at self.now.nodes list))
            (row_at self.now list).label.defined.uniques }
    {
        self.leafs.uniques(list)
    }

    /// The number of a choice's default case: a case, or a node that is a case of its own (RFC
    /// 7950, section 7.9.3). None where there is no default, and of a node that is not a choice.
    /// Takes time log n.
    pub fn default_case(&self, choice: NodeId) -> Option<NodeId>
        // The first node directly below it, of its own module, that has the name in its default;
        // none without a default, and for a node that is not a choice.
        requires { choice.0 < length self.now.nodes }
        // The first node directly below it, of its own module, that has the name in its default;
        // none without a default, and for a node that is not a choice.
        ensures { result ≡ default_case_at self.now.nodes choice }
    {
        self.leafs.default_case(choice)
    }

    /// The implemented modules, by file.
    pub fn modules(&self) -> &[Module]
        ensures { result.now ≡ self.now.modules }
    {
        self.implemented.as_slice()
    }

    /// The `augment` statements at the top of these modules.
    pub fn augments(&self) -> &[AugmentNote]
        // The notes on augments.
        ensures value { result.now ≡ self.now.augments }
        // Each is of nodes that are there.
        ensures each { All (IsNote self.now) result.now }
        // The schema is sound.
        ensures sound { IsSound self.now }
    {
        self.notes.as_slice()
    }

    /// Where the paths of the leafrefs lead.
    pub fn links(&self) -> &Links
        // The links of the leafrefs; each leads from the place to which it climbs to its target.
        ensures value { result.now ≡ self.now.links }
        // Each leads from the place to which it climbs to its target.
        ensures links { AreLinked (reference_in result.now) (whole self.now) }
        // The schema is sound.
        ensures sound { IsSound self.now }
    {
        &self.links
    }

    /// Where the path of a leafref leads, and whether it requires an instance (RFC 7950, sections
    /// 9.9.2 and 9.9.3): None of other nodes, and inside operations and notifications. Takes
    /// constant time.
    pub fn reference(&self, leafref: NodeId) -> Option<&Link>
        ensures { option_map (λ link. link.now) result ≡ reference_in self.now.links leafref.0 }
    {
        self.links.reference(leafref)
    }

    /// The data node that a JSON member of this name writes in an object of this node, or in that
    /// of the root: a child, or what is in its choices and cases (RFC 7950, section 7.9; RFC 7951,
    /// section 4). A choice or case has no object: below it nothing is found. The meter counts the
    /// look-up.
    pub fn find(&self, meter: &mut Meter, parent: NodeId, member: &str) -> Option<NodeId>
        // The number is that of a node, or the root.
        requires within { rank parent ≤ length self.now.nodes }
        // The first data node below the parent, through choices and cases, whose JSON member has
        // this name; none if the parent is a choice or case.
        ensures value { result ≡ member_named self.now (inside self.now parent) member.now }
        // It is inside the parent.
        ensures child { IfSome result (IsInside self.now parent) }
        // There is one exactly if an object of the parent may have such a member.
        ensures knows { is_some result ≡ is_known (object_trees self.now parent) member.now }
        // One look-up is counted.
        ensures steps { meter.new ≡ count_up (meter.old + 1) }
    {
        meter.visit();
        self.look_up(parent, member)
    }

    // The same, not counted.
    fn look_up(&self, parent: NodeId, member: &str) -> Option<NodeId>
        requires { rank parent ≤ length self.now.nodes }
        ensures value { result ≡ member_named self.now (inside self.now parent) member.now }
        ensures sound { IsSound self.now }
    {
        let directory = self.directory(parent);
        match member.split_once(':') {
            Some((module, name)) => self.find_in(directory, Some(self.module_file(module)?), name),
            None => self.find_in(directory, None, member),
        }
    }

    // What a directory has at a name after the name of the module of this file, or after none.
    fn find_in(&self, directory: &Directory, module_file: Option<u32>, name: &str) -> Option<NodeId>
        ensures { result ≡ directory_entry self.now.nodes directory.now module_file name.now }
    {
        let name = self.names.number(name)?;
        directory.get(Member { module_file, name })
    }

    // What the members of an object of this node, or of the root, name.
    fn directory(&self, parent: NodeId) -> &Directory
        requires { rank parent ≤ length self.now.nodes }
        ensures answers { IsAnswering self.now parent result.now }
        ensures sound { IsSound self.now }
    {
        if parent == Schema::ROOT {
            &self.at_top
        } else {
            &self.directories[parent.0 as usize]
        }
    }

    // The number of the file of the module of this name.
    fn module_file(&self, name: &str) -> Option<u32>
        ensures value { result ≡ module_file_named self.now.modules name.now }
        ensures unknown { IfNone result
            ((p : NodeId) (rest : List ℕ) → rank p ≤ length self.now.nodes → HasNoColon name.now
            → member_named self.now (inside self.now p) (name.now ++ 58 ∷ rest) ≡ None) }
    {
        self.module_files.get(name).copied()
    }
}
