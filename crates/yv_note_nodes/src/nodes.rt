//! The nodes of the schema that statements define.
use crate::augment_names::NamedAugments;
use crate::explanation::Explanation;
use crate::tree::Tree;
use std::alloc::AllocError;
use yv_link_scopes::local;
use yv_note_statements::{Site, module_of, nearest_site, say_guess};
use yv_text_statement::Keyword;

/// A step of a path takes as long as so many looks at statements, beside those at nodes.
const LOOKS_OF_STEP: usize = 10;

/// The same of a block that is searched, beside those at the statements in it.
const LOOKS_OF_BLOCK: usize = 10;

/// The keywords of nodes that have a name of their own.
pub(crate) static NAMED_NODES: &[Keyword] = &[
    Keyword::Leaf,
    Keyword::Container,
    Keyword::List,
    Keyword::LeafList,
    Keyword::Choice,
    Keyword::Case,
    Keyword::Anydata,
    Keyword::Anyxml,
    Keyword::Rpc,
    Keyword::Action,
    Keyword::Notification,
];

/// Whether nodes of this keyword are sides of operations, which have no name.
pub(crate) fn is_side(keyword: Keyword) -> bool {
    matches!(keyword, Keyword::Input | Keyword::Output)
}

// Whether a statement defines a node of the schema.
fn is_node(site: &Site<'_, '_>) -> bool {
    site.is_one_of(NAMED_NODES) || is_side(site.kind())
}

/// Which steps a path has: also to choices and cases, or only to data nodes.
#[derive(Clone, Copy, PartialEq, Eq, PartialOrd, Ord)]
pub(crate) enum Steps {
    Schema,
    Data,
}

// A search for the nodes of a node, or for the first one of a name.
#[derive(Drop)]
struct Search<'t, 's, 'a> {
    tree: &'t Tree<'s, 'a>,
    steps: Steps,
    name: Option<&'t str>,
    nodes: Vec<Site<'s, 'a>>,
    /// The blocks that are still to be searched, the next one last, and after them those of
    /// augments.
    blocks: Vec<Site<'s, 'a>>,
    augments: NamedAugments<'t, 's, 'a>,
    /// How many statements may still be looked at.
    looks: usize,
}

impl<'s, 'a> Search<'_, 's, 'a> {
    // Counts so many looks at statements. Whether they are allowed.
    fn look(&mut self, count: usize) -> bool {
        self.looks = self.looks.saturating_sub(count);
        self.looks > 0
    }

    // The nodes, and how many statements may then still be looked at. Each block takes some looks.
    fn run(mut self) -> Result<(Vec<Site<'s, 'a>>, usize), AllocError> {
        for _ in 0..self.looks {
            let Some(block) = self.next_block() else {
                break;
            };
            if !self.look(LOOKS_OF_BLOCK) || self.ends_in(&block)? {
                break;
            }
        }
        Ok((self.nodes, self.looks))
    }

    // The next block that is to be searched.
    fn next_block(&mut self) -> Option<Site<'s, 'a>> {
        match self.blocks.pop() {
            Some(block) => Some(block),
            None => self.augments.next(),
        }
    }

    // Adds the nodes of a block. Whether the search ends there.
    fn ends_in(&mut self, block: &Site<'s, 'a>) -> Result<bool, AllocError> {
        let tree = self.tree;
        for child in tree.children(block) {
            if !self.look(1) || self.ends_at(&child)? {
                return Ok(true);
            }
        }
        Ok(false)
    }

    // Whether the search is for nodes of any name, or of this one's.
    fn wants(&self, node: &Site<'s, 'a>) -> bool {
        match self.name {
            Some(name) => node_name(node) == name,
            None => true,
        }
    }

    // Adds a statement of a block that is a node, or where more nodes are. Whether the search ends
    // with it.
    fn ends_at(&mut self, child: &Site<'s, 'a>) -> Result<bool, AllocError> {
        if let Some(block) = block_at(child, self.steps) {
            self.blocks.push(block)?;
            return Ok(false);
        }
        if !is_node(child) || !self.wants(child) {
            return Ok(false);
        }
        self.nodes.push(*child)?;
        Ok(self.name.is_some())
    }
}

// What is searched for the nodes of a node.
#[derive(Clone, Copy, PartialEq, Eq)]
enum Reach {
    /// Its own block only.
    Block,
    /// Also the blocks of the augments whose path ends with its name.
    Augments,
}

// The nodes below a node, or the first one of this name.
fn find_nodes<'s, 'a>(
    tree: &mut Tree<'s, 'a>,
    node: &Site<'s, 'a>,
    steps: Steps,
    name: Option<&str>,
    reach: Reach,
) -> Result<Vec<Site<'s, 'a>>, AllocError> {
    let mut blocks = Vec::new(tree.alloc());
    blocks.push(*node)?;
    let search = Search {
        tree,
        steps,
        name,
        nodes: Vec::new(tree.alloc()),
        blocks,
        augments: match reach {
            Reach::Block => tree.no_augments(),
            Reach::Augments => tree.augments_of(node),
        },
        looks: tree.looks(),
    };
    let (nodes, looks) = search.run()?;
    tree.set_looks(looks);
    Ok(nodes)
}

/// The nodes below a node or at the top of a module, those of groupings, and of augments of its
/// name, too. Not all, if no further statement may be looked at then.
pub(crate) fn nodes_below<'s, 'a>(
    tree: &mut Tree<'s, 'a>,
    node: &Site<'s, 'a>,
    steps: Steps,
) -> Result<Vec<Site<'s, 'a>>, AllocError> {
    find_nodes(tree, node, steps, None, Reach::Augments)
}

/// The node of a name in the block of a node, of an `augment` or of a module, or in a grouping that
/// is used there.
pub(crate) fn node_in_block<'s, 'a>(
    tree: &mut Tree<'s, 'a>,
    block: &Site<'s, 'a>,
    steps: Steps,
    name: &str,
) -> Result<Option<Site<'s, 'a>>, AllocError> {
    tree.look(LOOKS_OF_STEP);
    let nodes = find_nodes(tree, block, steps, Some(name), Reach::Block)?;
    Ok(nodes.first().copied())
}

// The block whose nodes are those of the block in which this statement is.
fn block_at<'s, 'a>(child: &Site<'s, 'a>, steps: Steps) -> Option<Site<'s, 'a>> {
    match child.kind() {
        Keyword::Uses => child.meaning(),
        Keyword::Choice | Keyword::Case if steps == Steps::Data => Some(*child),
        _ => None,
    }
}

/// The name of a node: `input` and `output` have that of their keyword.
pub(crate) fn node_name<'a>(node: &Site<'_, 'a>) -> &'a str {
    if is_side(node.kind()) {
        node.keyword()
    } else {
        node.argument()
    }
}

/// The first of these nodes with this name.
pub(crate) fn node_named<'s, 'a>(nodes: &[Site<'s, 'a>], name: &str) -> Option<Site<'s, 'a>> {
    nodes.iter().copied().find(|node| node_name(node) == name)
}

/// How far a path was followed.
#[derive(Clone, Copy)]
pub(crate) enum Way<'s, 'a> {
    /// To this node.
    To(Site<'s, 'a>),
    /// To this node, which has none of this name below it.
    Until(Site<'s, 'a>, &'a str),
    /// Above the top of the module.
    Above,
    Unknown,
}

/// How many steps of a path are followed.
pub(crate) const MOST_STEPS: usize = 64;

/// Follows the names of a path from a node.
pub(crate) fn follow<'s, 'a>(
    tree: &mut Tree<'s, 'a>,
    start: &Site<'s, 'a>,
    path: &'a str,
    steps: Steps,
) -> Result<Way<'s, 'a>, AllocError> {
    let mut at = *start;
    for (place, step) in path.split('/').enumerate() {
        if step.is_empty() {
            continue;
        }
        if place > MOST_STEPS {
            return Ok(Way::Unknown);
        }
        match node_below(tree, &at, step, steps)? {
            Some(node) => at = node,
            None if tree.is_spent() => return Ok(Way::Unknown),
            None => return Ok(Way::Until(at, step)),
        }
    }
    Ok(Way::To(at))
}

/// The node of a name below another one.
pub(crate) fn node_below<'s, 'a>(
    tree: &mut Tree<'s, 'a>,
    node: &Site<'s, 'a>,
    name: &'a str,
    steps: Steps,
) -> Result<Option<Site<'s, 'a>>, AllocError> {
    let name = local(name);
    tree.look(LOOKS_OF_STEP);
    if let Some(below) = tree.known_node(node, steps, name) {
        return Ok(below);
    }
    let nodes = find_nodes(tree, node, steps, Some(name), Reach::Augments)?;
    let below = nodes.first().copied();
    if !tree.is_spent() {
        tree.keep(node, steps, name, below)?;
    }
    Ok(below)
}

/// The root of the module of a path that begins with `/`.
pub(crate) fn root_of<'s, 'a>(site: &Site<'s, 'a>, path: &str) -> Option<Site<'s, 'a>> {
    let first = path.split('/').find(|step| !step.is_empty())?;
    module_of(site, first)
}

impl<'s, 'a> Explanation<'_, 's, 'a> {
    /// Adds that a node has none of this name below it, and which one may be meant.
    pub(crate) fn say_no_node(
        &mut self,
        node: &Site<'s, 'a>,
        name: &'a str,
        steps: Steps,
    ) -> Result<(), AllocError> {
        self.message.quote(" There is no node ", name, "");
        self.message.statement_at(" in ", node, ".");
        let nodes = nodes_below(&mut self.tree, node, steps)?;
        say_guess(self.message, nearest_site(local(name), &nodes));
        Ok(())
    }
}
