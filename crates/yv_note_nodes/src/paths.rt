//! Paths of leafrefs.
use crate::explanation::Explanation;
use crate::lists::has_value;
use crate::nodes::{Steps, Way, follow, root_of};
use crate::tree::Tree;
use std::alloc::{AllocError, Global};
use yv_note_statements::{Message, Site, chain, say_ring};
use yv_text_statement::{Code, Keyword};

// The `path` of a leafref, with the typedefs through which it is one.
fn path_of<'s, 'a>(alloc: Global, leaf: &Site<'s, 'a>) -> Result<Option<Site<'s, 'a>>, AllocError> {
    let Some(own_type) = leaf.child(Keyword::Type) else {
        return Ok(None);
    };
    let types = chain(alloc, &own_type)?;
    match types.last() {
        Some(first) => Ok(first.child(Keyword::Path)),
        None => Ok(None),
    }
}

// Follows the path of a leafref.
fn way_of<'s, 'a>(
    tree: &mut Tree<'s, 'a>,
    leaf: &Site<'s, 'a>,
    path: &Site<'s, 'a>,
) -> Result<Way<'s, 'a>, AllocError> {
    let text = path.argument();
    if text.starts_with('/') {
        return match root_of(path, text) {
            Some(root) => follow(tree, &root, text, Steps::Data),
            None => Ok(Way::Unknown),
        };
    }
    match climb(tree, leaf, text) {
        Some((start, rest)) => follow(tree, &start, rest, Steps::Data),
        None => Ok(Way::Above),
    }
}

// The node to which the `..` of a path lead, and the rest of the path. None above the top of the
// module.
fn climb<'s, 'a>(
    tree: &Tree<'s, 'a>,
    leaf: &Site<'s, 'a>,
    path: &'a str,
) -> Option<(Site<'s, 'a>, &'a str)> {
    let mut at = *leaf;
    let mut rest = path;
    for _ in 0..path.len() {
        match rest.strip_prefix("../") {
            Some(behind) => rest = behind,
            None => break,
        }
        at = above(tree, &at)?;
    }
    Some((at, rest))
}

// The node above another one, or the module's root above its top.
fn above<'s, 'a>(tree: &Tree<'s, 'a>, node: &Site<'s, 'a>) -> Option<Site<'s, 'a>> {
    match tree.node_above(node) {
        Some(node) => Some(node),
        None if node.is_root() => None,
        None => node.module(),
    }
}

/// Adds where the path of a leafref leads wrong.
pub fn tell_path<'a>(telling: &mut Message<'a>, leaf: &Site<'_, 'a>) -> Result<(), AllocError> {
    let Some(path) = path_of(telling.alloc(), leaf)? else {
        telling.sentence(Code::BadPath);
        return Ok(());
    };
    telling.subject("The path of ", " is wrong: ");
    telling.quote("", path.argument(), "");
    if !is_within(&path, leaf) {
        telling.point(" at ", &path, "");
    }
    telling.say(".");
    let mut explanation = Explanation::around(telling, leaf)?;
    explanation.say_path_of(leaf, &path)
}

impl<'s, 'a> Explanation<'_, 's, 'a> {
    // Adds where the path of a leafref leads wrong, and how it may be written.
    fn say_path_of(&mut self, leaf: &Site<'s, 'a>, path: &Site<'s, 'a>) -> Result<(), AllocError> {
        let is_absolute = path.argument().starts_with('/');
        let way = way_of(&mut self.tree, leaf, path)?;
        match way {
            Way::Until(node, name) => self.say_no_node(&node, name, Steps::Data)?,
            _ => {
                if is_absolute && self.say_foreign_step(path, Steps::Data)? {
                    return Ok(());
                }
                self.say_way(leaf, &way);
            }
        }
        if is_absolute {
            self.say_prefixed(path, Steps::Data)
        } else {
            self.say_climb(leaf, path.argument())
        }
    }

    // Adds the path with one `..` more or less, if that leads to a leaf or a leaf-list.
    fn say_climb(&mut self, leaf: &Site<'s, 'a>, path: &'a str) -> Result<(), AllocError> {
        if is_way(&mut self.tree, leaf, path, true)? {
            self.message
                .quote_joined(" Did you mean ", "../", path, "?");
        } else if let Some(shorter) = path.strip_prefix("../") {
            if shorter.starts_with("../") && is_way(&mut self.tree, leaf, shorter, false)? {
                self.message.quote(" Did you mean ", shorter, "?");
            }
        }
        Ok(())
    }

    // Adds where the path of a leafref leads.
    fn say_way(&mut self, leaf: &Site<'s, 'a>, way: &Way<'s, 'a>) {
        match way {
            Way::Above => self.message.say(
                " It goes above the top of the module: it has a `..` too many.",
            ),
            Way::To(node) => self.say_target(leaf, node),
            _ => {}
        }
    }

    // Adds why the path of a leafref can't lead to this node.
    fn say_target(&mut self, leaf: &Site<'s, 'a>, node: &Site<'s, 'a>) {
        let (before, after) = if !has_value(node) {
            (
                " It leads to the ",
                ", and has to lead to a leaf or leaf-list.",
            )
        } else if self.tree.state_above(node).is_some() && self.tree.state_above(leaf).is_none() {
            (" The ", " is state, and this leafref is configuration.")
        } else {
            (
                " The ",
                " can't be referred to: look at the prefixes and the conditions on the way.",
            )
        };
        self.message.statement_at(before, node, after);
    }
}

// Whether a path leads from a leaf, or from the node above it, to another leaf or leaf-list.
fn is_way<'s, 'a>(
    tree: &mut Tree<'s, 'a>,
    leaf: &Site<'s, 'a>,
    path: &'a str,
    is_above: bool,
) -> Result<bool, AllocError> {
    let Some(start) = (if is_above {
        above(tree, leaf)
    } else {
        Some(*leaf)
    }) else {
        return Ok(false);
    };
    let Some((node, rest)) = climb(tree, &start, path) else {
        return Ok(false);
    };
    match follow(tree, &node, rest, Steps::Data)? {
        Way::To(target) => Ok(has_value(&target) && target.number != leaf.number),
        _ => Ok(false),
    }
}

// Whether a path is in the `type` of a leaf.
fn is_within(path: &Site<'_, '_>, leaf: &Site<'_, '_>) -> bool {
    path.parent()
        .is_some_and(|around| around.entry.scope == leaf.number)
}

/// How many leafrefs of a cycle are followed.
const MOST_LEAFREFS: usize = 64;

/// Adds the leafrefs that one leads to, up to itself.
pub fn tell_path_cycle<'a>(
    telling: &mut Message<'a>,
    leaf: &Site<'_, 'a>,
) -> Result<(), AllocError> {
    let mut tree = Tree::explain(telling, Code::PathCycle, leaf)?;
    let mut ring = Vec::new(telling.alloc());
    let mut at = *leaf;
    for _ in 0..MOST_LEAFREFS {
        let Some(target) = target_of(&mut tree, &at)? else {
            break;
        };
        ring.push(target.number)?;
        if target.number == leaf.number {
            say_ring(telling, leaf, &ring);
            break;
        }
        at = target;
    }
    Ok(())
}

// The target of a leafref.
fn target_of<'s, 'a>(
    tree: &mut Tree<'s, 'a>,
    leaf: &Site<'s, 'a>,
) -> Result<Option<Site<'s, 'a>>, AllocError> {
    let Some(path) = path_of(tree.alloc(), leaf)? else {
        return Ok(None);
    };
    match way_of(tree, leaf, &path)? {
        Way::To(node) => Ok(Some(node)),
        _ => Ok(None),
    }
}
