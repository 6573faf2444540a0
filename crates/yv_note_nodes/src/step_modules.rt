//! Steps of a path whose prefix is that of another module than the node's.
use crate::explanation::Explanation;
use crate::nodes::{MOST_STEPS, Steps, node_in_block, root_of};
use crate::tree::Tree;
use std::alloc::AllocError;
use yv_link_scopes::{local, prefix_of};
use yv_note_statements::{Message, Site, declaration, prefix_of_module};
use yv_text_statement::Keyword;

/// How many augments of a node are searched.
const MOST_AUGMENTS: usize = 64;

// A node of the schema, and the module whose namespace has its name.
#[derive(Clone, Copy)]
struct Reached<'s, 'a> {
    node: Site<'s, 'a>,
    module: Site<'s, 'a>,
    /// Whether an `augment` adds it to the node above.
    is_added: bool,
}

// A node or an `augment` in whose block nodes are, and the module whose namespace has their names.
#[derive(Clone, Copy)]
struct Block<'s, 'a> {
    site: Site<'s, 'a>,
    module: Site<'s, 'a>,
}

impl<'s, 'a> Reached<'s, 'a> {
    // Whether a step that means this module, or any, can lead here.
    fn is_of(&self, module: Option<Site<'s, 'a>>) -> bool {
        module.is_none_or(|module| module.number == self.module.number)
    }
}

impl<'s, 'a> Explanation<'_, 's, 'a> {
    /// Adds which step of an absolute path has a prefix that is not that of the node's module, and
    /// how the step is written. Whether there is such a step.
    pub(crate) fn say_foreign_step(
        &mut self,
        site: &Site<'s, 'a>,
        steps: Steps,
    ) -> Result<bool, AllocError> {
        let path = site.argument();
        let Some(root) = root_of(site, path) else {
            return Ok(false);
        };
        let mut at = Reached {
            node: root,
            module: root,
            is_added: false,
        };
        for step in path.split('/').take(MOST_STEPS) {
            if step.is_empty() {
                continue;
            }
            let module = module_meant(site, step);
            match node_reached(&mut self.tree, &at, local(step), module, steps)? {
                Some(next) if next.is_of(module) => at = next,
                Some(next) => {
                    say_step(self.message, site, &at.node, step, &next);
                    return Ok(true);
                }
                None => return Ok(false),
            }
        }
        Ok(false)
    }
}

// The module that a step of a path means. A step without a prefix means that of the file, or in a
// grouping that of each `uses`, which is any here.
fn module_meant<'s, 'a>(site: &Site<'s, 'a>, step: &str) -> Option<Site<'s, 'a>> {
    match prefix_of(step) {
        Some(prefix) => declaration(site, prefix)?.meaning(),
        None if site.is(Keyword::Augment) => site.module(),
        None => None,
    }
}

// The node of a name below another one, in its block or in an `augment` of it: the first one of the
// module that is meant, if there is one, else the first one.
fn node_reached<'s, 'a>(
    tree: &mut Tree<'s, 'a>,
    at: &Reached<'s, 'a>,
    name: &str,
    module: Option<Site<'s, 'a>>,
    steps: Steps,
) -> Result<Option<Reached<'s, 'a>>, AllocError> {
    let mut first = None;
    for block in blocks_of(tree, at)?.iter() {
        let Some(node) = node_in_block(tree, &block.site, steps, name)? else {
            continue;
        };
        let reached = Reached {
            node,
            module: block.module,
            is_added: block.site.is(Keyword::Augment),
        };
        if reached.is_of(module) {
            return Ok(Some(reached));
        }
        first = first.or(Some(reached));
    }
    Ok(first)
}

// The blocks that the nodes below one may be in: its own, and those of the augments of it.
fn blocks_of<'s, 'a>(
    tree: &Tree<'s, 'a>,
    at: &Reached<'s, 'a>,
) -> Result<Vec<Block<'s, 'a>>, AllocError> {
    let mut blocks = Vec::new(tree.alloc());
    blocks.push(Block {
        site: at.node,
        module: at.module,
    })?;
    for site in tree.augments_of(&at.node).take(MOST_AUGMENTS) {
        if let Some(module) = site.module() {
            blocks.push(Block { site, module })?;
        }
    }
    Ok(blocks)
}

// Adds that a node has none below it as this step says, and how the step to this one is written.
fn say_step<'a>(
    telling: &mut Message<'a>,
    site: &Site<'_, 'a>,
    above: &Site<'_, 'a>,
    step: &'a str,
    reached: &Reached<'_, 'a>,
) {
    telling.quote(" There is no node ", step, "");
    telling.statement_at(" in ", above, ".");
    let node = &reached.node;
    let end = if reached.is_added {
        " adds it"
    } else {
        " defines it"
    };
    match prefix_of_module(site, &reached.module) {
        Some(prefix) => {
            telling.quote_prefixed(" Write ", prefix, local(step), ": ");
            telling.point("", node, end);
            telling.say(".");
        }
        None => {
            telling.quote(" The module ", reached.module.argument(), end);
            telling.point(" at ", node, ": import it.");
        }
    }
}
