//! Nodes that can't be where they are, or whose names other nodes have there.
use crate::augments::{target_of, way_of};
use crate::nodes::{NAMED_NODES, Way};
use crate::tree::Tree;
use std::alloc::{AllocError, Global};
use yv_note_statements::{Message, Site, Sites};
use yv_text_statement::{Code, Keyword};

/// How many `uses` of a grouping are looked at.
const MOST_USES: usize = 64;

/// How many groupings and augments are followed to where their nodes are.
const MOST_FOLLOWED: usize = 16;

/// How many places of a node are compared.
const MOST_PLACES: usize = 256;

/// Adds which node above a node of configuration is state.
pub fn tell_config<'a>(telling: &mut Message<'a>, site: &Site<'_, 'a>) {
    telling.subject("The node ", " is `config true`, and ");
    match state_over(telling.alloc(), site) {
        Ok(Some(state)) => {
            telling.statement("the ", &state, "");
            telling.point(" above it, at ", &state, ", is `config false`.");
        }
        Ok(None) => telling.say("a node above it is `config false`."),
        Err(error) => telling.fail(error),
    }
}

// The nearest node above a node that makes it state.
fn state_over<'s, 'a>(
    alloc: Global,
    site: &Site<'s, 'a>,
) -> Result<Option<Site<'s, 'a>>, AllocError> {
    let tree = Tree::around(alloc, site)?;
    Ok(match tree.node_above(site) {
        Some(above) => tree.state_above(&above),
        None => None,
    })
}

/// Adds which node above an action or a notification it can't be in.
pub fn tell_operation<'a>(
    telling: &mut Message<'a>,
    site: &Site<'_, 'a>,
) -> Result<(), AllocError> {
    telling.subject_statement(site, " is not allowed here: ");
    let mut tree = Tree::around(telling.alloc(), site)?;
    match find_hindrance(&mut tree, site)? {
        Some(hindrance) => say_hindrance(telling, &hindrance),
        None if site.is(Keyword::Action) => {
            telling.say("an action can't be at the top of a module; that is an `rpc`.");
        }
        None => telling.say(
            "a node above it is an operation, a notification, or a list without a key.",
        ),
    }
    Ok(())
}

// What an action or a notification can't be in, and the last `uses` by which it comes there.
#[derive(Clone, Copy)]
struct Hindrance<'s, 'a> {
    around: Site<'s, 'a>,
    uses: Option<Site<'s, 'a>>,
    /// Whether no other node is between the two.
    is_direct: bool,
}

impl Hindrance<'_, '_> {
    // Whether no action or notification can be there.
    fn is_one(&self) -> bool {
        hinders(&self.around) || (self.is_direct && self.around.is(Keyword::Case))
    }
}

fn say_hindrance<'a>(telling: &mut Message<'a>, hindrance: &Hindrance<'_, 'a>) {
    if let Some(uses) = &hindrance.uses {
        telling.statement_at("by the ", uses, " ");
    }
    let around = &hindrance.around;
    telling.statement_at(
        if around.is(Keyword::Case) {
            "it can't be in the "
        } else {
            "it is inside the "
        },
        around,
        if around.is(Keyword::List) {
            ", which has no key."
        } else {
            "."
        },
    );
}

// The first place that hinders an action or a notification, by way of the `uses` of groupings too.
fn find_hindrance<'s, 'a>(
    tree: &mut Tree<'s, 'a>,
    site: &Site<'s, 'a>,
) -> Result<Option<Hindrance<'s, 'a>>, AllocError> {
    let mut open = Vec::new(tree.alloc());
    push_around(&mut open, site, None, true)?;
    let mut followed: usize = 0;
    for place in 0..MOST_PLACES {
        let Some(next) = open.get(place).copied() else {
            break;
        };
        if next.is_one() {
            return Ok(Some(next));
        }
        if !is_copied(&next.around) {
            push_around(&mut open, &next.around, next.uses, false)?;
        } else if followed < MOST_FOLLOWED {
            followed += 1;
            push_copies(tree, &mut open, &next)?;
        }
    }
    Ok(None)
}

// Adds the statement around one, unless that is a file.
fn push_around<'s, 'a>(
    open: &mut Vec<Hindrance<'s, 'a>>,
    site: &Site<'s, 'a>,
    uses: Option<Site<'s, 'a>>,
    is_direct: bool,
) -> Result<(), AllocError> {
    match site.parent() {
        Some(around) if !around.is_root() => open.push(Hindrance {
            around,
            uses,
            is_direct,
        })?,
        _ => {}
    }
    Ok(())
}

// Whether the nodes in a statement are elsewhere in the tree.
fn is_copied(site: &Site<'_, '_>) -> bool {
    site.is(Keyword::Grouping) || site.is(Keyword::Augment)
}

// Adds where in the tree the nodes in a grouping or in an `augment` are.
fn push_copies<'s, 'a>(
    tree: &mut Tree<'s, 'a>,
    open: &mut Vec<Hindrance<'s, 'a>>,
    copied: &Hindrance<'s, 'a>,
) -> Result<(), AllocError> {
    let around = &copied.around;
    if !around.is(Keyword::Grouping) {
        return push_target(tree, open, copied);
    }
    for uses in tree.uses_of(around).take(MOST_USES) {
        push_around(open, &uses, Some(uses), copied.is_direct)?;
    }
    Ok(())
}

// Adds the target of an `augment`.
fn push_target<'s, 'a>(
    tree: &mut Tree<'s, 'a>,
    open: &mut Vec<Hindrance<'s, 'a>>,
    augment: &Hindrance<'s, 'a>,
) -> Result<(), AllocError> {
    if let Some(target) = target_of(&way_of(tree, &augment.around)?) {
        open.push(Hindrance {
            around: target.node,
            uses: augment.uses,
            is_direct: augment.is_direct,
        })?;
    }
    Ok(())
}

// Whether no operation or notification can be in a node.
fn hinders(node: &Site<'_, '_>) -> bool {
    match node.kind() {
        Keyword::Rpc | Keyword::Action | Keyword::Notification => true,
        Keyword::List => node.child(Keyword::Key).is_none(),
        _ => false,
    }
}

// Where a node is: the block, and the last `uses` by which it comes there.
#[derive(Clone, Copy)]
struct Landing<'s, 'a> {
    node: Site<'s, 'a>,
    block: Site<'s, 'a>,
    uses: Option<Site<'s, 'a>>,
}

// Adds the place of a node in the target of its `augment`, or in the augment, if its target isn't
// found.
fn add_target<'s, 'a>(
    tree: &mut Tree<'s, 'a>,
    open: &mut Vec<Landing<'s, 'a>>,
    landings: &mut Vec<Landing<'s, 'a>>,
    landing: Landing<'s, 'a>,
) -> Result<(), AllocError> {
    match way_of(tree, &landing.block)? {
        Way::To(block) => open.push(Landing {
            node: landing.node,
            block,
            uses: landing.uses,
        })?,
        _ => landings.push(landing)?,
    }
    Ok(())
}

// Where a statement is, if it is a node of this name.
fn landing_of<'s, 'a>(site: Site<'s, 'a>, name: &str) -> Option<Landing<'s, 'a>> {
    if site.argument() == name && site.is_one_of(NAMED_NODES) {
        Some(Landing {
            node: site,
            block: site.parent()?,
            uses: None,
        })
    } else {
        None
    }
}

// The nodes of the name of one.
fn namesakes<'s, 'a>(
    alloc: Global,
    site: &Site<'s, 'a>,
) -> Result<Vec<Landing<'s, 'a>>, AllocError> {
    Sites::all(site.entries)
        .filter_map(|node| landing_of(node, site.argument()))
        .take(MOST_PLACES)
        .collect(alloc)
}

// Follows each node out of choices, cases and groupings.
fn follow_out<'s, 'a>(
    tree: &mut Tree<'s, 'a>,
    site: &Site<'s, 'a>,
) -> Result<Vec<Landing<'s, 'a>>, AllocError> {
    let mut open = namesakes(tree.alloc(), site)?;
    let mut landings = Vec::new(tree.alloc());
    let mut augments: usize = 0;
    for _ in 0..MOST_PLACES {
        let Some(landing) = open.pop() else {
            break;
        };
        match landing.block.kind() {
            Keyword::Choice | Keyword::Case => add_around(&mut open, &landing)?,
            Keyword::Grouping => add_uses(tree, &mut open, &landing)?,
            Keyword::Augment if augments < MOST_FOLLOWED => {
                augments += 1;
                add_target(tree, &mut open, &mut landings, landing)?;
            }
            _ => landings.push(landing)?,
        }
    }
    Ok(landings)
}

// Adds the place of a node around a choice or a case.
fn add_around<'s, 'a>(
    open: &mut Vec<Landing<'s, 'a>>,
    landing: &Landing<'s, 'a>,
) -> Result<(), AllocError> {
    if let Some(block) = landing.block.parent() {
        open.push(Landing {
            node: landing.node,
            block,
            uses: landing.uses,
        })?;
    }
    Ok(())
}

// Adds the places to which the `uses` of a grouping bring a node.
fn add_uses<'s, 'a>(
    tree: &Tree<'s, 'a>,
    open: &mut Vec<Landing<'s, 'a>>,
    landing: &Landing<'s, 'a>,
) -> Result<(), AllocError> {
    for uses in tree.uses_of(&landing.block).take(MOST_PLACES) {
        if let Some(block) = uses.parent() {
            open.push(Landing {
                node: landing.node,
                block,
                uses: Some(uses),
            })?;
        }
    }
    Ok(())
}

// Whether two places are in one block, or in augments of one path.
fn is_one_block(one: &Site<'_, '_>, other: &Site<'_, '_>) -> bool {
    let are_augments = one.is(Keyword::Augment) && other.is(Keyword::Augment);
    let are_roots = one.is_root() && other.is_root();
    one.number == other.number
        || (are_augments && one.argument() == other.argument())
        || (are_roots && one.entry.meaning == other.entry.meaning)
}

// Whether two places are in one block, and one of them is of this node.
fn is_pair(number: usize, one: &Landing<'_, '_>, other: &Landing<'_, '_>) -> bool {
    (one.node.number == number || other.node.number == number)
        && is_one_block(&one.block, &other.block)
}

// The first of these places that is in one block with this one, where one of the two is of this
// node.
fn partner<'s, 'a>(
    landings: &[Landing<'s, 'a>],
    number: usize,
    one: &Landing<'s, 'a>,
) -> Option<Landing<'s, 'a>> {
    landings
        .iter()
        .copied()
        .find(|other| is_pair(number, one, other))
}

/// Adds which other node has the name of one, and by which `uses` the two are in one place.
pub fn tell_second_node<'a>(
    telling: &mut Message<'a>,
    site: &Site<'_, 'a>,
) -> Result<(), AllocError> {
    let mut tree = Tree::explain(telling, Code::DuplicateNode, site)?;
    let landings = follow_out(&mut tree, site)?;
    for (place, one) in landings.iter().enumerate() {
        if let Some(other) = partner(&landings[..place], site.number, one) {
            if one.node.number == site.number {
                say_pair(telling, one, &other);
            } else {
                say_pair(telling, &other, one);
            }
            return Ok(());
        }
    }
    Ok(())
}

// Adds the two places of a name, first that of the refusal's node.
fn say_pair<'a>(telling: &mut Message<'a>, own: &Landing<'_, 'a>, second: &Landing<'_, 'a>) {
    if let Some(uses) = &own.uses {
        telling.statement_at(" This one comes by the ", uses, ".");
    }
    telling.point(" The other one is at ", &second.node, "");
    if let Some(uses) = &second.uses {
        telling.statement_at(", and comes by the ", uses, "");
    }
    telling.say(":");
    telling.show(&second.node);
}
