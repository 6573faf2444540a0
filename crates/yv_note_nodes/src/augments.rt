//! Augments and refines.
use crate::explanation::Explanation;
use crate::mandatory::first_mandatory;
use crate::nodes::{Steps, Way, follow, is_side, node_below, nodes_below, root_of};
use crate::tree::Tree;
use std::alloc::AllocError;
use yv_link_scopes::local;
use yv_note_statements::{Message, Site};
use yv_text_statement::{Code, Keyword};

// The grouping of a `uses` in whose block a statement is, or the root of the module where its path
// begins.
fn start_of<'s, 'a>(site: &Site<'s, 'a>) -> Option<Site<'s, 'a>> {
    match site.parent() {
        Some(uses) if uses.is(Keyword::Uses) => uses.meaning(),
        _ => root_of(site, site.argument()),
    }
}

/// Follows the path of an `augment` or a `refine`.
pub(crate) fn way_of<'s, 'a>(
    tree: &mut Tree<'s, 'a>,
    site: &Site<'s, 'a>,
) -> Result<Way<'s, 'a>, AllocError> {
    match start_of(site) {
        Some(start) => follow(tree, &start, site.argument(), Steps::Schema),
        None => Ok(Way::Unknown),
    }
}

/// Adds where the path of a `refine` leads wrong.
pub fn tell_refine_target<'a>(
    telling: &mut Message<'a>,
    site: &Site<'_, 'a>,
) -> Result<(), AllocError> {
    let mut explanation = Explanation::of(telling, Code::RefineTarget, site)?;
    explanation.say_refine_target(site)
}

// A property that a `refine` may change, and the nodes that have it.
struct Property {
    keyword: Keyword,
    nodes: &'static [Keyword],
}

static PROPERTIES: &[Property] = &[
    Property {
        keyword: Keyword::Default,
        nodes: &[Keyword::Leaf, Keyword::LeafList, Keyword::Choice],
    },
    Property {
        keyword: Keyword::Mandatory,
        nodes: &[
            Keyword::Leaf,
            Keyword::Choice,
            Keyword::Anydata,
            Keyword::Anyxml,
        ],
    },
    Property {
        keyword: Keyword::Presence,
        nodes: &[Keyword::Container],
    },
    Property {
        keyword: Keyword::MinElements,
        nodes: &[Keyword::List, Keyword::LeafList],
    },
    Property {
        keyword: Keyword::MaxElements,
        nodes: &[Keyword::List, Keyword::LeafList],
    },
];

// Whether a node may have the property of this keyword.
fn may_have(node: &Site<'_, '_>, keyword: Keyword) -> bool {
    match PROPERTIES
        .iter()
        .find(|property| property.keyword == keyword)
    {
        Some(property) => node.is_one_of(property.nodes),
        None => true,
    }
}

// The first property of a `refine` that a node can't have.
fn unfit_property<'s, 'a>(refine: &Site<'s, 'a>, node: &Site<'_, '_>) -> Option<Site<'s, 'a>> {
    refine
        .children()
        .find(|property| !may_have(node, property.kind()))
}

/// Adds which property a `refine` can't change.
pub fn tell_refine<'a>(telling: &mut Message<'a>, site: &Site<'_, 'a>) -> Result<(), AllocError> {
    let mut tree = Tree::around(telling.alloc(), site)?;
    match way_of(&mut tree, site)? {
        Way::To(node) => tell_property(telling, site, &node),
        _ => telling.sentence(Code::BadRefine),
    }
    Ok(())
}

fn tell_property<'a>(telling: &mut Message<'a>, refine: &Site<'_, 'a>, node: &Site<'_, 'a>) {
    telling.subject("The node ", " (");
    telling.say(node.keyword());
    if let Some(property) = unfit_property(refine, node) {
        telling.say(") has no `");
        telling.say(property.keyword());
        telling.say("`.");
    } else if node.is(Keyword::LeafList) {
        telling.say(") can't be refined like this.");
    } else {
        telling.say(") is no leaf-list, and so has only one default.");
        say_second_default(telling, refine);
    }
}

// Adds where a `refine` gives a second default.
fn say_second_default<'a>(telling: &mut Message<'a>, refine: &Site<'_, 'a>) {
    let mut defaults = refine.children().filter(|child| child.is(Keyword::Default));
    if let (Some(first), Some(second)) = (defaults.next(), defaults.next()) {
        telling.point(" The first is at ", &first, ",");
        telling.point(" and the second at ", &second, ": leave out one of them.");
    }
}

static TARGETS: &[Keyword] = &[
    Keyword::Container,
    Keyword::List,
    Keyword::Choice,
    Keyword::Case,
    Keyword::Input,
    Keyword::Output,
    Keyword::Notification,
];

/// Adds where the path of an `augment` leads wrong.
pub fn tell_augment_target<'a>(
    telling: &mut Message<'a>,
    site: &Site<'_, 'a>,
) -> Result<(), AllocError> {
    let mut explanation = Explanation::of(telling, Code::AugmentTarget, site)?;
    explanation.say_augment_target(site)
}

impl<'s, 'a> Explanation<'_, 's, 'a> {
    // Adds where the path of a `refine` leads wrong.
    fn say_refine_target(&mut self, site: &Site<'s, 'a>) -> Result<(), AllocError> {
        match way_of(&mut self.tree, site)? {
            Way::Until(node, name) => self.say_no_node(&node, name, Steps::Schema),
            _ => Ok(()),
        }
    }

    // Adds where the path of an `augment` leads wrong.
    fn say_augment_target(&mut self, site: &Site<'s, 'a>) -> Result<(), AllocError> {
        let is_absolute = site.argument().starts_with('/');
        match way_of(&mut self.tree, site)? {
            Way::Until(node, name) => self.say_missing_step(&node, name)?,
            Way::To(node) => {
                if is_absolute && self.say_foreign_step(site, Steps::Schema)? {
                    return Ok(());
                }
                say_no_target(self.message, &node);
            }
            _ => self.message.say(" Look at the prefixes of its steps."),
        }
        if is_absolute {
            self.say_prefixed(site, Steps::Schema)?;
        }
        Ok(())
    }

    // Adds that a node has none of this name below it, or in which case there is one.
    fn say_missing_step(&mut self, node: &Site<'s, 'a>, name: &'a str) -> Result<(), AllocError> {
        if node.is(Keyword::Choice) {
            if let Some(inner) = node_below(&mut self.tree, node, name, Steps::Data)? {
                say_case(self.message, &inner);
                return Ok(());
            }
        }
        self.say_no_node(node, name, Steps::Schema)
    }
}

// Adds the case of a node, which a path leaves out.
fn say_case<'a>(telling: &mut Message<'a>, node: &Site<'_, 'a>) {
    match case_around(node) {
        Some(case) => {
            telling.statement_at(
                " That node is in the ",
                &case,
                ", which is a step of the path, too.",
            );
        }
        None => telling.quote(
            " The case of ",
            node.argument(),
            " is left out in the choice, and is a step of the path all the same: write the name twice.",
        ),
    }
}

// The `case` in whose block a node is.
fn case_around<'s, 'a>(node: &Site<'s, 'a>) -> Option<Site<'s, 'a>> {
    node.parent().filter(|parent| parent.is(Keyword::Case))
}

// Adds why a node is not a target.
fn say_no_target<'a>(telling: &mut Message<'a>, node: &Site<'_, 'a>) {
    if !node.is_one_of(TARGETS) {
        telling.statement_at(
            " It leads to the ",
            node,
            "; a target is a container, list, choice, case, input, output or notification.",
        );
    } else if is_shorthand_case(node) {
        telling.say(
            " It leads to a case that is left out, which can't be augmented: write the name of its node once more.",
        );
    } else {
        telling.say(" Look at the prefixes of its steps.");
    }
}

// Whether a node is in a choice without a case around it.
fn is_shorthand_case(node: &Site<'_, '_>) -> bool {
    node.is_in(Keyword::Choice) && !node.is(Keyword::Case)
}

// The `augment` in whose block a node is, by way of groupings too.
fn augment_around<'s, 'a>(tree: &Tree<'s, 'a>, node: &Site<'s, 'a>) -> Option<Site<'s, 'a>> {
    let parent = node.parent()?;
    if parent.is(Keyword::Augment) {
        return Some(parent);
    }
    match tree.node_above(node) {
        Some(above) if above.is(Keyword::Augment) => Some(above),
        _ => None,
    }
}

/// Adds why a node can't be added to the target of an `augment`.
pub fn tell_augment<'a>(telling: &mut Message<'a>, site: &Site<'_, 'a>) -> Result<(), AllocError> {
    let mut tree = Tree::around(telling.alloc(), site)?;
    let augment = augment_around(&tree, site).unwrap_or(*site);
    let Some(target) = target_of(&way_of(&mut tree, &augment)?) else {
        telling.sentence(Code::BadAugment);
        return Ok(());
    };
    let nodes = nodes_below(&mut tree, &augment, Steps::Schema)?;
    if let Some(node) = unfit(&nodes, target.kind) {
        say_unfit(telling, &node, &target);
    } else if tree.is_spent() {
        telling.sentence(Code::BadAugment);
    } else {
        say_mandatory(telling, &nodes, &target);
    }
    Ok(())
}

/// A node that is augmented. An input or output that isn't written has the statement of its
/// operation.
#[derive(Clone, Copy)]
pub(crate) struct Target<'s, 'a> {
    kind: Keyword,
    /// Its keyword as it is written.
    keyword: &'a str,
    pub(crate) node: Site<'s, 'a>,
}

/// The target to which a path leads.
pub(crate) fn target_of<'s, 'a>(way: &Way<'s, 'a>) -> Option<Target<'s, 'a>> {
    match way {
        Way::To(node) => Some(Target {
            kind: node.kind(),
            keyword: node.keyword(),
            node: *node,
        }),
        Way::Until(node, name) if is_operation(node) => side_of(node, local(name)),
        _ => None,
    }
}

// The side of an operation that has this name, if one has.
fn side_of<'s, 'a>(operation: &Site<'s, 'a>, name: &'a str) -> Option<Target<'s, 'a>> {
    let kind = Keyword::read(name);
    if !is_side(kind) {
        return None;
    }
    Some(Target {
        kind,
        keyword: name,
        node: *operation,
    })
}

fn is_operation(node: &Site<'_, '_>) -> bool {
    node.is(Keyword::Rpc) || node.is(Keyword::Action)
}

// The first of these nodes that can't be in the block of a node of this keyword.
fn unfit<'s, 'a>(nodes: &[Site<'s, 'a>], target: Keyword) -> Option<Site<'s, 'a>> {
    nodes
        .iter()
        .copied()
        .find(|node| !takes(target, node.kind()))
}

// Whether a node of one keyword may be in the block of one of the other.
fn takes(target: Keyword, node: Keyword) -> bool {
    match node {
        Keyword::Case => target == Keyword::Choice,
        Keyword::Action | Keyword::Notification => {
            matches!(target, Keyword::Container | Keyword::List)
        }
        _ => true,
    }
}

fn say_unfit<'a>(telling: &mut Message<'a>, node: &Site<'_, 'a>, target: &Target<'_, 'a>) {
    telling.subject("The augment of ", " is wrong: ");
    telling.statement_at("the ", node, "");
    say_target(telling, " can't be in the ", target);
    telling.say(".");
}

// Adds a target and its place.
fn say_target<'a>(telling: &mut Message<'a>, before: &'a str, target: &Target<'_, 'a>) {
    telling.say(before);
    if is_side(target.kind) {
        telling.say(target.keyword);
        telling.say(" of the ");
        let operation = if is_operation(&target.node) {
            Some(target.node)
        } else {
            target.node.parent()
        };
        if let Some(operation) = operation {
            telling.statement("", &operation, "");
        }
    } else {
        telling.statement("", &target.node, "");
    }
    telling.point(" at ", &target.node, "");
}

// Adds that a mandatory node is added to another module, and which one it is.
fn say_mandatory<'a>(telling: &mut Message<'a>, nodes: &[Site<'_, 'a>], target: &Target<'_, 'a>) {
    telling.subject(
        "The augment of ",
        " adds a mandatory node to another module",
    );
    match first_mandatory(nodes) {
        Some(node) => {
            telling.statement_at(": the ", &node, " is mandatory, and");
            say_target(telling, " the ", target);
            telling.say(" is not of this module.");
        }
        None => telling.say("."),
    }
}
