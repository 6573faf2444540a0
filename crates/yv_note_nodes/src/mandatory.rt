//! Nodes that are mandatory.
use crate::augments::way_of;
use crate::explanation::Explanation;
use crate::nodes::{Steps, Way, node_named, nodes_below};
use crate::tree::Tree;
use std::alloc::AllocError;
use yv_link_scopes::local;
use yv_note_statements::{Message, Site, Sites, last_step};
use yv_text_statement::Keyword;

/// Whether a node says that it is mandatory.
pub(crate) fn is_mandatory(node: &Site<'_, '_>) -> bool {
    if node.is(Keyword::List) || node.is(Keyword::LeafList) {
        node.child(Keyword::MinElements).is_some() && !node.says(Keyword::MinElements, "0")
    } else {
        node.says(Keyword::Mandatory, "true")
    }
}

/// The first of these nodes that says that it is mandatory.
pub(crate) fn first_mandatory<'s, 'a>(nodes: &[Site<'s, 'a>]) -> Option<Site<'s, 'a>> {
    nodes.iter().copied().find(|node| is_mandatory(node))
}

/// Adds why a node that is mandatory can't have a default.
pub fn tell_mandatory<'a>(
    telling: &mut Message<'a>,
    site: &Site<'_, 'a>,
) -> Result<(), AllocError> {
    match site.child(Keyword::Default) {
        Some(default) if site.is(Keyword::Choice) && !is_mandatory(site) => {
            tell_mandatory_case(telling, site, &default)
        }
        _ => say_both(telling, site),
    }
}

// Adds that a node is mandatory and has a default, and where each of the two is said.
fn say_both<'a>(telling: &mut Message<'a>, site: &Site<'_, 'a>) -> Result<(), AllocError> {
    let (demand, word) = if site.is(Keyword::LeafList) {
        telling.subject(
            "The leaf-list ",
            " has a default, and `min-elements` asks for an entry: leave out one of the two.",
        );
        (Keyword::MinElements, "min-elements")
    } else {
        telling.subject(
            "The node ",
            " is mandatory and has a default; it can't have both.",
        );
        (Keyword::Mandatory, "mandatory")
    };
    let mut explanation = Explanation::around(telling, site)?;
    explanation.message.say(" The default ");
    explanation.say_place(site, Keyword::Default)?;
    explanation.message.say(", and `");
    explanation.message.say(word);
    explanation.message.say("` ");
    explanation.say_place(site, demand)?;
    explanation.message.say(".");
    Ok(())
}

impl<'s, 'a> Explanation<'_, 's, 'a> {
    // Adds where a property of a node is said.
    fn say_place(&mut self, node: &Site<'s, 'a>, keyword: Keyword) -> Result<(), AllocError> {
        if let Some(property) = node.child(keyword) {
            self.message.point("is at ", &property, "");
            return Ok(());
        }
        match refine_of(&mut self.tree, node, keyword)? {
            Some(refine) => self.message.point("comes by the `refine` at ", &refine, ""),
            None => self.message.say("comes by a `refine`"),
        }
        Ok(())
    }

    // Adds which mandatory node the case of a choice has that its default names.
    fn say_mandatory_of(
        &mut self,
        choice: &Site<'s, 'a>,
        default: &Site<'s, 'a>,
    ) -> Result<(), AllocError> {
        let cases = nodes_below(&mut self.tree, choice, Steps::Schema)?;
        if let Some(case) = node_named(&cases, local(default.argument())) {
            self.say_mandatory_node(&case)?;
        }
        self.message.say(".");
        Ok(())
    }

    // Adds the first node of a case that is mandatory by itself.
    fn say_mandatory_node(&mut self, case: &Site<'s, 'a>) -> Result<(), AllocError> {
        if !case.is(Keyword::Case) {
            self.message.say(", namely itself");
            return Ok(());
        }
        let nodes = nodes_below(&mut self.tree, case, Steps::Schema)?;
        if let Some(node) = first_mandatory(&nodes) {
            self.message.statement_at(", the ", &node, "");
        }
        Ok(())
    }
}

// The first `refine` of a node that has a property.
fn refine_of<'s, 'a>(
    tree: &mut Tree<'s, 'a>,
    node: &Site<'s, 'a>,
    keyword: Keyword,
) -> Result<Option<Site<'s, 'a>>, AllocError> {
    for refine in Sites::all(node.entries) {
        if is_refine_of(&refine, node, keyword) && leads_to(tree, &refine, node)? {
            return Ok(Some(refine));
        }
    }
    Ok(None)
}

// Whether a statement is a `refine` of a node of this one's name, and has a property.
fn is_refine_of(refine: &Site<'_, '_>, node: &Site<'_, '_>, keyword: Keyword) -> bool {
    refine.is(Keyword::Refine)
        && last_step(refine.argument()) == node.argument()
        && refine.child(keyword).is_some()
}

// Whether the path of a `refine` leads to a node.
fn leads_to<'s, 'a>(
    tree: &mut Tree<'s, 'a>,
    refine: &Site<'s, 'a>,
    node: &Site<'s, 'a>,
) -> Result<bool, AllocError> {
    match way_of(tree, refine)? {
        Way::To(target) => Ok(target.number == node.number),
        _ => Ok(false),
    }
}

// Adds which mandatory node the default case of a choice has.
fn tell_mandatory_case<'s, 'a>(
    telling: &mut Message<'a>,
    choice: &Site<'s, 'a>,
    default: &Site<'s, 'a>,
) -> Result<(), AllocError> {
    telling.quote("The default case ", default.argument(), "");
    telling.subject(" of choice ", " has a mandatory node");
    let mut explanation = Explanation::around(telling, choice)?;
    explanation.say_mandatory_of(choice, default)
}
