//! Keys and unique leafs of lists.
use crate::explanation::Explanation;
use crate::nodes::{Steps, Way, follow, node_below};
use crate::tree::Tree;
use std::alloc::AllocError;
use yv_note_statements::{Message, Site, words_of};
use yv_text_statement::Keyword;

/// Adds what is wrong with the key of a list.
pub fn tell_key<'a>(telling: &mut Message<'a>, list: &Site<'_, 'a>) -> Result<(), AllocError> {
    let Some(key) = list.child(Keyword::Key) else {
        telling.subject("The list ", " is configuration, so it needs a `key`.");
        return Ok(());
    };
    telling.subject("The key of list ", " is wrong.");
    let names = words_of(telling.alloc(), key.argument())?;
    let mut explanation = Explanation::around(telling, list)?;
    for name in names.iter() {
        if explanation.say_key(list, name)? {
            break;
        }
    }
    Ok(())
}

// Why a node can't be a key: words around the node and the place that shows it.
#[derive(Clone, Copy)]
struct Objection<'s, 'a> {
    before: &'static str,
    between: &'static str,
    place: Site<'s, 'a>,
    after: &'static str,
}

// Why a node of a list can't be its key, if something is known.
fn objection_to<'s, 'a>(
    tree: &Tree<'s, 'a>,
    list: &Site<'s, 'a>,
    leaf: &Site<'s, 'a>,
) -> Option<Objection<'s, 'a>> {
    if !leaf.is(Keyword::Leaf) {
        return Some(Objection {
            before: " A key has to be a leaf; this one names the ",
            between: "",
            place: *leaf,
            after: ".",
        });
    }
    if let Some(condition) = leaf.child(Keyword::IfFeature) {
        return Some(Objection {
            before: " The ",
            between: " has an `if-feature`",
            place: condition,
            after: ", which a key can't have.",
        });
    }
    let config = leaf.child(Keyword::Config)?;
    if config.argument() == "false" && tree.state_above(list).is_none() {
        return Some(Objection {
            before: " The ",
            between: " is `config false`",
            place: config,
            after: ", and the list is configuration.",
        });
    }
    None
}

/// Adds what is wrong with a `unique` of a list.
pub fn tell_unique<'a>(telling: &mut Message<'a>, list: &Site<'_, 'a>) -> Result<(), AllocError> {
    telling.subject("A `unique` of list ", " is wrong.");
    let mut explanation = Explanation::around(telling, list)?;
    for unique in list.children().filter(|child| child.is(Keyword::Unique)) {
        if explanation.tree.is_spent() || explanation.say_unique(list, &unique)? {
            break;
        }
    }
    Ok(())
}

impl<'s, 'a> Explanation<'_, 's, 'a> {
    // Adds why a key can't have a name, if something is known. Whether no further name is looked
    // at.
    fn say_key(&mut self, list: &Site<'s, 'a>, name: &'a str) -> Result<bool, AllocError> {
        let Some(leaf) = node_below(&mut self.tree, list, name, Steps::Data)? else {
            if !self.tree.is_spent() {
                self.say_no_node(list, name, Steps::Data)?;
            }
            return Ok(true);
        };
        let Some(objection) = objection_to(&self.tree, list, &leaf) else {
            return Ok(false);
        };
        self.message
            .statement(objection.before, &leaf, objection.between);
        self.message
            .point(" at ", &objection.place, objection.after);
        Ok(true)
    }

    // Adds what is wrong with a `unique`, if something is known.
    fn say_unique(
        &mut self,
        list: &Site<'s, 'a>,
        unique: &Site<'s, 'a>,
    ) -> Result<bool, AllocError> {
        let mut state = None;
        let mut configuration = None;
        for path in unique.argument().split(is_blank) {
            if path.is_empty() {
                continue;
            }
            let way = follow(&mut self.tree, list, path, Steps::Data)?;
            if self.say_unique_way(unique, &way)? {
                return Ok(true);
            }
            if let Way::To(node) = way {
                if let Some(between) = list_between(&self.tree, list, &node) {
                    say_between(self.message, unique, path, &between);
                    return Ok(true);
                }
                if self.tree.state_above(&node).is_some() {
                    state = Some(node);
                } else {
                    configuration = Some(node);
                }
            }
            if self.tree.is_spent() {
                return Ok(false);
            }
        }
        Ok(say_mixed(self.message, unique, state, configuration))
    }

    // Adds why a path of a `unique` leads to no leaf, if something is known.
    fn say_unique_way(
        &mut self,
        unique: &Site<'s, 'a>,
        way: &Way<'s, 'a>,
    ) -> Result<bool, AllocError> {
        match way {
            Way::Until(node, name) => {
                self.message.point(" It is at ", unique, ".");
                self.say_no_node(node, name, Steps::Data)?;
                Ok(true)
            }
            Way::To(node) if !node.is(Keyword::Leaf) => {
                self.message.point(" It is at ", unique, ".");
                self.message.statement_at(
                    " A path has to lead to a leaf; this one leads to the ",
                    node,
                    ".",
                );
                Ok(true)
            }
            _ => Ok(false),
        }
    }
}

fn is_blank(character: char) -> bool {
    matches!(character, ' ' | '\t' | '\n' | '\r')
}

/// How many nodes above a leaf are looked at.
const MOST_STEPS: usize = 64;

// A list between a list and a leaf in it.
fn list_between<'s, 'a>(
    tree: &Tree<'s, 'a>,
    list: &Site<'s, 'a>,
    leaf: &Site<'s, 'a>,
) -> Option<Site<'s, 'a>> {
    let mut at = tree.node_above(leaf)?;
    for _ in 0..MOST_STEPS {
        if at.number == list.number {
            return None;
        }
        if at.is(Keyword::List) {
            return Some(at);
        }
        at = tree.node_above(&at)?;
    }
    None
}

fn say_between<'a>(
    telling: &mut Message<'a>,
    unique: &Site<'_, 'a>,
    path: &'a str,
    between: &Site<'_, 'a>,
) {
    telling.point(" It is at ", unique, ".");
    telling.quote(" The path ", path, "");
    telling.statement_at(" goes through the ", between, ", which is not supported.");
}

// Adds that of the leafs of a `unique` one is state and one isn't, if there are two such.
fn say_mixed<'a>(
    telling: &mut Message<'a>,
    unique: &Site<'_, 'a>,
    state: Option<Site<'_, 'a>>,
    configuration: Option<Site<'_, 'a>>,
) -> bool {
    let (Some(state), Some(configuration)) = (state, configuration) else {
        return false;
    };
    telling.point(" It is at ", unique, ".");
    telling.statement_at(" The ", &state, " is state, and");
    telling.statement_at(" the ", &configuration, " is configuration.");
    true
}

/// Whether a statement's keyword is one of nodes with a value.
pub(crate) fn has_value(node: &Site<'_, '_>) -> bool {
    node.is(Keyword::Leaf) || node.is(Keyword::LeafList)
}
