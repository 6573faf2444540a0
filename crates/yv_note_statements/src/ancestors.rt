//! The nodes above a statement.
use crate::site::Site;
use crate::statement_lists::StatementLists;
use yv_text_statement::Keyword;

/// How many nodes above one are looked at.
const MOST_STEPS: usize = 64;

/// The data node above a node: of one in a grouping that above its first `uses`. None for a node at
/// the top of a module.
pub fn node_above<'s, 'a>(lists: &StatementLists, node: &Site<'s, 'a>) -> Option<Site<'s, 'a>> {
    let mut at = node.parent()?;
    for _ in 0..MOST_STEPS {
        match at.kind() {
            Keyword::Choice | Keyword::Case => at = at.parent()?,
            Keyword::Grouping => at = Site::at(at.entries, lists.first_use(at.number)?)?.parent()?,
            Keyword::Module | Keyword::Submodule => return None,
            _ => return Some(at),
        }
    }
    None
}

/// The nearest of a node and those above it that says whether it is state, if it says that it is.
pub fn state_above<'s, 'a>(lists: &StatementLists, node: &Site<'s, 'a>) -> Option<Site<'s, 'a>> {
    let mut at = *node;
    for _ in 0..MOST_STEPS {
        match lists.config(at.number) {
            Some(config) if Site::at(at.entries, config)?.argument() == "false" => return Some(at),
            Some(_) => return None,
            None => at = node_above(lists, &at)?,
        }
    }
    None
}
