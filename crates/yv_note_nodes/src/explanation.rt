//! What is told of a statement, where nodes of the schema have to be looked for.
use crate::tree::Tree;
use std::alloc::AllocError;
use yv_note_statements::{Message, Site};
use yv_text_statement::Code;

/// A message on a statement, and the tree in which the nodes that it speaks of are looked for.
#[derive(Drop)]
pub(crate) struct Explanation<'m, 's, 'a> {
    pub(crate) message: &'m mut Message<'a>,
    pub(crate) tree: Tree<'s, 'a>,
}

impl<'m, 's, 'a> Explanation<'m, 's, 'a> {
    /// With the tree of the files in which a statement is.
    pub(crate) fn around(
        message: &'m mut Message<'a>,
        site: &Site<'s, 'a>,
    ) -> Result<Explanation<'m, 's, 'a>, AllocError> {
        let tree = Tree::around(message.alloc(), site)?;
        Ok(Explanation { message, tree })
    }

    /// The same, where the message begins with the sentence on the refusal's name.
    pub(crate) fn of(
        message: &'m mut Message<'a>,
        code: Code,
        site: &Site<'s, 'a>,
    ) -> Result<Explanation<'m, 's, 'a>, AllocError> {
        let tree = Tree::explain(message, code, site)?;
        Ok(Explanation { message, tree })
    }
}
