//! Where a finding is among the statements of its file.
use yv_link_scopes::name_of;
use yv_text_statement::{Keyword, Statement};

/// The most steps from a root to a statement: statements nest at most 64 deep.
const MOST_STEPS: usize = 64;

/// A statement, and where it is.
#[derive(Clone, Copy)]
pub(crate) struct Spot<'s, 'a> {
    pub(crate) statement: &'s Statement<'a>,
    /// The one in whose block it is: the root itself for a root.
    pub(crate) parent: &'s Statement<'a>,
    /// Those before it in that block.
    pub(crate) earlier: &'s [Statement<'a>],
}

impl<'s, 'a> Spot<'s, 'a> {
    // A root, which is in no block.
    fn of_root(root: &'s Statement<'a>) -> Spot<'s, 'a> {
        Spot {
            statement: root,
            parent: root,
            earlier: &[],
        }
    }

    /// The statement of a file at an offset, if one begins there. The statements of a block are in
    /// the order of their offsets, so that each block is searched by halves.
    pub(crate) fn find(root: &'s Statement<'a>, offset: u64) -> Option<Spot<'s, 'a>> {
        let mut spot = Spot::of_root(root);
        for _ in 0..MOST_STEPS {
            if spot.statement.offset() >= offset {
                break;
            }
            spot = spot.step(offset)?;
        }
        if spot.statement.offset() == offset {
            Some(spot)
        } else {
            None
        }
    }

    // The last statement in its block that begins at an offset or before it.
    fn step(self, offset: u64) -> Option<Spot<'s, 'a>> {
        let children = self.statement.children();
        let after = children.partition_point(|child| child.offset() <= offset);
        let number = after.checked_sub(1)?;
        Some(Spot {
            statement: children.get(number)?,
            parent: self.statement,
            earlier: children.get(..number)?,
        })
    }

    /// The argument of the statement; no text where it has none.
    pub(crate) fn name(&self) -> &'s str {
        name_of(self.statement)
    }
}

/// The first statement with this keyword in the block of another.
pub(crate) fn child<'s, 'a>(
    statement: &'s Statement<'a>,
    keyword: Keyword,
) -> Option<&'s Statement<'a>> {
    statement.children().iter().find(|child| child.is(keyword))
}

/// The argument of the first statement with this keyword in the block of another; no text where
/// there is none.
pub(crate) fn child_name<'s>(statement: &'s Statement<'_>, keyword: Keyword) -> &'s str {
    match child(statement, keyword) {
        Some(child) => name_of(child),
        None => "",
    }
}
