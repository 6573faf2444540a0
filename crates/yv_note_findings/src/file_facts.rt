//! Files as a whole.
use std::alloc::{AllocError, Global};
use yv_link_scopes::name_of;
use yv_lint::group_of;
use yv_text_statement::{Keyword, Statement};

/// What is known of a file as a whole.
#[derive(Drop)]
pub(crate) struct FileFacts<'s, 'a> {
    pub(crate) root: &'s Statement<'a>,
    /// Whether it is of version 1.1.
    pub(crate) is_newer: bool,
    // The statements at its top that are of a later group than all before them: five at most.
    leaders: Vec<&'s Statement<'a>>,
}

impl<'s, 'a> FileFacts<'s, 'a> {
    /// The same of the files with these roots.
    pub(crate) fn of_roots(
        alloc: Global,
        roots: &'s [Statement<'a>],
    ) -> Result<Vec<FileFacts<'s, 'a>>, AllocError> {
        let mut files = Vec::new(alloc);
        for root in roots {
            files.push(FileFacts::read(alloc, root)?)?;
        }
        Ok(files)
    }

    // The same of the file with this root.
    fn read(alloc: Global, root: &'s Statement<'a>) -> Result<FileFacts<'s, 'a>, AllocError> {
        let mut leaders = Vec::new(alloc);
        let mut is_newer = false;
        let mut last_group = 0;
        for child in root.children() {
            is_newer = is_newer || says_newer(child);
            let group = group_of(child.kind());
            if group > last_group {
                last_group = group;
                leaders.push(child)?;
            }
        }
        Ok(FileFacts {
            root,
            is_newer,
            leaders,
        })
    }

    /// The first statement at its top that is of a later group than this one, if it comes before.
    pub(crate) fn first_later(&self, statement: &Statement<'_>) -> Option<&'s Statement<'a>> {
        let group = group_of(statement.kind());
        for leader in &self.leaders {
            if group_of(leader.kind()) > group && leader.offset() < statement.offset() {
                return Some(leader);
            }
        }
        None
    }
}

// Whether a statement is `yang-version 1.1`.
fn says_newer(statement: &Statement<'_>) -> bool {
    statement.is(Keyword::YangVersion) && name_of(statement) == "1.1"
}
