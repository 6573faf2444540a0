//! The data definitions of a module, with the statements around them.
use std::alloc::{AllocError, Global};
use yv_link_scopes::{local, name_of};
use yv_note_values::{FileStatement, YangFiles, module_of};
use yv_text_statement::{Keyword, Statement};

/// How many statements of a module are looked at.
const MOST_STATEMENTS: usize = 10_000;

/// How many `if-feature` statements are looked at.
const MOST_CONDITIONS: usize = 16;

/// How deep statements are followed: a file has none that nest deeper.
const MOST_DEPTH: usize = 64;

// A statement, and the place among all of the one in whose block it is.
#[derive(Clone, Copy)]
struct Definition<'d, 's> {
    site: FileStatement<'d, 's>,
    around: Option<usize>,
}

/// The data definitions of a module, its groupings and its augments, those of a block together: at
/// most 10,000.
#[derive(Drop)]
pub(crate) struct Definitions<'d, 's> {
    all: Vec<Definition<'d, 's>>,
}

impl<'d, 's> Definitions<'d, 's> {
    /// Those of the files of a module.
    pub(crate) fn read(
        alloc: Global,
        files: &YangFiles<'d, 's>,
        module: &str,
    ) -> Result<Definitions<'d, 's>, AllocError> {
        let mut definitions = Definitions {
            all: Vec::new(alloc),
        };
        for (file, statement) in files.roots().iter().enumerate() {
            if module_of(statement) == Some(module) {
                let site = FileStatement { file, statement };
                definitions.all.push(Definition { site, around: None })?;
            }
        }
        for place in 0..MOST_STATEMENTS {
            match definitions.all.get(place).copied() {
                Some(definition) => definitions.push_block(definition.site, place)?,
                None => break,
            }
        }
        Ok(definitions)
    }

    // Adds those in the block of the one at this place, as long as there are fewer than 10,000.
    fn push_block(&mut self, block: FileStatement<'d, 's>, place: usize) -> Result<(), AllocError> {
        for child in block.statement.children() {
            if self.all.len() >= MOST_STATEMENTS {
                return Ok(());
            }
            if is_followed(child.kind()) {
                let site = FileStatement {
                    file: block.file,
                    statement: child,
                };
                let around = Some(place);
                self.all.push(Definition { site, around })?;
            }
        }
        Ok(())
    }

    /// The `if-feature` statements on the data nodes of a name that may be right below a node, and
    /// on what is around them: the first 16. The node is named, or is the root.
    pub(crate) fn conditions(
        &self,
        alloc: Global,
        name: &str,
        parent: Option<&str>,
    ) -> Result<Vec<FileStatement<'d, 's>>, AllocError> {
        let mut conditions = Vec::new(alloc);
        for definition in self.all.iter() {
            if conditions.len() >= MOST_CONDITIONS {
                break;
            }
            if is_node_named(definition.site.statement, name)
                && self.may_be_below(definition, parent)
            {
                self.push_conditions(&mut conditions, definition)?;
            }
        }
        Ok(conditions)
    }

    // The definition around one.
    fn around(&self, definition: &Definition<'d, 's>) -> Option<Definition<'d, 's>> {
        self.all.get(definition.around?).copied()
    }

    // Whether a definition may be that of a node right below one of this name, or the root: the
    // uses of a grouping aren't followed.
    fn may_be_below(&self, definition: &Definition<'d, 's>, parent: Option<&str>) -> bool {
        let mut next = self.around(definition);
        for _ in 0..MOST_DEPTH {
            match next {
                Some(around) if is_passed(around.site.statement) => next = self.around(&around),
                Some(around) => return may_hold(around.site.statement, parent),
                None => return false,
            }
        }
        false
    }

    // Adds the `if-feature` statements on a definition and on those around it.
    fn push_conditions(
        &self,
        conditions: &mut Vec<FileStatement<'d, 's>>,
        definition: &Definition<'d, 's>,
    ) -> Result<(), AllocError> {
        let mut next = Some(*definition);
        for _ in 0..MOST_DEPTH {
            let Some(at) = next else {
                break;
            };
            push_if_features(conditions, at.site)?;
            next = self.around(&at);
        }
        Ok(())
    }
}

// Adds the `if-feature` statements right in the block of another, as long as there are fewer than
// 16.
fn push_if_features<'d, 's>(
    conditions: &mut Vec<FileStatement<'d, 's>>,
    block: FileStatement<'d, 's>,
) -> Result<(), AllocError> {
    let room = MOST_CONDITIONS.saturating_sub(conditions.len());
    let children = block.statement.children().iter();
    for statement in children
        .filter(|child| child.is(Keyword::IfFeature))
        .take(room)
    {
        conditions.push(FileStatement {
            file: block.file,
            statement,
        })?;
    }
    Ok(())
}

// Whether a statement of this keyword defines a data node.
fn is_data_node(keyword: Keyword) -> bool {
    matches!(
        keyword,
        Keyword::Container
            | Keyword::List
            | Keyword::Leaf
            | Keyword::LeafList
            | Keyword::Anydata
            | Keyword::Anyxml
    )
}

// Whether data definitions are looked for in the block of a statement, or it is one.
fn is_followed(keyword: Keyword) -> bool {
    is_data_node(keyword)
        || matches!(
            keyword,
            Keyword::Choice | Keyword::Case | Keyword::Grouping | Keyword::Uses | Keyword::Augment
        )
}

// Whether a statement defines a data node of this name.
fn is_node_named(statement: &Statement<'_>, name: &str) -> bool {
    is_data_node(statement.kind()) && statement.argument() == Some(name)
}

// Whether the nodes in a statement's block are in the object of the node around it.
fn is_passed(statement: &Statement<'_>) -> bool {
    matches!(statement.kind(), Keyword::Choice | Keyword::Case)
}

// Whether the nodes in a statement's block may be right below a node of this name, or the root. An
// augment may lead to a choice or a case of the node.
fn may_hold(statement: &Statement<'_>, parent: Option<&str>) -> bool {
    match (statement.kind(), parent) {
        (Keyword::Module | Keyword::Submodule, parent) => parent.is_none(),
        (Keyword::Augment, Some(parent)) => has_step(name_of(statement), parent),
        (Keyword::Grouping, _) => true,
        (_, parent) => parent.is_some() && statement.argument() == parent,
    }
}

// Whether a path has a step of this name.
fn has_step(path: &str, name: &str) -> bool {
    path.split('/').any(|step| local(step) == name)
}
