//! The type statements from a leaf's to that of a built-in type.
use crate::yang_files::{FileStatement, YangFiles, definition_in};
use std::alloc::{AllocError, Global};
use yv_link_definitions::is_built_in;
use yv_link_scopes::{local, name_of, prefix_of};
use yv_nodes::Node;
use yv_text_statement::{Keyword, Statement};

/// How many steps from one typedef to the next are followed.
const MOST_STEPS: usize = 64;

/// How many `pattern` statements of a type are looked at.
const MOST_PATTERNS: usize = 16;

// A `type` statement: the number of its file, the statements in whose blocks it is, from the
// outermost on, and itself.
#[derive(Drop)]
struct TypeUse<'d, 's> {
    file: usize,
    blocks: Vec<&'s Statement<'d>>,
    statement: &'s Statement<'d>,
}

impl<'d, 's> TypeUse<'d, 's> {
    // The type of the statement that ends a way.
    fn in_last(file: usize, blocks: Vec<&'s Statement<'d>>) -> Option<TypeUse<'d, 's>> {
        let last = *blocks.last()?;
        let statement = last
            .children()
            .iter()
            .find(|child| child.is(Keyword::Type))?;
        Some(TypeUse {
            file,
            blocks,
            statement,
        })
    }

    // The type of the typedef that this one names. There is none of a built-in type.
    fn base(
        &self,
        alloc: Global,
        files: &YangFiles<'d, 's>,
    ) -> Result<Option<TypeUse<'d, 's>>, AllocError> {
        let name = name_of(self.statement);
        if is_built_in(name) {
            return Ok(None);
        }
        if let Some(blocks) = self.blocks_to(alloc, files, name)? {
            return Ok(TypeUse::in_last(self.file, blocks));
        }
        match files.definition_named(self.file, Keyword::Typedef, name) {
            Some(site) => {
                let mut blocks = Vec::new(alloc);
                if let Some(root) = files.roots().get(site.file) {
                    blocks.push(root)?;
                }
                blocks.push(site.statement)?;
                Ok(TypeUse::in_last(site.file, blocks))
            }
            None => Ok(None),
        }
    }

    // The way to the typedef of a name in the blocks around this type, the innermost first.
    fn blocks_to(
        &self,
        alloc: Global,
        files: &YangFiles<'d, 's>,
        name: &str,
    ) -> Result<Option<Vec<&'s Statement<'d>>>, AllocError> {
        let own = files.module_named(self.file, None);
        if files.module_named(self.file, prefix_of(name)) != own {
            return Ok(None);
        }
        for depth in (0..self.blocks.len()).rev() {
            if let Some(found) = self.typedef_at(depth, local(name)) {
                let mut way = Vec::new(alloc);
                for block in self.blocks.iter().take(depth.saturating_add(1)) {
                    way.push(*block)?;
                }
                way.push(found)?;
                return Ok(Some(way));
            }
        }
        Ok(None)
    }

    // The typedef of a name in the block around this type that is so deep.
    fn typedef_at(&self, depth: usize, name: &str) -> Option<&'s Statement<'d>> {
        let block = *self.blocks.get(depth)?;
        definition_in(block, Keyword::Typedef, name)
    }
}

/// The chain of a type: its `type` statement, that of the typedef which it names, and so on.
#[derive(Drop)]
pub(crate) struct TypeChain<'d, 's> {
    uses: Vec<FileStatement<'d, 's>>,
}

impl<'d, 's> TypeChain<'d, 's> {
    /// The chain of a node's type. It is empty where there are no files, or no such statement.
    pub(crate) fn read(
        alloc: Global,
        files: Option<&YangFiles<'d, 's>>,
        node: &Node,
    ) -> Result<TypeChain<'d, 's>, AllocError> {
        let mut uses = Vec::new(alloc);
        let Some(files) = files else {
            return Ok(TypeChain { uses });
        };
        let file = node.file() as usize;
        let blocks = files.statements_to(alloc, file, node.offset())?;
        let mut next = TypeUse::in_last(file, blocks);
        for _ in 0..MOST_STEPS {
            let Some(at) = next else {
                break;
            };
            uses.push(FileStatement {
                file: at.file,
                statement: at.statement,
            })?;
            next = at.base(alloc, files)?;
        }
        Ok(TypeChain { uses })
    }

    /// Its `pattern` statements, those of the type that all others narrow first: at most 16.
    pub(crate) fn patterns(&self, alloc: Global) -> Result<Vec<FileStatement<'d, 's>>, AllocError> {
        let mut patterns = Vec::new(alloc);
        for site in self.uses.iter().rev() {
            push_patterns(&mut patterns, site)?;
        }
        Ok(patterns)
    }

    /// The member types of the union that it ends in.
    pub(crate) fn members(&self, alloc: Global) -> Result<Vec<&'s Statement<'d>>, AllocError> {
        match self.uses.last() {
            Some(site) if name_of(site.statement) == "union" => site
                .statement
                .children()
                .iter()
                .filter(|child| child.is(Keyword::Type))
                .collect(alloc),
            _ => Ok(Vec::new(alloc)),
        }
    }
}

// Adds the `pattern` statements of a type statement, as long as there are fewer than 16.
fn push_patterns<'d, 's>(
    patterns: &mut Vec<FileStatement<'d, 's>>,
    site: &FileStatement<'d, 's>,
) -> Result<(), AllocError> {
    for child in site.statement.children() {
        if patterns.len() >= MOST_PATTERNS {
            return Ok(());
        }
        if child.is(Keyword::Pattern) {
            patterns.push(FileStatement {
                file: site.file,
                statement: child,
            })?;
        }
    }
    Ok(())
}
