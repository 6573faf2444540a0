//! The files of the modules, in which notes find statements and their places.
use itoa::Buffer;
use std::alloc::{AllocError, Global};
use yv_base_streams::Input;
use yv_link_scopes::{local, name_of, prefix_of};
use yv_note_text::{front, push_shown};
use yv_text_statement::{Keyword, Statement};

/// How many statements of a root are looked at for its prefixes, imports and module: they come
/// first in a file.
const MOST_HEADERS: usize = 1000;

/// How deep statements are followed: a file has none that nest deeper.
const MOST_DEPTH: usize = 64;

/// The files of the modules: what they are called, and the statements that they spell.
#[derive(Clone, Copy)]
pub struct YangFiles<'d, 's> {
    inputs: &'d [Input],
    statements: &'s [Statement<'d>],
}

/// The site of a statement: the number of its file, and the statement.
#[derive(Clone, Copy)]
pub struct FileStatement<'d, 's> {
    pub file: usize,
    pub statement: &'s Statement<'d>,
}

impl<'d, 's> YangFiles<'d, 's> {
    /// These files, and the statement of each, in the same order.
    pub fn new(inputs: &'d [Input], statements: &'s [Statement<'d>]) -> YangFiles<'d, 's> {
        YangFiles { inputs, statements }
    }

    /// The statements of the files, one of each.
    pub fn roots(&self) -> &'s [Statement<'d>] {
        self.statements
    }

    /// The statement at an offset of a file, after those in whose blocks it is, from the outermost
    /// on. There is none where no statement begins there.
    pub fn statements_to(
        &self,
        alloc: Global,
        file: usize,
        offset: u64,
    ) -> Result<Vec<&'s Statement<'d>>, AllocError> {
        let mut way = Vec::new(alloc);
        let mut next = self.statements.get(file);
        for _ in 0..MOST_DEPTH {
            let Some(statement) = next else {
                break;
            };
            way.push(statement)?;
            if statement.offset() == offset {
                return Ok(way);
            }
            next = last_before(statement.children(), offset);
        }
        Ok(Vec::new(alloc))
    }

    /// The name of the module that a prefix means in a file; without a prefix, of the file's own.
    pub fn module_named(&self, file: usize, prefix: Option<&str>) -> Option<&'s str> {
        let root = self.statements.get(file)?;
        match prefix {
            None => module_of(root),
            Some(prefix) if is_own_prefix(root, prefix) => module_of(root),
            Some(prefix) => root
                .children()
                .iter()
                .take(MOST_HEADERS)
                .find(|child| child.is(Keyword::Import) && declares(*child, prefix))
                .map(|import| name_of(import)),
        }
    }

    /// The definition of a keyword at the top of the files of a module.
    pub fn top_definition(
        &self,
        module: &str,
        keyword: Keyword,
        name: &str,
    ) -> Option<FileStatement<'d, 's>> {
        for (file, root) in self.statements.iter().enumerate() {
            if module_of(root) == Some(module) {
                if let Some(statement) = definition_in(root, keyword, name) {
                    return Some(FileStatement { file, statement });
                }
            }
        }
        None
    }

    /// The definition at the top of a module that a name in a file means, by its prefix.
    pub fn definition_named(
        &self,
        file: usize,
        keyword: Keyword,
        name: &str,
    ) -> Option<FileStatement<'d, 's>> {
        let module = self.module_named(file, prefix_of(name))?;
        self.top_definition(module, keyword, local(name))
    }

    /// Adds the file and the line of a statement, as ` (ex.yang:7)`.
    pub fn push_place(
        &self,
        text: &mut String,
        site: &FileStatement<'_, '_>,
    ) -> Result<(), AllocError> {
        let Some(input) = self.inputs.get(site.file) else {
            return Ok(());
        };
        text.push_str(" (")?;
        push_shown(text, front(input.name.as_bytes()))?;
        text.push_str(":")?;
        text.push_str(Buffer::new().format(site.statement.line()))?;
        text.push_str(")")
    }
}

// The last of some statements that begins at an offset or before it.
fn last_before<'d, 's>(statements: &'s [Statement<'d>], offset: u64) -> Option<&'s Statement<'d>> {
    let count = statements.partition_point(|statement| statement.offset() <= offset);
    statements.get(count.checked_sub(1)?)
}

/// The name of the module to which the file of a root belongs.
pub fn module_of<'s>(root: &'s Statement<'_>) -> Option<&'s str> {
    if root.is(Keyword::Module) {
        return root.argument();
    }
    root.children()
        .iter()
        .take(MOST_HEADERS)
        .find(|child| child.is(Keyword::BelongsTo))
        .map(|belongs_to| name_of(belongs_to))
}

// Whether a prefix is that of a file's own module.
fn is_own_prefix(root: &Statement<'_>, prefix: &str) -> bool {
    declares(root, prefix)
        || root.children().iter().any(|child| child.is(Keyword::BelongsTo)
            && declares(child, prefix))
}

// Whether a statement has a `prefix` of this name in its block.
fn declares(statement: &Statement<'_>, prefix: &str) -> bool {
    statement.children().iter().any(|child| child.is(Keyword::Prefix)
        && child.argument() == Some(prefix))
}

/// The definition of a keyword and a name right in the block of a statement.
pub fn definition_in<'d, 's>(
    block: &'s Statement<'d>,
    keyword: Keyword,
    name: &str,
) -> Option<&'s Statement<'d>> {
    block.children().iter().find(|child| child.is(keyword) && child.argument() == Some(name))
}
