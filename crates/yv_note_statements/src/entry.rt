//! The statements of the files as one list, with what their arguments mean.
ghost use Rattle.std.specs.{Prelude.{◌≡◌, ◌<◌, All, Some, length, map, nat_lt, slice_get, IfOk}};
ghost use Rattle.yv_link_scopes.specs.Views.{files_in, rows_in};
ghost use Rattle.yv_note_statements.specs.Entries.{MarkRoots, kind_of, row_of};

use std::alloc::{AllocError, Global};
use yv_link_scopes::{NameKind, NamePlaces, Rows, first_places, local, name_of};
use yv_text_statement::{Keyword, Statement};

/// A statement of the files.
#[derive(Clone, Copy)]
pub struct StatementEntry<'a> {
    /// The number of its file.
    pub file: u32,
    /// Whether it is the outermost statement of its file.
    pub is_root: bool,
    /// The number of the statement in whose block its names are.
    pub scope: usize,
    /// The keyword, with a prefix if it is an extension's.
    pub keyword: &'a str,
    /// What the keyword means, by which it is compared.
    pub kind: Keyword,
    pub argument: Option<&'a str>,
    /// The line on which it begins, from 1.
    pub line: u64,
    /// How many bytes of its file come before it.
    pub offset: u64,
    /// The number of the statement that the argument means: of a `type`, a `uses` and a `base` the
    /// definition, of a `prefix` the root of its module, of an `import`, an `include` and a
    /// `belongs-to` the root of that name, and of a root that of its module.
    pub meaning: Option<usize>,
}

// Where definitions are, by block and name.
#[derive(Drop)]
struct Definitions<'a> {
    typedefs: NamePlaces<'a>,
    groupings: NamePlaces<'a>,
    identities: NamePlaces<'a>,
}

impl<'a> Definitions<'a> {
    fn read(alloc: Global, rows: &Rows<'a, '_>) -> Result<Definitions<'a>, AllocError> {
        let typedefs = first_places(alloc, NameKind::Typedef, rows)?;
        let groupings = first_places(alloc, NameKind::Grouping, rows)?;
        let identities = first_places(alloc, NameKind::Identity, rows)?;
        Ok(Definitions {
            typedefs,
            groupings,
            identities,
        })
    }

    // The identity of a name in a file.
    fn identity(&self, rows: &Rows<'a, '_>, file: u32, name: &'a str) -> Option<usize> {
        let block = rows.block_of(file as usize, name)?;
        self.identities.get(block, local(name))
    }

    // What the argument of a statement means.
    fn meaning(
        &self,
        rows: &Rows<'a, '_>,
        number: usize,
        file: u32,
        statement: &'a Statement<'_>,
    ) -> Option<usize> {
        let name = name_of(statement);
        match statement.kind() {
            Keyword::Type => rows.meaning(&self.typedefs, number, name),
            Keyword::Uses => rows.meaning(&self.groupings, number, name),
            Keyword::Base => self.identity(rows, file, name),
            Keyword::Prefix => rows.module_of(file as usize, name),
            Keyword::Import | Keyword::Include | Keyword::BelongsTo => rows.file_named(name),
            Keyword::Module | Keyword::Submodule => Some(rows.module_file(number)),
            _ => None,
        }
    }
}

// The entry of the statement of this number.
fn entry_of<'a>(
    rows: &Rows<'a, '_>,
    definitions: &Definitions<'a>,
    number: usize,
) -> StatementEntry<'a>
    requires { number < length (rows_in rows.now) }
    ensures row { Some (row_of result) ≡ slice_get (rows_in rows.now) number }
    ensures kind { result.kind ≡ kind_of (row_of result) }
    ensures root { result.is_root ≡ nat_lt number (length (files_in rows.now)) }
{
    let row = &rows.entries()[number];
    let statement = row.statement;
    StatementEntry {
        file: row.file,
        is_root: number < rows.files().len(),
        scope: row.scope,
        keyword: statement.keyword(),
        kind: statement.kind(),
        argument: statement.argument(),
        line: statement.line(),
        offset: statement.offset(),
        meaning: definitions.meaning(rows, number, row.file, statement),
    }
}

/// The statements of the files in their order, which numbers them.
pub fn entries<'a>(
    alloc: Global,
    rows: &Rows<'a, '_>,
) -> Result<Vec<StatementEntry<'a>>, AllocError>
    // Each entry has the file, the block, the words and the place of its statement.
    ensures rows { IfOk result (λ entries. map row_of entries.items ≡ rows_in rows.now) }
    // Its kind is what its keyword means.
    ensures kinds { IfOk result
        (λ entries. All (λ entry. entry.kind ≡ kind_of (row_of entry)) entries.items) }
    // The roots of the files come first.
    ensures roots { IfOk result
        (λ entries. MarkRoots (length (files_in rows.now)) entries.items) }
{
    let definitions = Definitions::read(alloc, rows)?;
    let mut entries = Vec::new(alloc);
    for number in 0..rows.len() {
        entries.push(entry_of(rows, &definitions, number))?;
    }
    Ok(entries)
}
