//! The statements of the files, and what prefixes and names in them mean.
ghost use Rattle.std.specs.{Prelude.{◌≡◌, ◌<◌, ◌≤◌, ℕ, List, map, length, slice_get, IfOk, IsErr}, Option.{option_map, unwrap_or}};
ghost use Rattle.yv_link_scopes.specs.{Tables.{table_of, first_of}, Files.{brief, brief_of, file_named, module_file_at}, Rows.{row, tree}, RowList.{rows_of, statements_of}, declared.kind.NameKind.{NameKind}, declared.kind.NameKind.TheVariants.{Prefix}};

use crate::entries::read_entries;
use crate::entry::Entry;
use crate::files::{File, file_places, module_files, read_files};
use crate::kind::{NameKind, first_entries};
use crate::names::{local, name_of, prefix_of};
use crate::places::NamePlaces;
use crate::scopes::meaning_at;
use std::alloc::{AllocError, Global};
use yv_text_statement::Statement;

// Each statement has a number of 32 bits, and three such numbers are left over, since other crates
// need some that no statement has.
const MOST_STATEMENTS: usize = 4_294_967_293;

/// The rows of files: their statements as one numbered list.
#[derive(Drop)]
pub struct Rows<'a, 'b> {
    roots: &'a [Statement<'b>],
    files: Vec<File<'a, 'b>>,
    entries: Vec<Entry<'a, 'b>>,
    names: NamePlaces<'a>,
    module_files: Vec<usize>,
    prefixes: NamePlaces<'a>,
    ghost few: { length roots.now ≤ 4294967296 },
    ghost few_rows: { length entries.items ≤ 4294967293 },
    ghost briefed: { map brief files.items ≡ map brief_of roots.now },
    ghost listed: { map row entries.items ≡ rows_of roots.now },
    ghost told: { map tree entries.items ≡ statements_of roots.now },
    ghost named_so: { (name : List ℕ) → table_of names 0 name ≡ file_named (map brief files.items) name },
    ghost belong_so: { (n : ℕ) → unwrap_or (slice_get module_files.items n) n ≡ module_file_at (map brief files.items) n },
    ghost declared_so: { (s : ℕ) (n : List ℕ) → table_of prefixes s n ≡ first_of Prefix (map row entries.items) s n },
}

impl<'a, 'b> Rows<'a, 'b> {
    ghost use Rattle.yv_link_scopes.specs.{Views.{lent_in, files_in, rows_in, trees_in}, Scopes.{Means, MeansIn, block_of, module_of, start_of}};

    /// The statements of files that have these roots. Err if memory runs out, and where there are
    /// more than 2^32 - 3 statements.
    pub fn read(alloc: Global, roots: &'a [Statement<'b>]) -> Result<Rows<'a, 'b>, AllocError>
        // The roots that it lends are these.
        ensures lends { IfOk result (λ rows. lent_in rows ≡ roots.now) }
        // Its files are those of the roots.
        ensures files { IfOk result (λ rows. files_in rows ≡ map brief_of roots.now) }
        // Its statements are theirs, in order.
        ensures rows { IfOk result (λ rows. rows_in rows ≡ rows_of roots.now) }
        // More than 2^32 - 3 statements are answered as if memory ran out.
        ensures many { 4294967293 < length (rows_of roots.now) → IsErr result }
    {
        if roots.len() > MOST_STATEMENTS {
            return Err(AllocError);
        }
        let files = read_files(alloc, roots)?;
        let names = file_places(alloc, &files)?;
        let module_files = module_files(alloc, &files, &names)?;
        let entries = read_entries(alloc, roots, &files, &names)?;
        if entries.len() > MOST_STATEMENTS {
            return Err(AllocError);
        }
        let prefixes = first_entries(alloc, NameKind::Prefix, &entries)?;
        Ok(Rows {
            roots,
            files,
            entries,
            names,
            module_files,
            prefixes,
        })
    }

    /// How many statements there are, without those inside extensions' statements: never more than
    /// 2^32 - 3.
    pub fn len(&self) -> usize
        // The number of statements.
        ensures count { result ≡ length (rows_in self.now) }
        // There are at most 2^32 - 3.
        ensures few { length (rows_in self.now) ≤ 4294967293 }
    {
        self.entries.len()
    }

    /// The statements by number, without those inside extensions' statements.
    pub fn entries(&self) -> &[Entry<'a, 'b>]
        ensures { map row result.now ≡ rows_in self.now }
    {
        &self.entries
    }

    /// The statement of a number, with what is in its block.
    pub fn statement(&self, number: usize) -> Option<&'a Statement<'b>>
        ensures { option_map (λ s. s.now) result ≡ slice_get (trees_in self.now) number }
    {
        Some(self.entries.get(number)?.statement)
    }

    /// The files, in the order of their roots.
    pub fn files(&self) -> &[File<'a, 'b>]
        // The files, each with the head of its root.
        ensures each { map brief result.now ≡ files_in self.now }
        // There are at most 2^32.
        ensures few { length result.now ≤ 4294967296 }
    {
        &self.files
    }

    /// The roots as they were lent.
    pub fn statements(&self) -> &'a [Statement<'b>]
        ensures { result.now ≡ lent_in self.now }
    {
        self.roots
    }

    /// The number of the first file of a name.
    pub fn file_named(&self, name: &'a str) -> Option<usize>
        ensures { result ≡ file_named (files_in self.now) name.now }
    {
        self.names.get(0, name)
    }

    /// The number of the file of the module to which a file belongs, its own where that module
    /// isn't there. Takes constant time.
    pub fn module_file(&self, file: usize) -> usize
        ensures { result ≡ module_file_at (files_in self.now) file }
    {
        self.module_files.get(file).copied().unwrap_or(file)
    }

    /// The number of the file of the module that a prefix identifies in a file.
    pub fn module_of(&self, file: usize, prefix: &'a str) -> Option<usize>
        ensures { result ≡ module_of (files_in self.now) (rows_in self.now) file prefix.now }
    {
        let number = self.prefixes.get(file, prefix)?;
        let declared = self.entries.get(number)?;
        let outer = self.entries.get(declared.scope)?;
        self.file_named(name_of(outer.statement))
    }

    /// The number of the root in whose block a feature or an identity is looked up by its name.
    pub fn block_of(&self, file: usize, name: &'a str) -> Option<usize>
        ensures { result ≡ block_of (files_in self.now) (rows_in self.now) file name.now }
    {
        match prefix_of(name) {
            Some(prefix) => self.module_of(file, prefix),
            None => Some(self.module_file(file)),
        }
    }

    // The number of the block in which a name in a statement is looked up.
    fn start_of(&self, number: usize, name: &'a str) -> Option<usize>
        ensures { result ≡ start_of (files_in self.now) (rows_in self.now) number name.now }
    {
        let entry = self.entries.get(number)?;
        let Some(prefix) = prefix_of(name) else {
            return Some(entry.scope);
        };
        let file = entry.file as usize;
        let module = self.module_of(file, prefix)?;
        let own = self.module_file(file);
        Some(if module == own { entry.scope } else { module })
    }

    /// The number of the first statement that has a name in a block or in one that encloses it, the
    /// places being those of the statements of a kind (RFC 7950, section 5.5).
    pub fn meaning_in(&self, places: &NamePlaces<'a>, block: usize, name: &'a str) -> Option<usize>
        ensures { (kind : NameKind) → table_of places.now ≡ first_of kind (rows_in self.now)
            → Means kind (rows_in self.now) block name.now result }
    {
        meaning_at(places, &self.entries, block, name)
    }

    /// The number of the definition that the name of a typedef or of a grouping means in a numbered
    /// statement, the places being those of that kind.
    pub fn meaning(&self, places: &NamePlaces<'a>, number: usize, name: &'a str) -> Option<usize>
        ensures { (kind : NameKind) → table_of places.now ≡ first_of kind (rows_in self.now)
            → MeansIn (files_in self.now) (rows_in self.now) kind number name.now result }
    {
        let block = self.start_of(number, name)?;
        meaning_at(places, &self.entries, block, local(name))
    }
}
