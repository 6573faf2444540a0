//! The files of folders, by name, and which of them is chosen.
ghost use Rattle.std.specs.{Prelude.{◌≡◌, ℕ, List, [], ◌∷◌, ◌++◌, map, string_bytes, if◌then◌else◌, Some, None, IfOk, OnOk}, Option.{option_map}, Str.{bytes_eq}};
ghost use Rattle.yv_search.specs.{Listing.{Folder as FolderSpec, ListedFile, folder_of, files_in, files_of}, FileNames.{name_in_path}, Choice.{suits, is_later, is_better, better_of, choice_of}, InnerIndex.{listed_of, candidate_of, group_of, rows_at, if_name, all_named, text_of, chosen_of}};

use crate::file_name::name_in_path;
use crate::listing::Folder;
use std::alloc::{AllocError, Global};
use std::cmp::Ordering;
use std::collections::BTreeMap;

/// A file of a folder.
#[derive(Clone, Copy)]
pub(crate) struct File<'a> {
    /// The number of the folder.
    pub(crate) folder: usize,
    /// The folder's name.
    pub(crate) folder_name: &'a str,
    /// The path of the file from the folder.
    pub(crate) path: &'a str,
}

// A file, and the date in its name.
#[derive(Clone, Copy)]
struct Row<'a> {
    file: File<'a>,
    date: Option<&'a [u8]>,
}

/// The files of folders in order, by the names that theirs begin with.
#[derive(Drop)]
pub(crate) struct Index<'a> {
    groups: BTreeMap<&'a [u8], Vec<Row<'a>>>,
}

impl<'a> Index<'a> {
    /// The files of these folders.
    pub(crate) fn read(alloc: Global, listing: &'a [Folder]) -> Result<Index<'a>, AllocError>
        ensures { IfOk result (λ index. (q : List ℕ)
            → group_of index q ≡ all_named q (files_of (map folder_of listing.now))) }
    {
        let mut index = Index {
            groups: BTreeMap::new(alloc),
        };
        for (number, folder) in listing.iter().enumerate() {
            index.add_folder(alloc, number, folder)?;
        }
        Ok(index)
    }

    // Keeps the files of a folder after the others.
    fn add_folder(
        &mut self,
        alloc: Global,
        number: usize,
        folder: &'a Folder,
    ) -> Result<(), AllocError>
        ensures { OnOk result ((q : List ℕ) → group_of self.new q
            ≡ group_of self.old q ++ all_named q (files_in number (folder_of folder.now))) }
    {
        for path in &folder.paths {
            let file = File {
                folder: number,
                folder_name: folder.name.as_str(),
                path: path.as_str(),
            };
            self.add_file(alloc, file)?;
        }
        Ok(())
    }

    // Keeps a file after the others, where its name is one of a module's.
    fn add_file(&mut self, alloc: Global, file: File<'a>) -> Result<(), AllocError>
        ensures { OnOk result ((q : List ℕ) → group_of self.new q
            ≡ group_of self.old q
            ++ if_name q (listed_of file.entry) (name_in_path file.entry.path.now)) }
    {
        if let Some(name) = name_in_path(file.path.as_bytes()) {
            let row = Row {
                file,
                date: name.date,
            };
            self.keep(alloc, name.name, row)?;
        }
        Ok(())
    }

    // Keeps a file after the others of this name.
    fn keep(&mut self, alloc: Global, name: &'a [u8], row: Row<'a>) -> Result<(), AllocError>
        ensures { OnOk result ((q : List ℕ) → rows_at self.new q
            ≡ rows_at self.old q ++ (if bytes_eq name.now q then row.entry ∷ [] else [])) }
    {
        let mut rows = self.groups.remove(name).unwrap_or(Vec::new(alloc));
        rows.push(row)?;
        self.groups.insert(name, rows)?;
        Ok(())
    }

    /// The file that is chosen for a name, and perhaps a date.
    pub(crate) fn choose(&self, name: &[u8], date: Option<&[u8]>) -> Option<File<'a>>
        ensures { (files : List ListedFile)
            → ((q : List ℕ) → group_of self.now q ≡ all_named q files)
            → option_map listed_of result
            ≡ option_map (λ c. c.file)
            (choice_of (record { name = name.now; date = text_of date.entry }) files) }
    {
        match self.groups.get(name) {
            Some(rows) => chosen_file(rows, date),
            None => None,
        }
    }
}

// The file that is chosen of some of the name that is wanted.
fn chosen_file<'a>(rows: &[Row<'a>], date: Option<&[u8]>) -> Option<File<'a>>
    ensures { option_map listed_of result
        ≡ option_map (λ c. c.file) (chosen_of (text_of date.entry) (map candidate_of rows.now)) }
{
    match choice(rows, date) {
        Some(row) => Some(row.file),
        None => None,
    }
}

// Which of some files of the name that is wanted is chosen.
fn choice<'a>(rows: &[Row<'a>], date: Option<&[u8]>) -> Option<Row<'a>>
    ensures { option_map candidate_of result
        ≡ chosen_of (text_of date.entry) (map candidate_of rows.now) }
{
    let mut kept = None;
    let mut left = rows.len();
    while left > 0 {
        left -= 1;
        let row = rows[left];
        if suits(date, row.date) {
            kept = Some(better_of(row, kept));
        }
    }
    kept
}

// Whether a file with this date may be chosen.
fn suits(wanted: Option<&[u8]>, date: Option<&[u8]>) -> bool
    ensures { result ≡ suits (text_of wanted.entry) (text_of date.entry) }
{
    match (wanted, date) {
        (Some(wanted), Some(date)) => wanted == date,
        _ => true,
    }
}

// A file, or in its place the one that is chosen of those after it.
fn better_of<'a>(row: Row<'a>, later: Option<Row<'a>>) -> Row<'a>
    ensures { Some (candidate_of result)
        ≡ better_of (Some (candidate_of row.entry)) (option_map candidate_of later.entry) }
{
    match later {
        Some(other) if is_better(&other, &row) => other,
        _ => row,
    }
}

// Whether a file is chosen in place of an earlier one.
fn is_better(row: &Row<'_>, earlier: &Row<'_>) -> bool
    ensures { result ≡ is_better (candidate_of row.now) (candidate_of earlier.now) }
{
    row.file.folder == earlier.file.folder && is_later(row.date, earlier.date)
}

// Whether a date is later than another.
fn is_later(date: Option<&[u8]>, other: Option<&[u8]>) -> bool
    ensures { result ≡ is_later (text_of date.entry) (text_of other.entry) }
{
    match (date, other) {
        (Some(date), Some(other)) => date.cmp(other) == Ordering::Greater,
        (Some(_), None) => true,
        (None, _) => false,
    }
}
