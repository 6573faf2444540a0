//! The search for the files that files ask for.
ghost use Rattle.std.specs.{Prelude.{◌≡◌, ◌<◌, ◌+◌, ◌||◌, ℕ, List, [], map, length, Option, Some, None, IfOk, OnOk}, Option.{option_map}, Str.{bytes_eq}, BTreeSet.{contains_text}, List.{cons_option}};
ghost use Rattle.yv_text_statement.specs.Words.{is_among};
ghost use Rattle.yv_search.specs.{Listing.{folder_of, files_of, ListedFile}, Search.{State, RootedFile, with_file}, InnerIndex.{listed_of, group_of, all_named}, InnerWants.{want}, InnerSearch.{IsAt, Finds, Tries, TriesWant}};

use crate::index::{File, Index};
use crate::listing::Folder;
use crate::wants::{Want, add_wants};
use std::alloc::{AllocError, Global};
use std::collections::BTreeSet;
use yv_text_statement::Statement;

/// How far a search has come. Each want is looked at once.
#[derive(Drop)]
pub(crate) struct Search<'a> {
    index: Index<'a>,
    wants: Vec<Want>,
    // The arguments of roots, and the names that were looked for.
    settled: BTreeSet<String>,
    // How many wants were passed.
    cursor: usize,
}

// A name isn't to be looked for any more.
fn settle(alloc: Global, settled: &mut BTreeSet<String>, name: &str) -> Result<(), AllocError>
    ensures { OnOk result ((q : List ℕ)
        → contains_text settled.new q ≡ (bytes_eq name.now q || contains_text settled.old q)) }
{
    settled.insert(String::from_str(alloc, name)?)?;
    Ok(())
}

// The argument of a root isn't to be looked for.
fn settle_root(
    alloc: Global,
    settled: &mut BTreeSet<String>,
    root: &Statement<'_>,
) -> Result<(), AllocError>
    ensures { OnOk result ((q : List ℕ) → contains_text settled.new q
        ≡ (is_among (cons_option root.now.head.argument []) q || contains_text settled.old q)) }
{
    match root.argument() {
        Some(name) => settle(alloc, settled, name),
        None => Ok(()),
    }
}

// The date of a want.
fn date_of(asked: &Want) -> Option<&[u8]>
    ensures { option_map (λ d. d.now) result ≡ (want asked.now).date }
{
    match &asked.date {
        Some(date) => Some(date.as_bytes()),
        None => None,
    }
}

// The file for a want, if its name is to be looked for and there is one.
fn try_want<'a>(
    alloc: Global,
    index: &Index<'a>,
    settled: &mut BTreeSet<String>,
    wanted: &Want,
) -> Result<Option<File<'a>>, AllocError>
    ensures { IfOk result (λ found. (listing : List ListedFile)
        → ((q : List ℕ) → group_of index.now q ≡ all_named q listing)
        → TriesWant listing (want wanted.now) (contains_text settled.old)
        (contains_text settled.new) (option_map listed_of found)) }
{
    if settled.contains(wanted.name.as_str()) {
        return Ok(None);
    }
    settle(alloc, settled, wanted.name.as_str())?;
    Ok(index.choose(wanted.name.as_bytes(), date_of(wanted)))
}

impl<'a> Search<'a> {
    /// The search in these folders, without files.
    pub(crate) fn new(alloc: Global, listing: &'a [Folder]) -> Result<Search<'a>, AllocError>
        ensures { IfOk result (λ search. IsAt (files_of (map folder_of listing.now)) search
            (record { files = []; sought = [] })) }
    {
        let index = Index::read(alloc, listing)?;
        Ok(Search {
            index,
            wants: Vec::new(alloc),
            settled: BTreeSet::new(alloc),
            cursor: 0,
        })
    }

    /// One more file, with this root.
    pub(crate) fn add(
        &mut self,
        alloc: Global,
        root: Option<&Statement<'_>>,
    ) -> Result<(), AllocError>
        ensures { OnOk result ((listing : List ListedFile) (s : State) (f : RootedFile)
            → f.root ≡ option_map (λ t. t.now) root.entry → IsAt listing self.old s
            → IsAt listing self.new (with_file s f)) }
    {
        let Some(root) = root else {
            return Ok(());
        };
        settle_root(alloc, &mut self.settled, root)?;
        add_wants(alloc, root, &mut self.wants)?;
        Ok(())
    }

    /// The next file that is to be read.
    pub(crate) fn next(&mut self, alloc: Global) -> Result<Option<File<'a>>, AllocError>
        ensures { IfOk result (λ found. (listing : List ListedFile) (s : State)
            → IsAt listing self.old s
            → Finds listing s self.new (option_map listed_of found)) }
    {
        while self.cursor < self.wants.len() {
            if let Some(file) = self.try_next(alloc)? {
                return Ok(Some(file));
            }
        }
        Ok(None)
    }

    // Passes the next want: the file for it, if its name is to be looked for and there is one.
    fn try_next(&mut self, alloc: Global) -> Result<Option<File<'a>>, AllocError>
        requires { self.old.cursor < length self.old.wants.items }
        ensures tries { IfOk result (λ found. (listing : List ListedFile) (s : State)
            → IsAt listing self.old s
            → Tries listing s self.new (option_map listed_of found)) }
        ensures passes { self.new.cursor ≡ self.old.cursor + 1 }
        ensures wants { self.new.wants ≡ self.old.wants }
    {
        let at = self.cursor;
        self.cursor = at + 1;
        let wants = self.wants.as_slice();
        let found = try_want(alloc, &self.index, &mut self.settled, &wants[at])?;
        Ok(found)
    }
}
