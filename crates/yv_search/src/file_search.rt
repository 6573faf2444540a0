//! The files of a search: those that were named, and those that are found.
ghost use Rattle.std.specs.{Prelude.{◌≡◌, ℕ, List, [], map, Option, string_bytes, IfOk, OnOk}, Option.{option_map}};
ghost use Rattle.yv_base_streams.specs.Files.{file_of};
ghost use Rattle.yv_search.specs.{declared.file_search.Gathering.TheVariants.{NoMemory}, Listing.{ListedFile, folder_of, files_of, found_name}, Search.{State, Gives}, SearchAnswers.{Answers}, InnerIndex.{listed_of}, InnerSearch.{IsAt}, InnerGather.{Takes, Begins}};

use crate::index::File;
use crate::listing::Folder;
use crate::roots::{file_root, file_text};
use crate::search::Search;
use std::alloc::{AllocError, AllocFailed, Global};
use yv_base_streams::Input;

// How many files there may be.
const MOST_FILES: usize = 256;

/// A shelf: what files have, by their names.
pub trait Shelf {
    // What the file of each name has, where that is known.
    ghost shelf: { Self → Option (List ℕ → Option (List ℕ)) };

    /// The bytes in the file of this name, or `None` if it can't be read.
    fn fetch(&mut self, alloc: Global, name: &str) -> Result<Option<Vec<u8>>, AllocError>
        // These are what the shelf has, where that is known.
        ensures gives { IfOk result (λ bytes. Gives (shelf self.old) name.now
            (option_map (λ v. v.items) bytes)) }
        // The shelf has the same at each time.
        ensures same { shelf self.new ≡ shelf self.old };
}

/// Why a gathering has no files.
#[derive(Debug, Drop)]
pub enum Gathering {
    /// The file of this name, which was found, can't be read.
    Unread(String),
    /// There are more than 256 files.
    TooMany,
    /// There is no memory.
    NoMemory,
}

impl From<AllocError> for Gathering {
    ghost from_gives = { λ _ gathering. gathering ≡ NoMemory };

    fn from(_error: AllocError) -> Gathering {
        Gathering::NoMemory
    }
}

impl<T: Drop> From<AllocFailed<T>> for Gathering {
    ghost from_gives = { λ _ gathering. gathering ≡ NoMemory };

    fn from(_error: AllocFailed<T>) -> Gathering {
        Gathering::NoMemory
    }
}

// The name of a file that was found.
fn name_of(alloc: Global, file: File<'_>) -> Result<String, AllocError>
    ensures { IfOk result (λ name. string_bytes name ≡ found_name (listed_of file.entry)) }
{
    let mut name = String::from_str(alloc, file.folder_name)?;
    if !file.folder_name.as_bytes().ends_with(b"/") {
        name.push_str("/")?;
    }
    name.push_str(file.path)?;
    Ok(name)
}

// Reads the root of a file.
fn take<'a>(alloc: Global, search: &mut Search<'a>, bytes: &[u8]) -> Result<(), AllocError>
    ensures { OnOk result ((listing : List ListedFile) (s : State) (name : List ℕ)
        → IsAt listing search.old s
        → Takes listing s (record { name = name; bytes = bytes.now }) search.new) }
{
    let text = file_text(alloc, bytes)?;
    let root = file_root(alloc, &text)?;
    search.add(alloc, root.as_ref())?;
    Ok(())
}

// Reads the roots of the named files.
fn take_all<'a>(alloc: Global, search: &mut Search<'a>, named: &[Input]) -> Result<(), AllocError>
    ensures { OnOk result ((listing : List ListedFile)
        → IsAt listing search.old (record { files = []; sought = [] })
        → Begins listing (map file_of named.now) search.new) }
{
    for input in named {
        take(alloc, search, &input.bytes)?;
    }
    Ok(())
}

/// The named files, and then those that they and the found ones ask for, which a file of the
/// listing is chosen for, each with its bytes from the shelf.
pub fn gather<S: Shelf>(
    alloc: Global,
    listing: &[Folder],
    named: Vec<Input>,
    shelf: &mut S,
) -> Result<Vec<Input>, Gathering>
    // The files that the search finds, or why there are none.
    ensures { Answers (files_of (map folder_of listing.now)) (S.shelf shelf.old)
        (map file_of named.items) result }
{
    let mut search = Search::new(alloc, listing)?;
    take_all(alloc, &mut search, &named)?;
    let mut files = named;
    loop {
        let Some(found) = search.next(alloc)? else {
            return Ok(files);
        };
        if files.len() >= MOST_FILES {
            return Err(Gathering::TooMany);
        }
        let name = name_of(alloc, found)?;
        let Some(bytes) = shelf.fetch(alloc, name.as_str())? else {
            return Err(Gathering::Unread(name));
        };
        take(alloc, &mut search, &bytes)?;
        files.push(Input { name, bytes })?;
    }
}
