//! The files of a request: those that it names, and those that its folders have for their imports.
ghost use Rattle.std.specs.Prelude.{◌≤◌, length, IfOk};

use crate::stop::Stop;
use std::rt::Files;
use yv_base_streams::Input;
use yv_folders::{FileFault, FileShelf, FolderFault, list_folders, read_files};
use yv_job::Request;
use yv_search::{Gathering, gather};

/// How many files a run may have.
const MOST_FILES: usize = 256;

const TOO_MANY_FILES: &str = "--path leads to more than 256 files";

const TOO_MANY_PATHS: &str = "--path leads to more than 65536 files";

/// Reads the files that a request names, in order, and then those that they ask for and that its
/// folders have.
pub(crate) fn find_files<R: Files + AllocGlobal + Clone + Drop>(
    rt: &R,
    request: &Request,
) -> Result<Vec<Input>, Stop>
    ensures bounds { IfOk result (λ v. (1 ≤ length v.items) × (length v.items ≤ 256)) }
{
    let named = read_named(rt, request)?;
    let files = if request.folders.is_empty() {
        named
    } else {
        search_folders(rt, request, named)?
    };
    if files.is_empty() || files.len() > MOST_FILES {
        return Err(Stop::usage(rt.alloc(), TOO_MANY_FILES));
    }
    Ok(files)
}

// Reads the files that a request names.
fn read_named<R: Files + AllocGlobal>(rt: &R, request: &Request) -> Result<Vec<Input>, Stop> {
    match read_files(rt, request.files.as_slice()) {
        Ok(files) => Ok(files),
        Err(unread) => match request.files.get(unread.place) {
            Some(name) => Err(of_file(rt, name.as_str(), unread.fault)),
            None => Err(Stop::no_memory()),
        },
    }
}

// What a file that can't be read stops.
fn of_file<R: AllocGlobal>(rt: &R, name: &str, fault: FileFault) -> Stop {
    match fault {
        FileFault::Folder => Stop::folder(rt.alloc(), name),
        FileFault::Unread(error) => Stop::unread_file(rt.alloc(), name, error),
        FileFault::NoMemory => Stop::no_memory(),
    }
}

// The named files, and then those that folders have for their imports.
fn search_folders<R: Files + AllocGlobal + Clone + Drop>(
    rt: &R,
    request: &Request,
    named: Vec<Input>,
) -> Result<Vec<Input>, Stop> {
    let listing = match list_folders(rt, request.folders.as_slice()) {
        Ok(listing) => listing,
        Err(FolderFault::Unread { name, error }) => {
            return Err(Stop::unread_file(rt.alloc(), name.as_str(), error));
        }
        Err(FolderFault::TooMany) => return Err(Stop::usage(rt.alloc(), TOO_MANY_PATHS)),
        Err(FolderFault::NoMemory) => return Err(Stop::no_memory()),
    };
    let mut shelf = FileShelf::new(rt);
    match gather(rt.alloc(), listing.as_slice(), named, &mut shelf) {
        Ok(files) => Ok(files),
        Err(Gathering::Unread(name)) => Err(of_found(rt, name.as_str(), shelf.failure())),
        Err(Gathering::TooMany) => Err(Stop::usage(rt.alloc(), TOO_MANY_FILES)),
        Err(Gathering::NoMemory) => Err(Stop::no_memory()),
    }
}

// What a found file that can't be read stops.
fn of_found<R: AllocGlobal>(rt: &R, name: &str, failure: Option<FileFault>) -> Stop {
    match failure {
        Some(FileFault::Unread(error)) => Stop::unread_file(rt.alloc(), name, error),
        Some(FileFault::NoMemory) => Stop::no_memory(),
        Some(FileFault::Folder) | None => Stop::unread_file(rt.alloc(), name, "reading it failed"),
    }
}
