//! The files of the system, as a search fetches them.
use crate::file_read::{FileFault, read_file};
use std::alloc::{AllocError, Global};
use std::rt::Files;
use yv_search::Shelf;

/// The shelf of the files of the system. It keeps why the last one that couldn't be read couldn't.
#[derive(Drop)]
pub struct FileShelf<'a, R> {
    files: &'a R,
    failure: Option<FileFault>,
}

impl<'a, R> FileShelf<'a, R> {
    /// The shelf, before a file was fetched.
    pub fn new(files: &'a R) -> FileShelf<'a, R> {
        FileShelf {
            files,
            failure: None,
        }
    }

    /// Why the last file that couldn't be read couldn't.
    pub fn failure(self) -> Option<FileFault> {
        self.failure
    }
}

impl<R: Files + AllocGlobal> Shelf for FileShelf<'_, R> {
    ghost use Rattle.std.specs.Prelude.{None};

    ghost shelf = { λ _. None };

    fn fetch(&mut self, _alloc: Global, name: &str) -> Result<Option<Vec<u8>>, AllocError> {
        match read_file(self.files, name) {
            Ok(input) => Ok(Some(input.bytes)),
            Err(FileFault::NoMemory) => Err(AllocError),
            Err(fault) => {
                self.failure = Some(fault);
                Ok(None)
            }
        }
    }
}
