//! Why folders can't be listed.
use std::alloc::{AllocError, AllocFailed};
use std::io::{Error, ErrorKind};

/// Why folders can't be listed.
#[derive(Debug, Drop)]
pub enum FolderFault {
    /// The folder of this name can't be listed, for the system's reason.
    Unread { name: String, error: Error },
    /// There are more than 65,536 files.
    TooMany,
    /// There is no memory.
    NoMemory,
}

impl FolderFault {
    // What keeps the folder of this name from being listed, if the system gave this reason.
    pub(crate) fn of_error(name: String, error: Error) -> FolderFault {
        if error.kind() == ErrorKind::OutOfMemory {
            FolderFault::NoMemory
        } else {
            FolderFault::Unread { name, error }
        }
    }
}

impl From<AllocError> for FolderFault {
    fn from(_error: AllocError) -> FolderFault {
        FolderFault::NoMemory
    }
}

impl<T: Drop> From<AllocFailed<T>> for FolderFault {
    fn from(_error: AllocFailed<T>) -> FolderFault {
        FolderFault::NoMemory
    }
}
