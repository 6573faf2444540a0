//! Going through a folder, depth by depth.
ghost use Rattle.std.specs.Prelude.{◌≡◌, true, string_bytes, IfOk};
ghost use Rattle.yv_folders.specs.{Paths.{is_listed}, InnerWalk.{Keeps, IsFresh}};

use crate::folder_fault::FolderFault;
use crate::path_rules::{is_folder_path, is_module_path, path_below, whole_of};
use std::alloc::{AllocError, Global};
use std::io::{Error, ErrorKind};
use std::rt::Files;
use std::{fs, io, mem};

// How far a folder was gone through. The folders of one depth are closed before those of the next
// are opened, and only one is open at a time.
#[derive(Drop)]
pub(crate) struct Walk<'a> {
    // The name of the folder, and how many files may be found in it.
    name: &'a str,
    room: usize,
    // The paths from it of the files so far.
    paths: Vec<String>,
    // The paths from it of the folders that are to be listed next, all of one depth. Its own is
    // empty.
    folders: Vec<String>,
}

// What is in a folder under a name.
#[derive(Clone, Copy, PartialEq, Eq, Drop)]
enum Entry {
    Folder,
    File,
    Other,
}

// What the path is that of. A link is followed if `follows`, and only to a file.
fn entry_at<R: Files>(rt: &R, whole: &str, follows: bool) -> io::Result<Entry> {
    let metadata = fs::symlink_metadata(rt, whole)?;
    if metadata.is_dir() {
        Ok(Entry::Folder)
    } else if metadata.is_file() || follows && metadata.is_symlink() && is_file(rt, whole) {
        Ok(Entry::File)
    } else {
        Ok(Entry::Other)
    }
}

// Whether the path, or what it links to, is a file.
fn is_file<R: Files>(rt: &R, whole: &str) -> bool {
    match fs::metadata(rt, whole) {
        Ok(metadata) => metadata.is_file(),
        Err(_) => false,
    }
}

// Whether this says of a name in a folder that it is not UTF-8, and not of the folder that it can't
// be read.
fn is_no_text(error: &Error) -> bool {
    error.kind() == ErrorKind::InvalidFilename && error.raw_os_error().is_none()
}

impl<'a> Walk<'a> {
    // A folder in which nothing was found yet.
    pub(crate) fn new(alloc: Global, name: &'a str, room: usize) -> Result<Walk<'a>, AllocError>
        ensures { IfOk result (IsFresh name.now room) }
    {
        let mut folders = Vec::new(alloc);
        folders.push(String::new(alloc))?;
        Ok(Walk {
            name,
            room,
            paths: Vec::new(alloc),
            folders,
        })
    }

    // The paths that were found.
    pub(crate) fn into_paths(self) -> Vec<String>
        ensures { result ≡ self.entry.paths }
    {
        self.paths
    }

    // Lists the folders of one depth.
    pub(crate) fn go_down<R: Files + AllocGlobal + Clone + Drop>(
        &mut self,
        rt: &R,
    ) -> Result<(), FolderFault>
        ensures { Keeps self.old self.new }
    {
        let folders = mem::replace(&mut self.folders, Vec::new(rt.alloc()));
        for path in &folders {
            self.list(rt, path.as_str())?;
        }
        self.folders.sort()?;
        Ok(())
    }

    // Lists the folder of a path.
    fn list<R: Files + AllocGlobal + Clone + Drop>(
        &mut self,
        rt: &R,
        path: &str,
    ) -> Result<(), FolderFault>
        ensures { Keeps self.old self.new }
    {
        let name = self.name_of(rt.alloc(), path)?;
        let entries = match fs::read_dir(rt, name.as_str()) {
            Ok(entries) => entries,
            Err(error) => return Err(FolderFault::of_error(name, error)),
        };
        for entry in entries {
            match entry {
                Ok(entry) => self.add(rt, path, entry.file_name())?,
                Err(error) if is_no_text(&error) => {}
                Err(error) => return Err(FolderFault::of_error(name, error)),
            }
        }
        Ok(())
    }

    // The name by which the folder of a path is opened.
    fn name_of(&self, alloc: Global, path: &str) -> Result<String, AllocError> {
        if path.is_empty() {
            String::from_str(alloc, self.name)
        } else {
            whole_of(alloc, self.name, path)
        }
    }

    // Adds what has this name in the folder of a path, if it counts.
    fn add<R: Files + AllocGlobal>(
        &mut self,
        rt: &R,
        folder: &str,
        name: &str,
    ) -> Result<(), FolderFault>
        ensures { Keeps self.old self.new }
    {
        let path = path_below(rt.alloc(), folder, name)?;
        let whole = whole_of(rt.alloc(), self.name, path.as_str())?;
        let is_module = is_module_path(path.as_str(), whole.as_str());
        let is_folder = is_folder_path(path.as_str(), whole.as_str());
        if !is_module && !is_folder {
            return Ok(());
        }
        match entry_at(rt, whole.as_str(), is_module) {
            Ok(Entry::File) if is_module => self.add_file(path),
            Ok(Entry::Folder) if is_folder => Ok(self.folders.push(path)?),
            Ok(_) => Ok(()),
            // It was removed since the folder was listed.
            Err(error) if error.kind() == ErrorKind::NotFound => Ok(()),
            Err(error) => Err(FolderFault::of_error(self.name_of(rt.alloc(), folder)?, error)),
        }
    }

    // Adds a file, if there is room.
    fn add_file(&mut self, path: String) -> Result<(), FolderFault>
        requires { is_listed self.old.name.now (string_bytes path) ≡ true }
        ensures { Keeps self.old self.new }
    {
        if self.paths.len() >= self.room {
            return Err(FolderFault::TooMany);
        }
        self.paths.push(path)?;
        Ok(())
    }
}
