//! How the files of a job were found, for notes to a person.
ghost use Rattle.std.specs.Prelude.{◌<◌, length, IfSome};
ghost use Rattle.yv_job.specs.Jobs.{IsFileOf};

use crate::job::Job;

/// A search of folders for the files that a job has.
#[derive(Debug, Drop)]
pub struct FolderSearch {
    /// The folders that were searched.
    pub folders: Vec<String>,
    /// How many of the job's files were named. The files after these were found.
    pub named: usize,
    /// How many names of modules `--import-only` gave. The names after these, in the job's
    /// selection, are of modules that were found and that nothing requires.
    pub given: usize,
}

impl Job {
    /// The place among the files of the one that was found for a module or submodule of this name.
    pub fn found_place(&self, name: &str) -> Option<usize>
        // It is the place of a file that the job has.
        ensures { IfSome result (λ place. place < length self.now.files.items) }
    {
        let named = self.search.as_ref()?.named;
        let found = self.files.get(named..)?;
        let place = found
            .iter()
            .position(|file| is_file_of(file.as_str(), name))?;
        Some(named + place)
    }

    /// The file that was found for a module that is imported only, since nothing requires it.
    pub fn unrequired_file(&self, module: &str) -> Option<&str>
        // It is the name of a file that the job has.
        ensures { IfSome result (λ file. IsFileOf self.now file.now) }
    {
        let given = self.search.as_ref()?.given;
        let is_unrequired = self
            .selection
            .import_only
            .iter()
            .skip(given)
            .any(|name| name.as_str() == module);
        if is_unrequired {
            let file = self.files.get(self.found_place(module)?)?;
            Some(file.as_str())
        } else {
            None
        }
    }
}

// Whether the last part of a path is `NAME.yang` or `NAME@DATE.yang`.
fn is_file_of(path: &str, name: &str) -> bool {
    let part = match path.rsplit_once('/') {
        Some((_, last)) => last,
        None => path,
    };
    match part.strip_prefix(name) {
        Some(rest) => rest == ".yang" || rest.starts_with('@') && rest.ends_with(".yang"),
        None => false,
    }
}
