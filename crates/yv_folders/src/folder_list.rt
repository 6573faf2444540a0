//! The modules of folders, in order.
ghost use Rattle.std.specs.{Prelude.{◌≡◌, ◌≤◌, map, string_bytes, string_cmp, length, All, IfOk}, List.Sorted.{IsSorted}};
ghost use Rattle.yv_folders.specs.Paths.{HasListed, path_count};

use crate::folder_fault::FolderFault;
use crate::folder_walk::Walk;
use crate::path_rules::MOST_PARTS;
use std::rt::Files;
use yv_search::Folder;

/// How many paths may be listed.
const MOST_PATHS: usize = 65_536;

/// The files of folders whose names end in `.yang`, by folder and in the order of the bytes of
/// their paths from it: paths of at most 16 parts, hidden ones too. Links to files are among them.
/// Links to folders below a folder are not followed, but a folder that is named may be one. Left
/// out are paths that are not UTF-8, that have a control character, or that have more than 4,095
/// bytes with the folder before them.
///
/// The folders are gone through in order. The first that can't be listed, or the file that is one
/// too many, decides.
pub fn list_folders<R: Files + AllocGlobal + Clone + Drop>(
    rt: &R,
    names: &[String],
) -> Result<Vec<Folder>, FolderFault>
    // These are the folders, in order.
    ensures names { IfOk result
        (λ v. map (λ f. string_bytes f.name) v.items ≡ map string_bytes names.now) }
    // They have at most 65,536 files together.
    ensures few { IfOk result (λ v. path_count v.items ≤ 65536) }
    // Each path ends in `.yang`, has at most 16 parts and no control character, and has at most
    // 4,095 bytes with the folder before it.
    ensures paths { IfOk result (λ v. All HasListed v.items) }
    // The paths of each folder are in order.
    ensures order { IfOk result (λ v. All (λ f. IsSorted string_cmp f.paths.items) v.items) }
{
    let mut folders = Vec::new(rt.alloc());
    let mut room = MOST_PATHS;
    for name in names {
        let folder = list_folder(rt, name.as_str(), room)?;
        room -= folder.paths.len();
        folders.push(folder)?;
    }
    Ok(folders)
}

// The files of a folder, at most so many.
fn list_folder<R: Files + AllocGlobal + Clone + Drop>(
    rt: &R,
    name: &str,
    room: usize,
) -> Result<Folder, FolderFault>
    ensures name { IfOk result (λ f. string_bytes f.name ≡ name.now) }
    ensures few { IfOk result (λ f. length f.paths.items ≤ room) }
    ensures paths { IfOk result HasListed }
    ensures order { IfOk result (λ f. IsSorted string_cmp f.paths.items) }
{
    let mut walk = Walk::new(rt.alloc(), name, room)?;
    for _ in 0..MOST_PARTS {
        walk.go_down(rt)?;
    }
    let mut paths = walk.into_paths();
    paths.sort()?;
    let name = String::from_str(rt.alloc(), name)?;
    Ok(Folder { name, paths })
}
