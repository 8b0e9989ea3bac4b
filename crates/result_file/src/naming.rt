//! Giving a temporary file the name of the result file.

use crate::fault::FileFault;
use crate::names::folder_of;
use std::alloc::Allocator;
use std::fs::{File, OpenFile};
use std::rt::Files;
use std::{fs, io};

/// Gives the temporary file the name `path`, in place of the file that has it. If that fails, the temporary file is removed.
pub fn replace<'a, R: Files, A: Allocator>(
    rt: &R,
    temporary: &String<A>,
    path: &'a str,
) -> Result<(), FileFault<'a, A>> {
    if let Err(cause) = fs::rename(rt, temporary.as_str(), path) {
        remove(rt, temporary);
        return Err(FileFault::NotNamed(path, cause));
    }
    sync_folder(rt, path);
    Ok(())
}

/// Gives the temporary file the name `path`, which nothing else may have. If that fails, the temporary file is removed.
///
/// A link never takes the place of another file. Where the file system has no links, the name is looked at once more, and the
/// file is renamed.
pub fn name_new<'a, R: Files, A: Allocator>(
    rt: &R,
    temporary: String<A>,
    path: &'a str,
) -> Result<(), FileFault<'a, A>> {
    match fs::hard_link(rt, temporary.as_str(), path) {
        Ok(()) => {}
        Err(cause) if has_no_links(&cause) && is_free(rt, path) => {
            return replace(rt, &temporary, path);
        }
        Err(cause) => {
            remove(rt, &temporary);
            return Err(if has_no_links(&cause) || cause.kind() == io::ErrorKind::AlreadyExists {
                FileFault::IsThere(path)
            } else {
                FileFault::NotNamed(path, cause)
            });
        }
    }
    let removed = fs::remove_file(rt, temporary.as_str());
    sync_folder(rt, path);
    match removed {
        Ok(()) => Ok(()),
        Err(cause) => Err(FileFault::NameLeft(path, temporary, cause)),
    }
}

/// Whether a link failed because the file system has none.
fn has_no_links(cause: &io::Error) -> bool {
    match cause.kind() {
        io::ErrorKind::Unsupported | io::ErrorKind::PermissionDenied => true,
        _ => false,
    }
}

/// Whether nothing has this name.
fn is_free<R: Files>(rt: &R, path: &str) -> bool {
    match fs::symlink_metadata(rt, path) {
        Ok(_) => false,
        Err(cause) => cause.kind() == io::ErrorKind::NotFound,
    }
}

/// Removes a temporary file. What can't be removed stays.
pub fn remove<R: Files, A: Allocator>(rt: &R, temporary: &String<A>) {
    let _ = fs::remove_file(rt, temporary.as_str());
}

/// Syncs the folder of the file of this path, so that its name lasts. A folder that can't be synced is left as it is: the file
/// is whole in any case.
fn sync_folder<R: Files>(rt: &R, path: &str) {
    if let Ok(folder) = File::open(rt, folder_of(path)) {
        let _ = folder.sync_all();
    }
}
