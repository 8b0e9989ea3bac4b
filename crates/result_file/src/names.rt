//! The names of temporary files.

use std::alloc::{AllocError, Allocator};

/// The most bytes of a result file's name that its temporary name repeats: a name has at most 255.
const REPEATED: usize = 200;

/// Returns the folder of the file of this path.
pub fn folder_of(path: &str) -> &str {
    match path.rsplit_once('/') {
        Some(("", _)) => "/",
        Some((folder, _)) => folder,
        None => ".",
    }
}

/// Returns the path of a temporary file beside the file of this path: `.NAME.PROCESS.NUMBER.tmp` in the same folder.
/// Of a name of more than 200 bytes it has the beginning.
pub fn temporary_name<A: Allocator + Copy>(
    alloc: A,
    path: &str,
    process: u32,
    number: u32,
) -> Result<String<A>, AllocError> {
    let (folder, slash, name) = match path.rsplit_once('/') {
        Some((folder, name)) => (folder, "/", name),
        None => ("", "", path),
    };
    let (name, _) = name.split_at(name.floor_char_boundary(REPEATED));
    format!(in alloc; "{folder}{slash}.{name}.{process}.{number}.tmp")
}
