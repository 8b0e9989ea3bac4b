//! What has the name of a result file already, and what becomes of it.

ghost use Rattle.std.specs.Prelude.{◌≡◌};
ghost use Rattle.result_file.specs.Ways.{way_of};

use crate::file_id::{FileId, are_same};
use std::fs::Metadata;
use std::rt::Files;
use std::{fs, io};

/// What has the name of a result file already.
#[derive(Clone, Copy, Debug, PartialEq, Eq)]
pub enum Found {
    /// Nothing.
    Nothing,
    /// One of the logs, by this name or another.
    Log,
    /// A file.
    File,
    /// A symbolic link to a file, or to nothing.
    Link,
    /// A directory.
    Directory,
    /// A device, a pipe or a socket.
    Device,
}

/// How a result file is written.
#[derive(Clone, Copy, Debug, PartialEq, Eq)]
pub enum Way {
    /// To a temporary file, which gets a name that nothing else has.
    New,
    /// To a temporary file, which takes the place of what has the name.
    Replacing,
    /// To the device itself.
    Direct,
}

/// Why nothing may be written by a name.
#[derive(Clone, Copy, Debug, PartialEq, Eq)]
pub enum Refusal {
    /// A file is there.
    IsThere,
    /// One of the logs is there.
    IsLog,
    /// A symbolic link is there.
    IsLink,
    /// A directory is there.
    IsDirectory,
}

/// Returns how a result file is written where this has its name already. `replace` says whether a file may be replaced.
pub fn way_to(found: Found, replace: bool) -> Result<Way, Refusal>
    ensures exact { result ≡ way_of found replace }
{
    match found {
        Found::Nothing if replace => Ok(Way::Replacing),
        Found::Nothing => Ok(Way::New),
        Found::File if replace => Ok(Way::Replacing),
        Found::File => Err(Refusal::IsThere),
        Found::Device => Ok(Way::Direct),
        Found::Log => Err(Refusal::IsLog),
        Found::Link => Err(Refusal::IsLink),
        Found::Directory => Err(Refusal::IsDirectory),
    }
}

/// Looks at what has this name. Fails where the system doesn't say what it is, or whether it is one of the logs.
pub fn look<R: Files>(rt: &R, path: &str, log: &str, others: &[&str]) -> io::Result<Found> {
    let named = match fs::symlink_metadata(rt, path) {
        Ok(named) => named,
        Err(cause) if cause.kind() == io::ErrorKind::NotFound => return Ok(Found::Nothing),
        Err(cause) => return Err(cause),
    };
    let meant = match fs::metadata(rt, path) {
        Ok(meant) => meant,
        Err(_) if named.is_symlink() => return Ok(Found::Link),
        Err(cause) => return Err(cause),
    };
    let id = FileId::of(&meant);
    if has_id(rt, log, &id)? {
        return Ok(Found::Log);
    }
    for other in others {
        if has_id(rt, other, &id)? {
            return Ok(Found::Log);
        }
    }
    Ok(found_by(&named, &meant))
}

/// Whether the file of a path has this id. Fails where the system doesn't say.
fn has_id<R: Files>(rt: &R, path: &str, id: &FileId) -> io::Result<bool> {
    let file = fs::metadata(rt, path)?;
    Ok(are_same(id, &FileId::of(&file)))
}

/// What was found: `named` is what has the name, and `meant` what a link of that name leads to.
fn found_by(named: &Metadata, meant: &Metadata) -> Found {
    if meant.is_dir() {
        Found::Directory
    } else if !meant.is_file() {
        Found::Device
    } else if named.is_symlink() {
        Found::Link
    } else {
        Found::File
    }
}
