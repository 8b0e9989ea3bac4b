//! A result file, from its temporary name to its own.

ghost use Rattle.std.specs.Prelude.{◌≡◌, ◌↔◌, IfOk, IsOk, IsSome, false, true};
ghost use Rattle.blog_device.specs.Watched.{has_failed};

use crate::fault::FileFault;
use crate::found::{Refusal, Way, look, way_to};
use crate::names::temporary_name;
use crate::naming::{name_new, remove, replace};
use crate::noted::Noted;
use blog_device::Watched;
use std::alloc::Allocator;
use std::fs::{OpenFile, OpenOptions};
use std::io;
use std::os::unix::fs::OpenOptionsExt;
use std::rt::Files;

/// How many names a temporary file of a process may have.
const NAMES: u32 = 8;

/// Who may read and write a result file: its owner.
const MODE: u32 = 0o600;

/// Which result file is wanted.
#[derive(Clone, Copy, Debug)]
pub struct Wanted<'a> {
    /// The path of the result file.
    pub path: &'a str,
    /// The path of the log, which is never overwritten.
    pub log: &'a str,
    /// Whether a file that is there is replaced.
    pub replace: bool,
    /// The number of the process, which is a part of temporary names.
    pub process: u32,
}

/// A result file that is being written. Its last call is `finish` or `discard`: until then nothing but a device has its name.
#[derive(Drop)]
pub struct ResultFile<'a, F, A: Allocator> {
    /// Takes the bytes of the result file.
    pub writer: Watched<Noted<F>>,
    path: &'a str,
    naming: Naming<A>,
}

/// The temporary name of a result file, and how it gets its own.
#[derive(Drop)]
enum Naming<A: Allocator> {
    New(String<A>),
    Replacing(String<A>),
    Direct,
}

impl<'a, F, A: Allocator + Copy> ResultFile<'a, F, A> {
    /// Creates the temporary file beside the result file, with mode 0600. If the result file is a device, opens that. The other logs are never
    /// overwritten, either.
    ///
    /// Nothing is created where the result file may not be written: `IsThere`, `IsLog`, `IsLink`, `IsDirectory`.
    /// `NotCreated` and `NamesTaken` where the system refuses.
    pub fn create<R: Files<File = F>>(
        rt: &R,
        alloc: A,
        wanted: &Wanted<'a>,
        others: &[&str],
    ) -> Result<Self, FileFault<'a, A>>
        ensures mark { IfOk result (λ file. has_failed file.writer ≡ false) }
    {
        let path = wanted.path;
        let found = match look(rt, path, wanted.log, others) {
            Ok(found) => found,
            Err(cause) => return Err(FileFault::NotCreated(path, cause)),
        };
        let way = match way_to(found, wanted.replace) {
            Ok(way) => way,
            Err(refusal) => return Err(fault_of(refusal, path)),
        };
        let (file, naming) = match way {
            Way::Direct => (open_device(rt, path)?, Naming::Direct),
            Way::New => {
                let (file, name) = create_temporary(rt, alloc, wanted)?;
                (file, Naming::New(name))
            }
            Way::Replacing => {
                let (file, name) = create_temporary(rt, alloc, wanted)?;
                (file, Naming::Replacing(name))
            }
        };
        Ok(ResultFile {
            writer: Watched::new(Noted::new(file)),
            path,
            naming,
        })
    }

    /// Syncs what was written, and gives it the name of the result file. If that fails, the temporary file is removed.
    ///
    /// `NotWritten` where a call of the writer failed; then nothing gets the name. `NotSynced` and `NotNamed` where the system
    /// refuses, and `IsThere` where a file appeared meanwhile and may not be replaced. `NameLeft` where the result file is
    /// whole, and only its temporary name can't be removed. A device has all its bytes by then, and isn't synced.
    pub fn finish<R: Files<File = F>>(self, rt: &R) -> Result<(), FileFault<'a, A>>
    where
        F: OpenFile + Drop,
        ensures whole { IsOk result → has_failed self.entry.writer ≡ false }
    {
        if self.writer.failed() {
            let cause = cause_in(&self.writer);
            let path = self.path;
            self.discard(rt);
            return Err(FileFault::NotWritten(path, cause));
        }
        let ResultFile {
            writer,
            path,
            naming,
        } = self;
        match naming {
            Naming::Direct => Ok(()),
            Naming::New(name) => {
                sync(rt, &writer, &name, path)?;
                name_new(rt, name, path)
            }
            Naming::Replacing(name) => {
                sync(rt, &writer, &name, path)?;
                replace(rt, &name, path)
            }
        }
    }

    /// Removes the temporary file. Returns `NotWritten` where a call of the writer failed.
    pub fn discard<R: Files<File = F>>(self, rt: &R) -> Option<FileFault<'a, A>>
    where
        F: Drop,
        ensures failed { IsSome result ↔ (has_failed self.entry.writer ≡ true) }
    {
        let ResultFile {
            writer,
            path,
            naming,
        } = self;
        match &naming {
            Naming::Direct => {}
            Naming::New(name) | Naming::Replacing(name) => remove(rt, name),
        }
        if writer.failed() {
            Some(FileFault::NotWritten(path, cause_in(&writer)))
        } else {
            None
        }
    }
}

/// Why nothing may be written by this path.
fn fault_of<'a, A: Allocator>(refusal: Refusal, path: &'a str) -> FileFault<'a, A> {
    match refusal {
        Refusal::IsThere => FileFault::IsThere(path),
        Refusal::IsLog => FileFault::IsLog(path),
        Refusal::IsLink => FileFault::IsLink(path),
        Refusal::IsDirectory => FileFault::IsDirectory(path),
    }
}

/// Why a call of the writer failed. One that took nothing has no cause of its own.
fn cause_in<F>(writer: &Watched<Noted<F>>) -> io::Error {
    match writer.device().cause() {
        Some(cause) => cause,
        None => io::Error::from(io::ErrorKind::WriteZero),
    }
}

/// Opens a device, a pipe or a socket for writing.
fn open_device<'a, R: Files, A: Allocator>(
    rt: &R,
    path: &'a str,
) -> Result<R::File, FileFault<'a, A>> {
    match OpenOptions::new().write(true).open(rt, path) {
        Ok(file) => Ok(file),
        Err(cause) => Err(FileFault::NotCreated(path, cause)),
    }
}

/// Creates a temporary file, by the first of its names that isn't taken.
fn create_temporary<'a, R: Files, A: Allocator + Copy>(
    rt: &R,
    alloc: A,
    wanted: &Wanted<'a>,
) -> Result<(R::File, String<A>), FileFault<'a, A>> {
    for number in 0..NAMES {
        let name = temporary_name(alloc, wanted.path, wanted.process, number)?;
        let created = OpenOptions::new()
            .write(true)
            .create_new(true)
            .mode(MODE)
            .open(rt, name.as_str());
        match created {
            Ok(file) => return Ok((file, name)),
            Err(cause) if cause.kind() == io::ErrorKind::AlreadyExists => {}
            Err(cause) => return Err(FileFault::NotCreated(wanted.path, cause)),
        }
    }
    Err(FileFault::NamesTaken(wanted.path))
}

/// Syncs what was written. If that fails, the temporary file is removed.
fn sync<'a, R: Files, A: Allocator>(
    rt: &R,
    writer: &Watched<Noted<R::File>>,
    name: &String<A>,
    path: &'a str,
) -> Result<(), FileFault<'a, A>> {
    match writer.device().writer().sync_all() {
        Ok(()) => Ok(()),
        Err(cause) => {
            remove(rt, name);
            Err(FileFault::NotSynced(path, cause))
        }
    }
}
