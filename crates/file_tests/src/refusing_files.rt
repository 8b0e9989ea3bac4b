//! The files of a runtime, of whose calls one is refused.

use std::alloc::Allocator;
use std::cell::Cell;
use std::fs::{Files, Metadata, OpenFile, OpenOptions};
use std::io;
use std::io::{Read, Seek, SeekFrom, Write};

/// A call of the file system.
#[derive(Clone, Copy, Debug, PartialEq, Eq)]
pub enum Call {
    Look,
    Open,
    Write,
    Sync,
    Link,
    Rename,
    Remove,
}

/// What the system answers a refused call: no space is left on the device.
pub const NO_SPACE: i32 = 28;

/// What a file system without links answers.
pub const NOT_PERMITTED: i32 = 1;

/// Counts calls, and keeps which one was refused.
#[derive(Drop)]
pub struct Refusals {
    before: Cell<u64>,
    refused: Cell<Option<Call>>,
}

impl Refusals {
    /// Refuses the call of this number, counted from 1; none where it is 0.
    pub fn new(number: u64) -> Refusals {
        Refusals {
            before: Cell::new(number),
            refused: Cell::new(None),
        }
    }

    /// Returns the call that was refused.
    pub fn refused(&self) -> Option<Call> {
        self.refused.get()
    }

    /// Counts a call, and fails if it is the refused one.
    fn count(&self, call: Call) -> io::Result<()> {
        let before = self.before.get();
        self.before.set(before.saturating_sub(1));
        if before != 1 {
            return Ok(());
        }
        self.refused.set(Some(call));
        Err(io::Error::from_raw_os_error(NO_SPACE))
    }
}

/// The files of a runtime, of whose calls one is refused.
#[derive(Drop)]
pub struct RefusingFiles<'r, R> {
    pub rt: &'r R,
    pub refusals: &'r Refusals,
    /// Whether the file system has links.
    pub has_links: bool,
}

impl<'r, R: Files> Files for RefusingFiles<'r, R> {
    type File = RefusingFile<'r, R::File>;

    type Dir = R::Dir;

    fn open_file(&self, how: &OpenOptions, path: &str) -> io::Result<RefusingFile<'r, R::File>> {
        self.refusals.count(Call::Open)?;
        Ok(RefusingFile {
            file: self.rt.open_file(how, path)?,
            refusals: self.refusals,
        })
    }

    fn open_dir(&self, path: &str) -> io::Result<R::Dir> {
        self.rt.open_dir(path)
    }

    fn metadata(&self, path: &str) -> io::Result<Metadata> {
        self.refusals.count(Call::Look)?;
        self.rt.metadata(path)
    }

    fn symlink_metadata(&self, path: &str) -> io::Result<Metadata> {
        self.refusals.count(Call::Look)?;
        self.rt.symlink_metadata(path)
    }

    fn copy(&self, from: &str, to: &str) -> io::Result<u64> {
        self.rt.copy(from, to)
    }

    fn rename(&self, from: &str, to: &str) -> io::Result<()> {
        self.refusals.count(Call::Rename)?;
        self.rt.rename(from, to)
    }

    fn remove_file(&self, path: &str) -> io::Result<()> {
        self.refusals.count(Call::Remove)?;
        self.rt.remove_file(path)
    }

    fn create_dir(&self, path: &str) -> io::Result<()> {
        self.rt.create_dir(path)
    }

    fn remove_dir(&self, path: &str) -> io::Result<()> {
        self.rt.remove_dir(path)
    }

    fn remove_dir_all<B: Allocator>(&self, alloc: B, path: &str) -> io::Result<()> {
        self.rt.remove_dir_all(alloc, path)
    }

    fn hard_link(&self, original: &str, link: &str) -> io::Result<()> {
        if !self.has_links {
            return Err(io::Error::from_raw_os_error(NOT_PERMITTED));
        }
        self.refusals.count(Call::Link)?;
        self.rt.hard_link(original, link)
    }
}

/// An open file, of whose calls one is refused.
#[derive(Drop)]
pub struct RefusingFile<'r, F> {
    file: F,
    refusals: &'r Refusals,
}

impl<F: Read> Read for RefusingFile<'_, F> {
    fn read(&mut self, buf: &mut [u8]) -> io::Result<usize> {
        self.file.read(buf)
    }
}

impl<F: Write> Write for RefusingFile<'_, F> {
    fn write(&mut self, buf: &[u8]) -> io::Result<usize> {
        self.refusals.count(Call::Write)?;
        let part = buf.len().min(5);
        self.file.write(&buf[..part])
    }

    fn flush(&mut self) -> io::Result<()> {
        self.refusals.count(Call::Write)?;
        self.file.flush()
    }
}

impl<F: Seek> Seek for RefusingFile<'_, F> {
    fn seek(&mut self, to: SeekFrom) -> io::Result<u64> {
        self.file.seek(to)
    }
}

impl<F: OpenFile> OpenFile for RefusingFile<'_, F> {
    fn metadata(&self) -> io::Result<Metadata> {
        self.file.metadata()
    }

    fn set_len(&self, size: u64) -> io::Result<()> {
        self.file.set_len(size)
    }

    fn sync_all(&self) -> io::Result<()> {
        self.refusals.count(Call::Sync)?;
        self.file.sync_all()
    }

    fn sync_data(&self) -> io::Result<()> {
        self.refusals.count(Call::Sync)?;
        self.file.sync_data()
    }
}
