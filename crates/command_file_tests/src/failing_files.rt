//! A runtime, of whose reads one fails.

use std::alloc::{Allocator, Global};
use std::cell::Cell;
use std::env::{Env, FillError};
use std::fs::{Files, Metadata, OpenFile, OpenOptions};
use std::io;
use std::io::{Read, Seek, SeekFrom, Write};

/// Counts reads down to the one that fails.
#[derive(Drop)]
pub(crate) struct Reads {
    left: Cell<u64>,
    failed: Cell<bool>,
}

impl Reads {
    /// The read of this number fails, counted from 1.
    pub(crate) fn new(number: u64) -> Reads {
        Reads {
            left: Cell::new(number),
            failed: Cell::new(false),
        }
    }

    /// Whether that read has come.
    pub(crate) fn have_failed(&self) -> bool {
        self.failed.get()
    }

    /// Counts a read, and fails if it is the one.
    fn count(&self) -> io::Result<()> {
        let left = self.left.get();
        self.left.set(left.saturating_sub(1));
        if left != 1 {
            return Ok(());
        }
        self.failed.set(true);
        Err(io::Error::from_raw_os_error(5))
    }
}

/// A runtime, of whose reads one fails.
#[derive(Drop)]
pub(crate) struct FailingFiles<'r> {
    pub(crate) rt: &'r HostRuntime,
    pub(crate) reads: &'r Reads,
}

impl Alloc for FailingFiles<'_> {
    type A = Global;

    fn alloc(&self) -> Global {
        self.rt.alloc()
    }
}

impl Env for FailingFiles<'_> {
    fn arg(&self, i: usize, buf: &mut [u8]) -> Result<usize, FillError> {
        self.rt.arg(i, buf)
    }

    fn var(&self, name: &str, buf: &mut [u8]) -> Result<usize, FillError> {
        self.rt.var(name, buf)
    }

    fn var_at(&self, i: usize, buf: &mut [u8]) -> Result<usize, FillError> {
        self.rt.var_at(i, buf)
    }
}

impl<'r> Files for FailingFiles<'r> {
    type File = FailingFile<'r, <HostRuntime as Files>::File>;

    type Dir = <HostRuntime as Files>::Dir;

    fn open_file(&self, how: &OpenOptions, path: &str) -> io::Result<Self::File> {
        Ok(FailingFile {
            file: self.rt.open_file(how, path)?,
            reads: self.reads,
        })
    }

    fn open_dir(&self, path: &str) -> io::Result<Self::Dir> {
        self.rt.open_dir(path)
    }

    fn metadata(&self, path: &str) -> io::Result<Metadata> {
        self.rt.metadata(path)
    }

    fn symlink_metadata(&self, path: &str) -> io::Result<Metadata> {
        self.rt.symlink_metadata(path)
    }

    fn copy(&self, from: &str, to: &str) -> io::Result<u64> {
        self.rt.copy(from, to)
    }

    fn rename(&self, from: &str, to: &str) -> io::Result<()> {
        self.rt.rename(from, to)
    }

    fn remove_file(&self, path: &str) -> io::Result<()> {
        self.rt.remove_file(path)
    }

    fn create_dir(&self, path: &str) -> io::Result<()> {
        self.rt.create_dir(path)
    }

    fn remove_dir(&self, path: &str) -> io::Result<()> {
        self.rt.remove_dir(path)
    }

    fn remove_dir_all<B: Allocator>(&self, alloc: B, path: &str) -> io::Result<()> {
        self.rt.remove_dir_all(alloc, path)
    }
}

/// An open file, of whose reads one fails.
#[derive(Drop)]
pub(crate) struct FailingFile<'r, F> {
    file: F,
    reads: &'r Reads,
}

impl<F: Read> Read for FailingFile<'_, F> {
    fn read(&mut self, buf: &mut [u8]) -> io::Result<usize> {
        self.reads.count()?;
        self.file.read(buf)
    }
}

impl<F: Write> Write for FailingFile<'_, F> {
    fn write(&mut self, buf: &[u8]) -> io::Result<usize> {
        self.file.write(buf)
    }

    fn flush(&mut self) -> io::Result<()> {
        self.file.flush()
    }
}

impl<F: Seek> Seek for FailingFile<'_, F> {
    fn seek(&mut self, to: SeekFrom) -> io::Result<u64> {
        self.file.seek(to)
    }
}

impl<F: OpenFile> OpenFile for FailingFile<'_, F> {
    fn metadata(&self) -> io::Result<Metadata> {
        self.file.metadata()
    }

    fn set_len(&self, size: u64) -> io::Result<()> {
        self.file.set_len(size)
    }

    fn sync_all(&self) -> io::Result<()> {
        self.file.sync_all()
    }

    fn sync_data(&self) -> io::Result<()> {
        self.file.sync_data()
    }
}
