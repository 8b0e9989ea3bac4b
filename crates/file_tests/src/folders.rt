//! Folders of the tests' own, for result files.

use blog_device::put;
use result_file::{FileFault, ResultFile, Wanted};
use std::alloc::Global;
use std::fs;
use std::fs::Files;
use std::path::PathBuf;
use std::test::Fail;

/// What is written.
pub(crate) const TEXT: &[u8] = b"the new text";

/// What the file has before.
pub(crate) const OLD: &[u8] = b"the old text";

/// The number of the process, as the tests give it.
pub(crate) const PROCESS: u32 = 77;

/// A folder of a test's own, with the log in it.
#[derive(Drop)]
pub(crate) struct Folder {
    pub(crate) path: PathBuf,
    /// The path of the result file.
    pub(crate) file: PathBuf,
    /// The path of the log.
    pub(crate) log: PathBuf,
}

impl Folder {
    pub(crate) fn new(rt: &HostRuntime, name: &str) -> Result<Folder, Fail> {
        let path = testkit::runs::path_of(rt, "result-file", name)?;
        let _ = fs::remove_dir_all(rt, path.as_path());
        fs::create_dir(rt, path.as_path())?;
        let file = path.join(rt.alloc(), "FILE")?;
        let log = path.join(rt.alloc(), "LOG")?;
        fs::write(rt, log.as_path(), b"the log")?;
        Ok(Folder { path, file, log })
    }

    pub(crate) fn wanted(&self, replace: bool) -> Wanted<'_> {
        Wanted {
            path: self.file.as_str(),
            log: self.log.as_str(),
            replace,
            process: PROCESS,
        }
    }

    /// Whether the folder has as many names as this.
    pub(crate) fn has_names(&self, rt: &HostRuntime, number: usize) -> Result<bool, Fail> {
        let mut names = 0usize;
        for entry in fs::read_dir(rt, self.path.as_path())? {
            let _ = entry?;
            names = names.saturating_add(1);
        }
        Ok(names == number)
    }

    /// Whether the result file has these bytes.
    pub(crate) fn has(&self, rt: &HostRuntime, bytes: &[u8]) -> Result<bool, Fail> {
        Ok(fs::read(rt, self.file.as_path())?.as_slice() == bytes)
    }

    /// Whether there is a result file.
    pub(crate) fn is_there(&self, rt: &HostRuntime) -> Result<bool, Fail> {
        Ok(fs::exists(rt, self.file.as_path())?)
    }

    pub(crate) fn remove(&self, rt: &HostRuntime) -> Result<(), Fail> {
        fs::remove_dir_all(rt, self.path.as_path())?;
        Ok(())
    }
}

/// Writes `TEXT` to the result file that is wanted.
pub(crate) fn write_text<'a, R: Files>(
    rt: &R,
    alloc: Global,
    wanted: &Wanted<'a>,
) -> Result<(), FileFault<'a, Global>>
where
    R::File: Drop,
{
    let mut file = ResultFile::create(rt, alloc, wanted, &[])?;
    if put(&mut file.writer, TEXT).is_ok() {
        return file.finish(rt);
    }
    match file.discard(rt) {
        Some(fault) => Err(fault),
        None => Ok(()),
    }
}
