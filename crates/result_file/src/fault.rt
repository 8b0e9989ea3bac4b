//! Why there is no result file.

ghost use Rattle.std.specs.Prelude.{◌≡◌};
ghost use Rattle.result_file.specs.declared.fault.FileFault.TheVariants.{OutOfMemory};

use std::alloc::{AllocError, Allocator};
use std::io;

/// Why a result file wasn't written. Each fault but the last has the path of the result file, and of a call that failed its cause.
#[derive(Debug, Drop)]
pub enum FileFault<'a, A: Allocator> {
    /// The file is there, and is not to be replaced.
    IsThere(&'a str),
    /// The file is one of the logs.
    IsLog(&'a str),
    /// The path is that of a symbolic link to a file, or to nothing.
    IsLink(&'a str),
    /// The path is that of a directory.
    IsDirectory(&'a str),
    /// The temporary file can't be created, or the device can't be opened.
    NotCreated(&'a str, io::Error),
    /// Each name that a temporary file of this process may have is taken.
    NamesTaken(&'a str),
    /// A write failed.
    NotWritten(&'a str, io::Error),
    /// What was written can't be synced.
    NotSynced(&'a str, io::Error),
    /// The temporary file can't get the name of the result file.
    NotNamed(&'a str, io::Error),
    /// The result file is written whole, but its temporary name, which comes second, can't be removed.
    NameLeft(&'a str, String<A>, io::Error),
    /// Memory was refused.
    OutOfMemory,
}

impl<'a, A: Allocator> From<AllocError> for FileFault<'a, A> {
    ghost from_gives = { λ _ fault. fault ≡ OutOfMemory };

    fn from(_error: AllocError) -> FileFault<'a, A> {
        FileFault::OutOfMemory
    }
}
