//! What can be wrong with a script, or with a run.

use std::alloc::{AllocError, AllocFailed};
use std::io;
use std::num::{ParseIntError, TryFromIntError};
use std::str::Utf8Error;

/// What is wrong with a script, or with what a run of it writes. It is in a test's failure as it is debugged.
#[derive(Debug, Drop)]
pub enum Wrong {
    /// A run ends with another status, and wrote this to standard error.
    Status(String),
    /// It wrote this, which has to be something else.
    Written(String),
    /// This isn't in what it wrote, or isn't all of it.
    NotWritten(String),
    /// The bytes of this file.
    File(String),
    /// The script has no such line.
    Line(String),
    /// It names a log that isn't there.
    Log(String),
    /// A word of it changes bytes past the end, or isn't what such a word has to be.
    Change,
    /// The system answers this.
    System(io::Error),
    /// Memory was refused.
    OutOfMemory,
    /// What is written is no text.
    NotText,
    /// A number isn't one.
    Number(ParseIntError),
}

impl From<AllocError> for Wrong {
    fn from(_error: AllocError) -> Wrong {
        Wrong::OutOfMemory
    }
}

impl<T: Drop> From<AllocFailed<T>> for Wrong {
    fn from(_failed: AllocFailed<T>) -> Wrong {
        Wrong::OutOfMemory
    }
}

impl From<TryFromIntError> for Wrong {
    fn from(_error: TryFromIntError) -> Wrong {
        Wrong::Change
    }
}

impl From<io::Error> for Wrong {
    fn from(error: io::Error) -> Wrong {
        Wrong::System(error)
    }
}

impl From<Utf8Error> for Wrong {
    fn from(_error: Utf8Error) -> Wrong {
        Wrong::NotText
    }
}

impl From<ParseIntError> for Wrong {
    fn from(error: ParseIntError) -> Wrong {
        Wrong::Number(error)
    }
}
