//! Why a log is refused.

ghost use Rattle.std.specs.Prelude.{◌≡◌};
ghost use Rattle.blog_event.specs.declared.fault.Fault.TheVariants.{OutOfMemory};

use std::alloc::{AllocError, AllocFailed};
use thiserror::Error;

/// Why a log is refused. Each fault but `OutOfMemory` has a byte position `pos` from the file's start: that of the event at
/// fault, save where a line says otherwise.
#[derive(Clone, Copy, Debug, PartialEq, Eq, Error)]
pub enum Fault {
    /// The file doesn't begin with FE 62 69 6E; at 0.
    #[error("NotABinlog at {pos}")]
    NotABinlog { pos: u32 },
    /// Fewer than 19 bytes are left, or the event's size is below 19 or reaches past the file's end.
    #[error("CutEvent at {pos}")]
    CutEvent { pos: u32 },
    /// The event at 4 isn't a format description of this profile; at 4.
    #[error("BadFormat at {pos}")]
    BadFormat { pos: u32 },
    /// The server version is unreadable; at 4.
    #[error("OldServer at {pos}")]
    OldServer { pos: u32 },
    /// The checksum algorithm isn't 0; at 4.
    #[error("Checksums at {pos}")]
    Checksums { pos: u32 },
    /// The start position lies below the stop, and is no event's start and not the file's end; at the start position.
    #[error("NoEventAt at {pos}")]
    NoEventAt { pos: u32 },
    /// A change written as a statement, or a schema change.
    #[error("Statement at {pos}")]
    Statement { pos: u32 },
    /// `ROLLBACK`, or a text that begins with `ROLLBACK TO `.
    #[error("RolledBack at {pos}")]
    RolledBack { pos: u32 },
    /// An event where its kind can't stand.
    #[error("OutOfPlace at {pos}")]
    OutOfPlace { pos: u32 },
    /// A transaction ends inside a statement; or the range ends inside a transaction or behind a transaction's id, then at
    /// the first byte behind the range's last event.
    #[error("Unended at {pos}")]
    Unended { pos: u32 },
    /// A rows event whose table id isn't mapped in its statement.
    #[error("NoMap at {pos}")]
    NoMap { pos: u32 },
    /// One table id with two bodies in a statement, or a selected table with two layouts in the range.
    #[error("MapClash at {pos}")]
    MapClash { pos: u32 },
    /// A column isn't in the images, or the event is a partial update.
    #[error("PartialImage at {pos}")]
    PartialImage { pos: u32 },
    /// A column type that the profile lacks.
    #[error("UnknownType at {pos}")]
    UnknownType { pos: u32 },
    /// A body that doesn't have its layout.
    #[error("BadBody at {pos}")]
    BadBody { pos: u32 },
    /// An event type that can't be skipped.
    #[error("UnknownEvent at {pos}")]
    UnknownEvent { pos: u32 },
    /// More than 4,294,967,295 bytes; at 0.
    #[error("TooLong at {pos}")]
    TooLong { pos: u32 },
    /// Memory was refused.
    #[error("OutOfMemory")]
    OutOfMemory,
}

// Written by hand, so that clauses know which fault a `?` makes.
impl From<AllocError> for Fault {
    ghost from_gives = { λ _ fault. fault ≡ OutOfMemory };

    fn from(_refused: AllocError) -> Fault {
        Fault::OutOfMemory
    }
}

impl<T: Drop> From<AllocFailed<T>> for Fault {
    ghost from_gives = { λ _ fault. fault ≡ OutOfMemory };

    fn from(_refused: AllocFailed<T>) -> Fault {
        Fault::OutOfMemory
    }
}

impl Fault {
    ghost use Rattle.std.specs.Prelude.{option_map};
    ghost use Rattle.blog_event.specs.Fault.{name_of, number_of, position_of};

    /// The fault's number, from 1 to 18.
    pub fn number(&self) -> u8
        ensures number { result ≡ number_of self.now }
    {
        match self {
            Fault::NotABinlog { .. } => 1,
            Fault::CutEvent { .. } => 2,
            Fault::BadFormat { .. } => 3,
            Fault::OldServer { .. } => 4,
            Fault::Checksums { .. } => 5,
            Fault::NoEventAt { .. } => 6,
            Fault::Statement { .. } => 7,
            Fault::RolledBack { .. } => 8,
            Fault::OutOfPlace { .. } => 9,
            Fault::Unended { .. } => 10,
            Fault::NoMap { .. } => 11,
            Fault::MapClash { .. } => 12,
            Fault::PartialImage { .. } => 13,
            Fault::UnknownType { .. } => 14,
            Fault::BadBody { .. } => 15,
            Fault::UnknownEvent { .. } => 16,
            Fault::TooLong { .. } => 17,
            Fault::OutOfMemory => 18,
        }
    }

    /// The fault's name, with which its text begins.
    pub fn name(&self) -> &'static str
        ensures name { result.now ≡ name_of self.now }
    {
        match self {
            Fault::NotABinlog { .. } => "NotABinlog",
            Fault::CutEvent { .. } => "CutEvent",
            Fault::BadFormat { .. } => "BadFormat",
            Fault::OldServer { .. } => "OldServer",
            Fault::Checksums { .. } => "Checksums",
            Fault::NoEventAt { .. } => "NoEventAt",
            Fault::Statement { .. } => "Statement",
            Fault::RolledBack { .. } => "RolledBack",
            Fault::OutOfPlace { .. } => "OutOfPlace",
            Fault::Unended { .. } => "Unended",
            Fault::NoMap { .. } => "NoMap",
            Fault::MapClash { .. } => "MapClash",
            Fault::PartialImage { .. } => "PartialImage",
            Fault::UnknownType { .. } => "UnknownType",
            Fault::BadBody { .. } => "BadBody",
            Fault::UnknownEvent { .. } => "UnknownEvent",
            Fault::TooLong { .. } => "TooLong",
            Fault::OutOfMemory => "OutOfMemory",
        }
    }

    /// The byte position that the fault speaks of; none for `OutOfMemory`.
    pub fn at(&self) -> Option<u32>
        ensures position { result ≡ position_of self.now }
    {
        match *self {
            Fault::NotABinlog { pos }
            | Fault::CutEvent { pos }
            | Fault::BadFormat { pos }
            | Fault::OldServer { pos }
            | Fault::Checksums { pos }
            | Fault::NoEventAt { pos }
            | Fault::Statement { pos }
            | Fault::RolledBack { pos }
            | Fault::OutOfPlace { pos }
            | Fault::Unended { pos }
            | Fault::NoMap { pos }
            | Fault::MapClash { pos }
            | Fault::PartialImage { pos }
            | Fault::UnknownType { pos }
            | Fault::BadBody { pos }
            | Fault::UnknownEvent { pos }
            | Fault::TooLong { pos } => Some(pos),
            Fault::OutOfMemory => None,
        }
    }

    /// Returns the same fault at another byte position. `OutOfMemory` has none.
    pub fn moved_to(&self, pos: u32) -> Fault
        ensures name { name_of result ≡ name_of self.now }
        ensures position { position_of result ≡ option_map (λ _. pos) (position_of self.now) }
    {
        match *self {
            Fault::NotABinlog { .. } => Fault::NotABinlog { pos },
            Fault::CutEvent { .. } => Fault::CutEvent { pos },
            Fault::BadFormat { .. } => Fault::BadFormat { pos },
            Fault::OldServer { .. } => Fault::OldServer { pos },
            Fault::Checksums { .. } => Fault::Checksums { pos },
            Fault::NoEventAt { .. } => Fault::NoEventAt { pos },
            Fault::Statement { .. } => Fault::Statement { pos },
            Fault::RolledBack { .. } => Fault::RolledBack { pos },
            Fault::OutOfPlace { .. } => Fault::OutOfPlace { pos },
            Fault::Unended { .. } => Fault::Unended { pos },
            Fault::NoMap { .. } => Fault::NoMap { pos },
            Fault::MapClash { .. } => Fault::MapClash { pos },
            Fault::PartialImage { .. } => Fault::PartialImage { pos },
            Fault::UnknownType { .. } => Fault::UnknownType { pos },
            Fault::BadBody { .. } => Fault::BadBody { pos },
            Fault::UnknownEvent { .. } => Fault::UnknownEvent { pos },
            Fault::TooLong { .. } => Fault::TooLong { pos },
            Fault::OutOfMemory => Fault::OutOfMemory,
        }
    }
}
