//! Why a part of a log isn't written.

ghost use Rattle.std.specs.Prelude.{◌≡◌};
ghost use Rattle.blog_device.specs.declared.fault.RunFault.TheVariants.{Log as OfLog};
ghost use Rattle.blog_event.specs.declared.fault.Fault.TheVariants.{OutOfMemory};
ghost use Rattle.undo_run.specs.declared.fault.OpeningFault.TheVariants as opening;
ghost use Rattle.undo_run.specs.declared.fault.LogsFault.TheVariants.{Part};
ghost use Rattle.undo_run.specs.declared.fault.PartFault.TheVariants.{Run};

use blog_device::RunFault;
use blog_event::Fault;
use blog_sum::SumFault;
use std::alloc::{AllocError, Allocator};

/// Why a log isn't opened.
#[derive(Clone, Copy, Debug, PartialEq, Eq)]
pub enum OpeningFault {
    /// A read failed, or the log can't be held.
    Run(RunFault),
    /// It is no log, or one that can't be read.
    Sums(SumFault),
}

impl From<RunFault> for OpeningFault {
    ghost from_gives = { λ run fault. fault ≡ opening.Run run };

    fn from(fault: RunFault) -> OpeningFault {
        OpeningFault::Run(fault)
    }
}

/// Why a further log isn't read behind those before it.
#[derive(Clone, Copy, Debug, PartialEq, Eq)]
pub enum FurtherFault {
    /// It isn't opened.
    Opening(OpeningFault),
    /// The log before it ends inside an event, or is damaged, at this place in that log.
    Damaged(SumFault),
    /// It is of another server, or of another version.
    OtherServer,
    /// It is older than the log before it.
    OutOfOrder,
    /// The logs have more than 4,294,967,295 bytes together.
    TooLong,
}

/// Why a part of logs isn't written. But for `Part(_, Run(Write))` nothing was written.
#[derive(Drop)]
pub enum LogsFault<A: Allocator> {
    /// The first log isn't opened.
    Opening(OpeningFault),
    /// The further log of this number, from 1 on, isn't read.
    Further(usize, FurtherFault),
    /// The part isn't written. If the fault has a place, that is one of the log of this number, from 0 on.
    Part(usize, PartFault<A>),
}

/// Why a part isn't written of logs that were read.
#[derive(Drop)]
pub enum PartFault<A: Allocator> {
    /// A write failed, or memory was refused.
    Run(RunFault),
    /// In front of the stop the last log ends inside an event, or is damaged, at this place.
    Sums(SumFault),
    /// No event begins at this place, which is to be the start.
    NoEventAt(u32),
    /// No unit of the part starts at this place, or has its `BEGIN` there.
    NoUnitAt(u32),
    /// No unit of the part has the global transaction ids of this number, from 0 on, of those that are wanted.
    NoUnitWithGtid(usize),
    /// The changes are refused for this fault, at its place; or memory was refused.
    Log(Fault),
    /// The part changes no rows.
    NothingSelected,
    /// The later log of this number, from 0 on, isn't opened.
    LaterLog(usize, OpeningFault),
    /// So many rows of the part were changed since. These lines say where, and what else isn't known.
    ChangedSince(u64, Vec<u8, A>),
    /// What came later may concern the part's tables, and can't be looked into. These lines say where.
    UnknownSince(Vec<u8, A>),
    /// Rows of the part that were changed since can't be merged. These lines say where they were, and why.
    Unmerged(Vec<u8, A>),
    /// What would be written has, as a log, more than 4,294,967,295 bytes.
    TooLong,
    /// The changes have no table in a database that is to have another name, as this text tells.
    NoSchema(String<A>),
}

impl<A: Allocator> From<RunFault> for PartFault<A> {
    ghost from_gives = { λ run fault. fault ≡ Run run };

    fn from(fault: RunFault) -> PartFault<A> {
        PartFault::Run(fault)
    }
}

impl<A: Allocator> From<AllocError> for PartFault<A> {
    ghost from_gives = { λ _ fault. fault ≡ Run (OfLog OutOfMemory) };

    fn from(_error: AllocError) -> PartFault<A> {
        PartFault::Run(RunFault::Log(Fault::OutOfMemory))
    }
}

impl<A: Allocator> From<AllocError> for LogsFault<A> {
    ghost from_gives = { λ _ fault. fault ≡ Part 0 (Run (OfLog OutOfMemory)) };

    fn from(error: AllocError) -> LogsFault<A> {
        LogsFault::Part(0, PartFault::from(error))
    }
}
