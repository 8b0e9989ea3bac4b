//! Why a job ended early.

use blog_device::RunFault;
use blog_run::WritingFault;
use blog_sum::SumFault;
use std::alloc::AllocError;
use std::io;
use thiserror::Error;

/// Why a job ended early.
#[derive(Debug, Drop, Error)]
pub enum Failure {
    /// The arguments ask for nothing.
    #[error("JOB SEED LOGS KB, the job one of list, undo, apply, rows, sums, awkward, optional and statements")]
    Words,
    /// The system refused a call.
    #[error("the system: {0}")]
    System(#[from] io::Error),
    /// Memory was refused.
    #[error("no memory")]
    Memory(#[from(alloc)] AllocError),
    /// A run ended early.
    #[error("a run ended early: {0:?}")]
    Run(RunFault),
    /// Changes were not written.
    #[error("changes were not written: {0:?}")]
    Writing(WritingFault),
    /// A log was not read.
    #[error("a log was not read: {0:?}")]
    Sum(SumFault),
    /// No such time zone.
    #[error("no such time zone")]
    Zone,
}

impl From<RunFault> for Failure {
    fn from(fault: RunFault) -> Failure {
        Failure::Run(fault)
    }
}

impl From<WritingFault> for Failure {
    fn from(fault: WritingFault) -> Failure {
        Failure::Writing(fault)
    }
}

impl From<SumFault> for Failure {
    fn from(fault: SumFault) -> Failure {
        Failure::Sum(fault)
    }
}
