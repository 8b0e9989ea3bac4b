//! Why nothing could be measured.

use blog_event::Fault;
use blog_row::RowFault;
use std::alloc::AllocError;
use std::io;
use thiserror::Error;

/// Why nothing could be measured.
#[derive(Debug, Drop, Error)]
pub enum Failure {
    /// The arguments ask for nothing.
    #[error("LAYER LOG [TIMES], the layer one of events, rows, index and all")]
    Words,
    /// The system refused a call.
    #[error("the system: {0}")]
    System(#[from] io::Error),
    /// Memory was refused.
    #[error("no memory")]
    Memory(#[from(alloc)] AllocError),
    /// The log is refused.
    #[error("{0}")]
    Log(#[from] Fault),
    /// A table map or a rows event can't be read.
    #[error("a body at {pos} can't be read")]
    Body { pos: u32 },
    /// What was done again had another outcome.
    #[error("two rounds differ")]
    Differs,
}
