//! Why a change isn't added.

use std::alloc::AllocError;
use thiserror::Error;

/// Why a change isn't added to a table of pairs.
#[derive(Clone, Copy, Debug, Drop, Error, PartialEq, Eq)]
pub enum PairFault {
    /// Out of memory.
    #[error("out of memory")]
    OutOfMemory,
    /// The table is there with other columns: other types, or other metadata.
    #[error("the table has other columns than before")]
    OtherLayout,
}

impl From<AllocError> for PairFault {
    fn from(_: AllocError) -> PairFault {
        PairFault::OutOfMemory
    }
}
