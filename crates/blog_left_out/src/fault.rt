//! Why rows aren't left out.

/// Why a log isn't written of which rows are left out.
#[derive(Clone, Copy, Debug, PartialEq, Eq)]
pub enum LeaveOutFault {
    /// Out of memory.
    OutOfMemory,
    /// The log would have more than 4,294,967,295 bytes.
    TooLong,
}
