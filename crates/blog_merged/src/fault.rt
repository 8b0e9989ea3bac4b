//! Why rows aren't merged.

/// Why a log of a merge isn't written.
#[derive(Clone, Copy, Debug, PartialEq, Eq)]
pub enum MergeFault {
    /// Out of memory.
    OutOfMemory,
    /// The log would have more than 4,294,967,295 bytes.
    TooLong,
    /// The log would not be accepted, or its rows would not be those of the pairs; or there is no update event or no transaction whose parts the
    /// updates could have.
    Unfit,
}
