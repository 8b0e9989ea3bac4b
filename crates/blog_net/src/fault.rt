//! Why a log of updates isn't written.

/// Why a log of updates isn't written.
#[derive(Clone, Copy, Debug, PartialEq, Eq)]
pub enum NetFault {
    /// Out of memory.
    OutOfMemory,
    /// The log would have more than 4,294,967,295 bytes.
    TooLong,
    /// The log would not be accepted, or its rows would not be those of the updates. An event is not what it has to be, or an image is not
    /// one whole row by its table map.
    Unfit,
}
