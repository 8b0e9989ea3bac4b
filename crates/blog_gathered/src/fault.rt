//! Why groups aren't gathered.

/// Why the groups of one more range aren't gathered.
#[derive(Clone, Copy, Debug, PartialEq, Eq)]
pub enum GatherFault {
    /// Memory was refused.
    OutOfMemory,
    /// The log would have more than 4,294,967,295 bytes.
    TooLong,
}
