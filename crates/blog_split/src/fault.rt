//! Why a log isn't cut.

use blog_event::Fault;

/// Why the statements of a log aren't cut.
#[derive(Clone, Copy, Debug, PartialEq, Eq)]
pub enum SplitFault {
    /// The log is refused, or memory was.
    Log(Fault),
    /// The log with its statements cut would have more than 4,294,967,295 bytes: the maps are repeated.
    TooLong,
}

/// Why a log whose statements are cut isn't written.
#[derive(Clone, Copy, Debug, PartialEq, Eq)]
pub enum SplitRunFault {
    /// Its statements aren't cut; the writer was not called.
    Split(SplitFault),
    /// A call of the writer failed, or it took nothing of bytes that were left.
    Write,
}
