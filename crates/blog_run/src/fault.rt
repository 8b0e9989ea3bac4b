//! Why changes aren't written.

use blog_event::Fault;

/// Why changes aren't written. But for `Write` the writer wasn't called.
#[derive(Clone, Copy, Debug, PartialEq, Eq)]
pub enum WritingFault {
    /// The log is refused, or memory was.
    Log(Fault),
    /// The log that is written, or that the SQL has, would have more than 4,294,967,295 bytes.
    TooLong,
    /// The changes have no table of a schema that is to have another name. The number is that of the pair, from 0.
    NoSchema(usize),
    /// A call of the writer failed, or it took nothing of bytes that were left.
    Write,
}
