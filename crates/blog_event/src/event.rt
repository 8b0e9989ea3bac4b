//! An event: a header of 19 bytes, and a body.

/// The six fields of an event's header (MySQL Internals manual, "Binary Log Event Header").
#[derive(Clone, Copy, Debug, PartialEq, Eq)]
pub struct Header {
    /// Seconds since 1970, in UTC.
    pub timestamp: u32,
    /// The event's type.
    pub kind: u8,
    /// The server that wrote the event.
    pub server_id: u32,
    /// The event's size in bytes, header included.
    pub size: u32,
    /// Where the event ends in the file for which it was written, in bytes from that file's start.
    pub log_pos: u32,
    /// The header's flags.
    pub flags: u16,
}

/// An event of a log.
#[derive(Clone, Copy, Debug)]
pub struct Event<'a> {
    /// Where its header begins, in bytes from the file's start.
    pub pos: u32,
    /// The header.
    pub header: Header,
    /// The bytes behind the header.
    pub body: &'a [u8],
}
