//! How a source is read.

/// How a server's log is read.
#[derive(Clone, Copy, Debug, PartialEq, Eq)]
pub struct Reading {
    /// Events that begin at this byte position or behind it aren't looked at; none where the log is read to its end.
    pub stop: Option<u32>,
    /// Whether the reading goes on behind an event with a wrong sum, if an event with a right one follows where its size says.
    pub skip_damaged: bool,
}

impl Reading {
    /// To the log's end, or to the first fault.
    pub const ALL: Reading = Reading {
        stop: None,
        skip_damaged: false,
    };
}
