//! An update of one row, as it is written.

use blog_event::{Event, Header};

/// An update of one row, as it is written: its table map, and a rows event with this row alone.
#[derive(Clone, Copy, Debug)]
pub struct NetUpdate<'a> {
    /// The table map. Its size and its positions are ignored.
    pub map: Event<'a>,
    /// The header of the rows event. Its type is an update of version 1 or 2. Its size and its log position are ignored.
    pub rows: Header,
    /// The body of the rows event before its images (MySQL Internals manual, "Rows_event"): the table id, the flags, in version 2 the extra
    /// length and the extra bytes, the column count, and both bitmaps. All columns are present. The end flag can be set or clear.
    pub front: &'a [u8],
    /// The image before: the row as it would be.
    pub before: &'a [u8],
    /// The image after: the row as it is.
    pub after: &'a [u8],
}
