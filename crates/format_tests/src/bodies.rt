//! Bodies of table maps, the layouts in them, and images of these layouts.

use crate::bytes::joined;
use blog_row::{Layout, TableMap};
use std::process::Abort;

/// The front of a body: the id 1, and the names `d`.`t`.
const NAMES: [u8; 14] = [1, 0, 0, 0, 0, 0, 1, 0, 1, b'd', 0, 1, b't', 0];

/// The body of a table map of `d`.`t` with these columns, as they stand behind the names.
pub fn body_of<R: AllocGlobal + Abort>(rt: &R, columns: &[u8]) -> Vec<u8> {
    joined(rt, &[&NAMES, columns])
}

/// The columns of a table map.
pub fn layout_in<'a>(rt: &impl Abort, body: &'a [u8]) -> Layout<'a> {
    let map = TableMap::read(body).expect(rt, "names");
    map.layout().expect(rt, "a layout")
}

/// How long the image is with which the bytes begin, and the value of a column in it.
pub fn check_image(
    rt: &impl Abort,
    layout: Layout<'_>,
    bytes: &[u8],
    len: Option<usize>,
    column: usize,
    value: Option<Option<&[u8]>>,
) {
    let has_len = layout.image_len(bytes) == len;
    assert!(rt;
        has_len && layout.value(bytes, column) == value,
        "{layout:?}"
    );
}
