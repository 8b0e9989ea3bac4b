//! Global transaction ids as text.

use crate::json_lines::escapes::put_escaped;
use crate::json_lines::texts::{put_number, put_server, put_text};
use blog_units::GlobalId;
use std::alloc::{AllocError, Allocator};

/// Appends a global transaction id, as MySQL prints it, or `?` for one of zeros.
pub(crate) fn put_id<A: Allocator>(
    out: &mut Vec<u8, A>,
    id: &GlobalId<'_>,
) -> Result<(), AllocError> {
    if is_unknown(id) {
        return put_text(out, b"?");
    }
    put_server(out, id.server)?;
    put_text(out, b":")?;
    put_tag(out, id.tag)?;
    put_number(out, id.number)
}

/// Whether an id is of zeros.
fn is_unknown(id: &GlobalId<'_>) -> bool {
    id.server == [0; 16].as_slice() && id.number == 0
}

/// Appends a tag, escaped, and a colon, where there is one.
fn put_tag<A: Allocator>(out: &mut Vec<u8, A>, tag: &[u8]) -> Result<(), AllocError> {
    if tag.is_empty() {
        return Ok(());
    }
    put_escaped(out, tag)?;
    put_text(out, b":")
}
