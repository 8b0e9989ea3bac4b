//! Names of tables and columns: as they are where nobody can mistake them, else between backticks.

use blog_text::{put_escaped, put_text};
use std::alloc::{AllocError, Allocator};

/// Whether a byte can be in a name that isn't quoted.
fn is_plain(byte: u8) -> bool {
    byte.is_ascii_alphanumeric() || byte == b'_' || byte == b'$'
}

/// Appends a name; between backticks, with those in it doubled, unless it has letters, digits, `_` and `$` alone.
pub(crate) fn put_name<A: Allocator>(out: &mut Vec<u8, A>, name: &[u8]) -> Result<(), AllocError> {
    if !name.is_empty() && name.iter().all(|byte| is_plain(*byte)) {
        return put_text(out, name);
    }
    put_text(out, b"`")?;
    let mut rest = name;
    'parts: while let Some(at) = rest.iter().position(|byte| *byte == b'`') {
        put_escaped(out, &rest[..at])?;
        put_text(out, b"``")?;
        rest = &rest[at + 1..];
    }
    put_escaped(out, rest)?;
    put_text(out, b"`")
}

/// Appends the names of a schema and of a table in it, with a point between them.
pub(crate) fn put_table<A: Allocator>(
    out: &mut Vec<u8, A>,
    schema: &[u8],
    table: &[u8],
) -> Result<(), AllocError> {
    put_name(out, schema)?;
    put_text(out, b".")?;
    put_name(out, table)
}
