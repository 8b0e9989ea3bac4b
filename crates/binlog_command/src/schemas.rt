//! What is told of a database that a log doesn't have.

use blog_flash::{Selection, selected};
use blog_run::Writing;
use std::alloc::{AllocError, Allocator};

/// Returns what failed, and what to do: the log changes no table in the database of this number that is to have another name. The
/// log must be accepted.
pub(crate) fn no_schema<A: Allocator + Copy>(
    alloc: A,
    log: &[u8],
    writing: &Writing<'_>,
    number: usize,
    seed: u64,
) -> Result<String<A>, AllocError> {
    let Ok(index) = selected(alloc, log, &Selection::all(), seed) else {
        return Err(AllocError);
    };
    let from: &[u8] = match writing.sql.and_then(|how| how.schemas.get(number)) {
        Some(renamed) => renamed.from,
        None => b"",
    };
    advice::no_schema(alloc, &index, from)
}
