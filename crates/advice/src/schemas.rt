//! What is told of a database that a log doesn't have.

use blog_trans::Index;
use std::alloc::{AllocError, Allocator};

/// How many databases are named at most.
const MOST_NAMED: usize = 5;

/// Comes before the names.
const GIVE_ONE: &str = ": give --rewrite-db a database of the log: ";

/// Returns what failed, and what to do: the groups of an index change no table in the database `from`, which is to have another name.
/// The first databases that they have are named.
pub fn no_schema<A: Allocator + Copy, B: Allocator>(
    alloc: A,
    index: &Index<'_, '_, B>,
    from: &[u8],
) -> Result<String<A>, AllocError> {
    let name = String::from_utf8_lossy(alloc, from)?;
    let mut text = format!(in alloc; "the log changes no table in database {name}")?;
    let mut named: Vec<&[u8], A> = Vec::new(alloc);
    'tables: for n in 0..index.tables() {
        let schema = index.table(n).schema;
        if named.contains(&schema) {
            continue;
        }
        if named.len() == MOST_NAMED {
            text.push_str(" and more")?;
            return Ok(text);
        }
        text.push_str(if named.is_empty() { GIVE_ONE } else { ", " })?;
        text.push_str(String::from_utf8_lossy(alloc, schema)?.as_str())?;
        named.push(schema)?;
    }
    if named.is_empty() {
        text.push_str(", nor in any other: leave --rewrite-db out")?;
    }
    Ok(text)
}
