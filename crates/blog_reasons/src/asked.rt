//! How far tables are from those that are asked for.

use crate::named::NamedTable;
use blog_choice::TableChoice;
use std::alloc::{AllocError, Allocator};
use strsim::osa_distance;

/// What of a table is compared.
#[derive(Clone, Copy, Debug)]
enum Compared {
    /// The name of its schema.
    Schema,
    /// Its own name.
    Table,
    /// Both, joined by a point.
    Both,
}

/// A name that is asked for.
#[derive(Drop)]
struct AskedName<A: Allocator> {
    compared: Compared,
    // In lower case, with U+FFFD for bytes that are no UTF-8.
    text: String<A>,
    // How many characters may be inserted, left out, changed or exchanged with their neighbour.
    limit: usize,
}

/// The names that are asked for.
#[derive(Drop)]
pub(crate) struct AskedNames<A: Allocator> {
    alloc: A,
    names: Vec<AskedName<A>, A>,
}

/// Returns bytes as text in lower case, with U+FFFD for what is no UTF-8.
fn lower_case<A: Allocator + Copy>(alloc: A, bytes: &[u8]) -> Result<String<A>, AllocError> {
    let mut text = String::from_utf8_lossy(alloc, bytes)?;
    text.make_ascii_lowercase();
    Ok(text)
}

/// Returns the text of a table that is compared.
fn text_of<A: Allocator + Copy>(
    alloc: A,
    compared: Compared,
    table: &NamedTable<'_>,
) -> Result<String<A>, AllocError> {
    match compared {
        Compared::Schema => lower_case(alloc, table.schema),
        Compared::Table => lower_case(alloc, table.table),
        Compared::Both => {
            let mut bytes = table.schema.to_vec(alloc)?;
            bytes.push(b'.')?;
            bytes.extend_from_slice(table.table)?;
            lower_case(alloc, &bytes)
        }
    }
}

/// Returns a name that is asked for. It may differ in a third of its characters, and in one.
fn asked_name<A: Allocator + Copy>(
    alloc: A,
    compared: Compared,
    table: &NamedTable<'_>,
) -> Result<AskedName<A>, AllocError> {
    let text = text_of(alloc, compared, table)?;
    let limit = (text.chars().count() / 3).max(1);
    Ok(AskedName {
        compared,
        text,
        limit,
    })
}

/// Returns the lesser rank.
fn nearer(known: Option<usize>, rank: usize) -> usize {
    match known {
        Some(known) => known.min(rank),
        None => rank,
    }
}

/// Returns how far a table is from a name, in edits, or None if that is too far.
fn edits<A: Allocator + Copy>(
    alloc: A,
    name: &AskedName<A>,
    table: &NamedTable<'_>,
) -> Result<Option<usize>, AllocError> {
    let text = text_of(alloc, name.compared, table)?;
    let edits = osa_distance(alloc, &name.text, &text)?;
    if edits <= name.limit {
        Ok(Some(edits))
    } else {
        Ok(None)
    }
}

impl<A: Allocator + Copy> AskedNames<A> {
    /// Returns the names of a choice: those of its tables or, if it has none, its database.
    pub(crate) fn new(alloc: A, choice: &TableChoice<'_>) -> Result<Self, AllocError> {
        let mut names = Vec::new(alloc);
        for name in choice.tables {
            let (compared, schema) = match name.schema {
                Some(schema) => (Compared::Both, schema),
                None => (Compared::Table, b"".as_slice()),
            };
            let table = NamedTable {
                schema,
                table: name.table,
            };
            names.push(asked_name(alloc, compared, &table)?)?;
        }
        if let (true, Some(schema)) = (choice.tables.is_empty(), choice.database) {
            let table = NamedTable { schema, table: b"" };
            names.push(asked_name(alloc, Compared::Schema, &table)?)?;
        }
        Ok(AskedNames { alloc, names })
    }

    /// Returns how far a table is from the nearest name: twice the edits, and one more if it isn't in the database of the
    /// choice. Returns None if each is too far, or the table is left out.
    pub(crate) fn rank(
        &self,
        choice: &TableChoice<'_>,
        table: &NamedTable<'_>,
    ) -> Result<Option<usize>, AllocError> {
        if is_left_out(choice, table) {
            return Ok(None);
        }
        let mut rank = None;
        let apart = if is_in(choice.database, table) { 0 } else { 1 };
        for name in &self.names {
            if let Some(edits) = edits(self.alloc, name, table)? {
                rank = Some(nearer(rank, edits.saturating_mul(2).saturating_add(apart)));
            }
        }
        Ok(rank)
    }
}

/// Returns whether a choice leaves out a table, even if it is asked for.
fn is_left_out(choice: &TableChoice<'_>, table: &NamedTable<'_>) -> bool {
    let others = TableChoice {
        database: None,
        tables: &[],
        excluded: choice.excluded,
    };
    !others.has(table.schema, table.table)
}

/// Returns whether a table is in a database, if one is given.
fn is_in(database: Option<&[u8]>, table: &NamedTable<'_>) -> bool {
    match database {
        Some(name) => table.schema == name,
        None => true,
    }
}
