//! Pairs of images, and the tables that they are of.

ghost use Rattle.std.specs.Prelude.{IsOk};
ghost use Rattle.blog_row.specs.TableMap.{layout_of};

use blog_event::Header;
use std::alloc::Allocator;
use std::collections::BTreeSet;

/// The parts of an update event that aren't its rows.
#[derive(Drop)]
pub(crate) struct HeldUpdate<A: Allocator> {
    /// The header of the table map.
    pub(crate) map: Header,
    /// The header of the rows event.
    pub(crate) rows: Header,
    /// The body of the rows event before its images, with the table id of the held table map.
    pub(crate) front: Vec<u8, A>,
}

/// A table of which rows are held.
#[derive(Drop)]
pub(crate) struct HeldTable<A: Allocator> {
    /// The body of its table map.
    pub(crate) body: Vec<u8, A>,
    /// The parts of its first selected update event, if one came.
    pub(crate) update: Option<HeldUpdate<A>>,
    pub(crate) ghost known: { IsOk (layout_of body.items) },
}

/// A row of a table as it is, and as it would be.
#[derive(Drop)]
pub(crate) struct HeldPair<A: Allocator> {
    /// The number of its table.
    pub(crate) table: usize,
    /// The image of the row as it is.
    pub(crate) real: Vec<u8, A>,
    /// The image of the row as it would be; None if it wouldn't be there.
    pub(crate) would: Option<Vec<u8, A>>,
}

/// Pairs in slots, and where the pair of a row is.
#[derive(Drop)]
pub(crate) struct HeldPairs<A: Allocator> {
    /// The pairs, in order. The slot of a pair that is taken out stays, and is empty.
    pub(crate) slots: Vec<Option<HeldPair<A>>, A>,
    /// The numbers of the slots, each behind the fingerprint of the pair's real row.
    pub(crate) keys: BTreeSet<u128, A>,
}
