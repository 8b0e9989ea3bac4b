//! Pairs as they are looked at.

ghost use Rattle.std.specs.Prelude.{◌≡◌, ◌<◌, length, option_and_then, option_map, slice_get};
ghost use Rattle.blog_pairs.specs.code.PairsView.{bodies_of, pair_told};
ghost use Rattle.blog_pairs.specs.code.TableView.{pair_seen, places_told};

use crate::held::{HeldPair, HeldTable};
use crate::pairs::PairTable;
use crate::putting::would_image;
use blog_event::Header;
use std::alloc::Allocator;

/// The parts of an update event that aren't its rows, so that an update of another row of the table can be written.
#[derive(Clone, Copy, Debug, PartialEq, Eq)]
pub struct UpdateParts<'a> {
    /// The header of the table map.
    pub map: Header,
    /// The header of the rows event.
    pub rows: Header,
    /// The body of the rows event before its images (MySQL Internals manual, "Rows_event"). It has the table id of the first table map of the table
    /// that came.
    pub front: &'a [u8],
}

/// A row of a table as it is, and as it would be had a mistake not been made.
#[derive(Clone, Copy, Debug, PartialEq, Eq)]
pub struct RowPair<'a> {
    /// The body of the first table map of the table that came.
    pub map: &'a [u8],
    /// The image of the row as it is.
    pub real: &'a [u8],
    /// The image of the row as it would be; None if it wouldn't be there.
    pub would: Option<&'a [u8]>,
    /// The parts of the first selected update event of the table; None if none came.
    pub update: Option<UpdateParts<'a>>,
}

/// Returns the parts of the update event of a held table, if there is one.
fn update_parts<A: Allocator>(held: &HeldTable<A>) -> Option<UpdateParts<'_>> {
    match &held.update {
        Some(update) => Some(UpdateParts {
            map: update.map,
            rows: update.rows,
            front: update.front.as_slice(),
        }),
        None => None,
    }
}

/// Returns a pair as it is looked at.
fn shown<'b, A: Allocator>(tables: &'b [HeldTable<A>], pair: &'b HeldPair<A>) -> RowPair<'b>
    requires { pair.now.table < length tables.now }
    ensures { pair_seen result ≡ pair_told (bodies_of tables.now) pair.now }
{
    RowPair {
        map: tables[pair.table].body.as_slice(),
        real: pair.real.as_slice(),
        would: would_image(pair),
        update: update_parts(&tables[pair.table]),
    }
}

impl<A: Allocator> PairTable<A> {
    /// Returns how many places of pairs there are. The places of pairs that were taken out count too.
    pub fn places(&self) -> usize
        ensures { result ≡ length (places_told self.now) }
    {
        self.held.slots.len()
    }

    /// Returns the pair in a place, if there is one. The pairs are in the order of their places.
    pub fn pair(&self, place: usize) -> Option<RowPair<'_>>
        ensures { option_map pair_seen result ≡ option_and_then (λ pair. pair) (slice_get (places_told self.now) place) }
    {
        if place >= self.held.slots.len() {
            return None;
        }
        match &self.held.slots[place] {
            Some(pair) => Some(shown(&self.tables, pair)),
            None => None,
        }
    }
}
