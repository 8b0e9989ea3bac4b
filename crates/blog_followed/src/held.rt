//! Changes of rows with their images, and the table maps by which they go.

ghost use Rattle.std.specs.Prelude.{IsOk};
ghost use Rattle.blog_row.specs.TableMap.{layout_of};

use std::alloc::Allocator;

/// A table map of kept changes.
#[derive(Drop)]
pub(crate) struct KeptMap<A: Allocator> {
    /// Its body.
    pub(crate) body: Vec<u8, A>,
    pub(crate) ghost known: { IsOk (layout_of body.items) },
}

/// A kept change, which takes a row.
#[derive(Drop)]
pub(crate) struct KeptChange<A: Allocator> {
    /// The number of its table map.
    pub(crate) map: usize,
    /// The image of the row before the change.
    pub(crate) before: Vec<u8, A>,
    /// The image of the row after the change; None where the row is deleted.
    pub(crate) after: Option<Vec<u8, A>>,
}
