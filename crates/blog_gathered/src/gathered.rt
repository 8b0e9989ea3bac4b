//! A log in memory, in which the groups of ranges are gathered.

ghost use Rattle.std.specs.Prelude.{◌≤◌, vec_len};

use crate::fault::GatherFault;
use blog_event::Fault;
use blog_flash::{WrittenGroups, add_events, front, selected, sizes_of};
use blog_row::Order;
use blog_trans::{Index, Selection};
use std::alloc::{AllocError, Allocator, Global};

/// A log in memory, in which the groups of ranges are gathered in normal form, one range after the other.
#[derive(Drop)]
pub struct Gathered<A: Allocator = Global> {
    bytes: Vec<u8, A>,
    ghost short: { vec_len bytes ≤ 4294967295 },
}

impl<A: Allocator> Gathered<A> {
    ghost use Rattle.std.specs.Prelude.{◌≡◌, List, [], IfErr, IfOk};
    ghost use Rattle.blog_trans.specs.Acceptance.{IsAccepted, IsRefusal, fault};
    ghost use Rattle.blog_trans.specs.Groups.{groups};
    ghost use Rattle.blog_trans.specs.Selection.{all};
    ghost use Rattle.blog_trans.specs.code.IndexView.{index_bytes, index_selection};
    ghost use Rattle.blog_gathered.specs.Gathered.{IsSoundRange, Range, groups_of};
    ghost use Rattle.blog_gathered.specs.code.GatheredView.{Adds, IsGathered, bytes_gathered, range_of};

    /// A log without groups, with the format description of the log of an index. Fails if memory is refused.
    pub fn new<B: Allocator>(alloc: A, index: &Index<'_, '_, B>) -> Result<Self, AllocError>
        ensures { IfOk result (IsGathered (range_of index.now) []) }
    {
        Self::is_sound(index.log().bytes(), index);
        let mut bytes = Vec::new(alloc);
        bytes.extend_from_slice(front(index))?;
        Ok(Gathered { bytes })
    }

    /// Adds the groups of an index after those that are there. Fails if memory is refused, or if the log would be too long; nothing is
    /// added then.
    pub fn add<B: Allocator>(&mut self, index: &Index<'_, '_, B>) -> Result<(), GatherFault>
        ensures { (first : Range) → (rs : List Range) → IsGathered first rs self.old → Adds first rs (range_of index.now) self.new result }
    {
        Self::is_sound(index.log().bytes(), index);
        let events = &mut WrittenGroups::new(index, Order::Forward);
        let Some(sizes) = sizes_of(self.bytes.len(), events) else {
            return Err(GatherFault::TooLong);
        };
        let events = &mut WrittenGroups::new(index, Order::Forward);
        match add_events(&mut self.bytes, events, sizes) {
            Ok(()) => Ok(()),
            Err(_) => Err(GatherFault::OutOfMemory),
        }
    }

    /// The range of an index is accepted. The call does nothing.
    fn is_sound<B: Allocator>(bytes: &[u8], index: &Index<'_, '_, B>)
        requires { bytes.now ≡ index_bytes index.now }
        ensures { IsSoundRange (range_of index.now) }
    {}

    /// How many bytes the log has.
    pub fn len(&self) -> usize
        ensures { result ≡ vec_len self.now.bytes }
    {
        self.bytes.len()
    }

    /// The index of all changes of the log. Fails with `MapClash` if two ranges have one table with two layouts, and with `OutOfMemory`
    /// if memory is refused. Names and ids of tables are hashed by a seed (`Log::with_seed`).
    pub fn index<'g, B: Allocator + Copy>(
        &'g self,
        alloc: B,
        seed: u64,
    ) -> Result<Index<'g, 'static, B>, Fault>
        ensures accepted { IfOk result (λ index. IsAccepted (bytes_gathered self.now) all) }
        ensures bytes { IfOk result (λ index. index_bytes index ≡ bytes_gathered self.now) }
        ensures selection { IfOk result (λ index. index_selection index ≡ all) }
        ensures groups { (first : Range) → (rs : List Range) → IsGathered first rs self.now → IfOk result (λ index. groups (index_bytes index) (index_selection index) ≡ groups_of rs) }
        ensures refused { IfErr result (IsRefusal (fault (bytes_gathered self.now) all)) }
    {
        selected(alloc, &self.bytes, &Selection::all(), seed)
    }
}
