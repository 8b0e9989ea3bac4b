//! The events of a log with its statements cut, and how long that log is.

ghost use Rattle.std.specs.Prelude.{◌≡◌, ◌≤◌, ◌++◌, List, length, IfOk, IfErr, IfSome, ⊤};
ghost use Rattle.blog_event.specs.File.{read};
ghost use Rattle.blog_event.specs.declared.fault.Fault.TheVariants.{OutOfMemory};
ghost use Rattle.blog_flash.specs.Written.{groups_written};
ghost use Rattle.blog_flash.specs.code.LaidOut.{groups_in, text_from};
ghost use Rattle.blog_flash.specs.code.WrittenGroupsView.{groups_to_come};
ghost use Rattle.blog_split.specs.declared.fault.SplitFault.TheVariants as SplitFault;
ghost use Rattle.blog_split.specs.code.CutView.{IsSound, cut_to_come};
ghost use Rattle.blog_flash.specs.Texts.{group_events, laid_out_after};
ghost use Rattle.blog_trans.specs.Groups.{Transaction, groups};
ghost use Rattle.blog_trans.specs.code.IndexView.{index_bytes, index_selection};
ghost use Rattle.blog_split.specs.code.Greedy.{cut_groups};
ghost use Rattle.blog_split.specs.code.Sizes.{IsBound, IsMeasured};

use crate::cut_events::CutEvents;
use crate::fault::SplitFault;
use crate::most::most_of;
use blog_flash::{LogSizes, WrittenGroups, sizes_of};
use blog_row::Order;
use blog_trans::Index;
use std::alloc::Allocator;

/// Returns the events of the groups of an index in an order, their statements cut. `bytes` are those of its log.
fn cut_groups_in<'i, 'a, 's, A: Allocator + Copy, B: Allocator>(
    alloc: A,
    bytes: &[u8],
    index: &'i Index<'a, 's, B>,
    order: Order,
    limit: usize,
) -> Result<CutEvents<'a, WrittenGroups<'i, 'a, 's, B>, A>, SplitFault>
    requires { bytes.now ≡ index_bytes index.now }
    ensures sound { IfOk result (IsSound (λ groups. ⊤) groups_to_come) }
    ensures left { IfOk result (λ cut. cut_to_come groups_to_come cut ≡ groups_written (cut_groups limit (groups_in order (groups bytes.now (index_selection index.now))))) }
    ensures refused { IfErr result (λ fault. fault ≡ SplitFault.Log OutOfMemory) }
{
    let events = WrittenGroups::new(index, order);
    let ahead = WrittenGroups::new(index, order);
    CutEvents::new(alloc, most_of(index), limit, events, ahead)
}

/// Returns the events of the groups of an index, as they are in the log (forward) or what undoes them (backward), their
/// statements cut. Fails with `Log(OutOfMemory)` if memory was refused.
pub fn cut_groups_of<'i, 'a, 's, A: Allocator + Copy, B: Allocator>(
    alloc: A,
    index: &'i Index<'a, 's, B>,
    order: Order,
    limit: usize,
) -> Result<CutEvents<'a, WrittenGroups<'i, 'a, 's, B>, A>, SplitFault>
    ensures sound { IfOk result (IsSound (λ groups. ⊤) groups_to_come) }
    ensures left { IfOk result (λ cut. cut_to_come groups_to_come cut ≡ groups_written (cut_groups limit (groups_in order (groups (index_bytes index.now) (index_selection index.now))))) }
    ensures refused { IfErr result (λ fault. fault ≡ SplitFault.Log OutOfMemory) }
{
    cut_groups_in(alloc, index.log().bytes(), index, order, limit)
}

/// Returns upper bounds of the sizes of the cut log of an index, in either order and whatever the limit is: as if each event of the
/// groups brought the maps of the statement that has the most, each as large as the largest event. None if that is more than a log
/// may have.
fn bound<B: Allocator>(index: &Index<'_, '_, B>) -> Option<LogSizes>
    ensures { IfSome result (IsBound (index_bytes index.now) (index_selection index.now)) }
{
    let largest = index.largest(0);
    let maps = most_of(index).maps.checked_mul(largest)?;
    let repeated = index.entries().len().checked_mul(maps)?;
    let len = index.log().bytes().len().checked_add(repeated)?;
    if len > u32::MAX as usize {
        return None;
    }
    Some(LogSizes { len, largest })
}

/// Adds up the sizes of the cut log of an index, with a front of `front_len` bytes.
fn sizes_in<A: Allocator + Copy, B: Allocator>(
    alloc: A,
    index: &Index<'_, '_, B>,
    order: Order,
    limit: usize,
    front_len: usize,
) -> Result<LogSizes, SplitFault>
    requires { front_len ≤ 4294967295 }
    ensures { IsMeasured front_len (group_events (cut_groups limit (groups_in order (groups (index_bytes index.now) (index_selection index.now))))) result }
{
    let mut events = cut_groups_of(alloc, index, order, limit)?;
    match sizes_of(front_len, &mut events) {
        Some(sizes) => Ok(sizes),
        None => Err(SplitFault::TooLong),
    }
}

/// Returns upper bounds of the sizes of the cut log of an index behind its front, or its sizes where a bound doesn't decide. Fails with
/// `TooLong` if it is too large for a log, and with `Log(OutOfMemory)` if memory was refused.
pub(crate) fn measured<A: Allocator + Copy, B: Allocator>(
    alloc: A,
    index: &Index<'_, '_, B>,
    order: Order,
    limit: usize,
    front: &[u8],
) -> Result<LogSizes, SplitFault>
    requires front { (ts : List Transaction) → front.now ++ text_from (length front.now) (group_events ts) ≡ laid_out_after (read (index_bytes index.now) (index_selection index.now).stop) ts }
    requires within { length front.now ≤ 4294967295 }
    ensures { IsMeasured (length front.now) (group_events (cut_groups limit (groups_in order (groups (index_bytes index.now) (index_selection index.now))))) result }
{
    match bound(index) {
        Some(sizes) => Ok(sizes),
        None => sizes_in(alloc, index, order, limit, front.len()),
    }
}
