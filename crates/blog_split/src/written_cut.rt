//! Writing a log with its statements cut while it is laid out, so that it is never held whole.

ghost use Rattle.std.specs.Prelude.{◌≡◌, ◌||◌, true};
ghost use Rattle.blog_device.specs.Watched.{device_of, has_failed};
ghost use Rattle.blog_trans.specs.code.IndexView.{index_bytes, index_selection};
ghost use Rattle.blog_split.specs.code.Greedy.{cut_text};
ghost use Rattle.blog_split.specs.Writing.{IsCutWritten, ends_before_writing, is_writing_fault};

use crate::cut_log::{cut_groups_of, measured};
use crate::fault::{SplitFault, SplitRunFault};
use blog_device::{RunFault, Watched};
use blog_flash::{front, write_out};
use blog_row::Order;
use blog_trans::Index;
use std::alloc::Allocator;
use std::io::Write;

/// Writes the groups of an index as a log, as they are (forward) or what undoes them (backward), their statements cut. By
/// `chunk_len` bytes at once, or as many as the front of the log or its largest event has where these are more. All memory is
/// taken before the first write, and the length is known then.
///
/// `Split` with `OutOfMemory` or `TooLong`: the writer was not called then. `Write` where a write failed; what was written is
/// then a beginning of the log.
pub fn write_cut<A: Allocator + Copy, B: Allocator, W: Write>(
    alloc: A,
    writer: &mut Watched<W>,
    index: &Index<'_, '_, B>,
    order: Order,
    limit: usize,
    chunk_len: usize,
) -> Result<(), SplitRunFault>
    ensures written { IsCutWritten (W.contents (device_of writer.old)) (W.contents (device_of writer.new))
        (cut_text order limit (index_bytes index.now) (index_selection index.now)) result }
    ensures untouched { ends_before_writing result ≡ true → writer.new ≡ writer.old }
    ensures mark { has_failed writer.new ≡ (has_failed writer.old || is_writing_fault result) }
{
    let front = front(index);
    let sizes = match measured(alloc, index, order, limit, front) {
        Ok(sizes) => sizes,
        Err(fault) => return Err(SplitRunFault::Split(fault)),
    };
    let mut events = match cut_groups_of(alloc, index, order, limit) {
        Ok(events) => events,
        Err(fault) => return Err(SplitRunFault::Split(fault)),
    };
    match write_out(alloc, front, &mut events, sizes, writer, chunk_len) {
        Ok(()) => Ok(()),
        Err(RunFault::Log(fault)) => Err(SplitRunFault::Split(SplitFault::Log(fault))),
        Err(RunFault::Write) => Err(SplitRunFault::Write),
        Err(RunFault::Read) => unreachable!(),
    }
}
