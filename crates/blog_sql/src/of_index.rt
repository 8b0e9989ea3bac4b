//! The groups of a log as SQL.

ghost use Rattle.std.specs.Prelude.{◌≡◌, ◌≤◌, ◌||◌, true};
ghost use Rattle.blog_device.specs.Watched.{device_of, has_failed};
ghost use Rattle.blog_trans.specs.code.IndexView.{index_bytes, index_selection};
ghost use Rattle.blog_split.specs.Writing.{ends_before_writing, is_writing_fault};
ghost use Rattle.blog_sql.specs.Changed.{HasShortNames};
ghost use Rattle.blog_sql.specs.OfIndex.{AreSqlSizes, IsPrinted, cut_of, printed, printed_end};

use crate::options::SqlOptions;
use crate::sizes::sql_sizes;
use crate::written_sql::write_sql;
use blog_device::{RunFault, Watched};
use blog_flash::{LogSizes, front};
use blog_row::Order;
use blog_split::{SplitFault, SplitRunFault, cut_groups_of};
use blog_trans::Index;
use std::alloc::Allocator;
use std::io::Write;

/// Returns the sizes of the log that the events of an index would make, in an order, cut and changed, after a front of `front_len`
/// bytes. Fails with `TooLong` if a position would be too large, and with `Log(OutOfMemory)` if there is no memory.
fn measured<A: Allocator + Copy, B: Allocator>(
    alloc: A,
    index: &Index<'_, '_, B>,
    order: Order,
    limit: usize,
    front_len: usize,
    how: &SqlOptions<'_>,
) -> Result<LogSizes, SplitFault>
    requires front { front_len ≤ 4294967295 }
    requires names { HasShortNames how.now }
    ensures { AreSqlSizes how.now front_len (cut_of order limit (index_bytes index.now) (index_selection index.now)) result }
{
    let mut events = cut_groups_of(alloc, index, order, limit)?;
    match sql_sizes(front_len, &mut events, how) {
        Some(sizes) => Ok(sizes),
        None => Err(SplitFault::TooLong),
    }
}

/// Writes the groups of an index, as they are (forward) or what undoes them (backward), as SQL that the `mysql` client runs, all or
/// nothing. Each statement is cut as `blog_split::write_cut` does: with the maps that they use its rows events have at most `limit`
/// bytes together, headers included, or are a single one. Each new name of a schema must have at most 255 bytes. All memory is taken
/// before the first write.
///
/// Fails with `Split` before the writer was called: with `OutOfMemory`, or with `TooLong` if an event would end after 4,294,967,295.
/// Fails with `Write` if a write failed; the writer then has a beginning of the text.
pub fn write_index<A: Allocator + Copy, B: Allocator, W: Write>(
    alloc: A,
    writer: &mut Watched<W>,
    index: &Index<'_, '_, B>,
    order: Order,
    limit: usize,
    how: &SqlOptions<'_>,
) -> Result<(), SplitRunFault>
    requires { HasShortNames how.now }
    ensures printed { IsPrinted (printed how.now order limit (index_bytes index.now) (index_selection index.now))
        (printed_end how.now order limit (index_bytes index.now) (index_selection index.now))
        (W.contents (device_of writer.old)) (W.contents (device_of writer.new)) result }
    ensures untouched { ends_before_writing result ≡ true → writer.new ≡ writer.old }
    ensures mark { has_failed writer.new ≡ (has_failed writer.old || is_writing_fault result) }
{
    let front = front(index);
    let sizes = match measured(alloc, index, order, limit, front.len(), how) {
        Ok(sizes) => sizes,
        Err(fault) => return Err(SplitRunFault::Split(fault)),
    };
    let mut events = match cut_groups_of(alloc, index, order, limit) {
        Ok(events) => events,
        Err(fault) => return Err(SplitRunFault::Split(fault)),
    };
    match write_sql(alloc, front, &mut events, sizes, how, writer) {
        Ok(()) => Ok(()),
        Err(RunFault::Log(fault)) => Err(SplitRunFault::Split(SplitFault::Log(fault))),
        Err(RunFault::Write) => Err(SplitRunFault::Write),
        Err(RunFault::Read) => unreachable!(),
    }
}
