//! Writing changes: all memory is taken before the first write, and what is written is never held whole.

ghost use Rattle.std.specs.Prelude.{◌≡◌, ◌||◌, None, Some, true};
ghost use Rattle.blog_device.specs.Watched.{device_of, has_failed};
ghost use Rattle.blog_trans.specs.Selection.{selection_of};
ghost use Rattle.blog_trans.specs.code.IndexView.{index_bytes, index_selection};
ghost use Rattle.blog_sql.specs.Changed.{HasShortNames};
ghost use Rattle.blog_run.specs.Writing.{HasShortWriting, WritesChanges, WritesGroups, is_before_writing, is_failed_writing};

use crate::fault::WritingFault;
use crate::writing::Writing;
use blog_device::Watched;
use blog_flash::{CHUNK_LEN, Selection, selected};
use blog_row::Order;
use blog_split::{SplitFault, SplitRunFault, write_cut};
use blog_sql::{SqlOptions, without_schema, write_index};
use blog_trans::Index;
use std::alloc::Allocator;
use std::io::Write;

/// Writes the groups of an index as a log, in an order, their statements cut.
fn write_log<A: Allocator + Copy, B: Allocator, W: Write>(
    alloc: A,
    writer: &mut Watched<W>,
    index: &Index<'_, '_, B>,
    order: Order,
    limit: usize,
) -> Result<(), WritingFault>
    ensures written { WritesGroups None order limit (index_bytes index.now) (index_selection index.now) (W.contents (device_of writer.old)) (W.contents (device_of writer.new)) result }
    ensures untouched { is_before_writing result ≡ true → writer.new ≡ writer.old }
    ensures mark { has_failed writer.new ≡ (has_failed writer.old || is_failed_writing result) }
{
    match write_cut(alloc, writer, index, order, limit, CHUNK_LEN) {
        Ok(()) => Ok(()),
        Err(SplitRunFault::Split(SplitFault::Log(fault))) => Err(WritingFault::Log(fault)),
        Err(SplitRunFault::Split(SplitFault::TooLong)) => Err(WritingFault::TooLong),
        Err(SplitRunFault::Write) => Err(WritingFault::Write),
    }
}

/// Writes the groups of an index as SQL, in an order, their statements cut, if they have a table of each schema that is to have
/// another name.
fn write_sql<A: Allocator + Copy, B: Allocator, W: Write>(
    alloc: A,
    writer: &mut Watched<W>,
    index: &Index<'_, '_, B>,
    order: Order,
    limit: usize,
    how: &SqlOptions<'_>,
) -> Result<(), WritingFault>
    requires { HasShortNames how.now }
    ensures written { WritesGroups (Some how.now) order limit (index_bytes index.now) (index_selection index.now) (W.contents (device_of writer.old)) (W.contents (device_of writer.new)) result }
    ensures untouched { is_before_writing result ≡ true → writer.new ≡ writer.old }
    ensures mark { has_failed writer.new ≡ (has_failed writer.old || is_failed_writing result) }
{
    if let Some(number) = without_schema(index, how.schemas) {
        return Err(WritingFault::NoSchema(number));
    }
    match write_index(alloc, writer, index, order, limit, how) {
        Ok(()) => Ok(()),
        Err(SplitRunFault::Split(SplitFault::Log(fault))) => Err(WritingFault::Log(fault)),
        Err(SplitRunFault::Split(SplitFault::TooLong)) => Err(WritingFault::TooLong),
        Err(SplitRunFault::Write) => Err(WritingFault::Write),
    }
}

/// Writes the groups of an index, or what undoes them, as `write_changes` does. Fails with `Log` only where memory was refused.
pub fn write_groups<A: Allocator + Copy, B: Allocator, W: Write>(
    alloc: A,
    writer: &mut Watched<W>,
    index: &Index<'_, '_, B>,
    writing: &Writing<'_>,
) -> Result<(), WritingFault>
    requires { HasShortWriting writing.now }
    ensures written { WritesGroups writing.now.sql writing.now.order writing.now.limit (index_bytes index.now) (index_selection index.now) (W.contents (device_of writer.old)) (W.contents (device_of writer.new)) result }
    ensures untouched { is_before_writing result ≡ true → writer.new ≡ writer.old }
    ensures mark { has_failed writer.new ≡ (has_failed writer.old || is_failed_writing result) }
{
    match &writing.sql {
        None => write_log(alloc, writer, index, writing.order, writing.limit),
        Some(how) => write_sql(alloc, writer, index, writing.order, writing.limit, how),
    }
}

/// Writes the selected changes of a log, or what undoes them, as a log or as SQL that the `mysql` client runs. Statements are cut as
/// `blog_split::write_cut` does. Each new name of a schema must have at most 255 bytes. All memory is taken before the first write.
///
/// Fails with `Log` with the fault of a log that is refused, or with `OutOfMemory`; with `NoSchema` if the changes have no table of a
/// schema that is to have another name; with `TooLong`. The writer wasn't called then. Fails with `Write` if a write failed; the
/// writer then has a beginning of what is written.
///
/// Names and ids of tables are hashed by the seed (`Log::with_seed`). What is written doesn't depend on it.
pub fn write_changes<A: Allocator + Copy, W: Write>(
    alloc: A,
    writer: &mut Watched<W>,
    bytes: &[u8],
    sel: &Selection<'_>,
    seed: u64,
    writing: &Writing<'_>,
) -> Result<(), WritingFault>
    requires { HasShortWriting writing.now }
    ensures written { WritesChanges writing.now bytes.now (selection_of sel.now) (W.contents (device_of writer.old)) (W.contents (device_of writer.new)) result }
    ensures untouched { is_before_writing result ≡ true → writer.new ≡ writer.old }
    ensures mark { has_failed writer.new ≡ (has_failed writer.old || is_failed_writing result) }
{
    match selected(alloc, bytes, sel, seed) {
        Ok(index) => write_groups(alloc, writer, &index, writing),
        Err(fault) => Err(WritingFault::Log(fault)),
    }
}
