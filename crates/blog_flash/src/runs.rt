//! Runs from a reader to a writer.

ghost use Rattle.std.specs.Prelude.{◌≡◌, ◌||◌, true};
ghost use Rattle.blog_trans.specs.Selection.{selection_of};
ghost use Rattle.blog_device.specs.Watched.{device_of, has_failed};
ghost use Rattle.blog_device.specs.Devices.{is_read_fault, is_write_fault};
ghost use Rattle.blog_flash.specs.Runs.{IsOutputWritten, Prepares, Runs, ends_before_writing, mode_in};

use crate::laid_out::front;
use crate::log_sizes::LogSizes;
use crate::modes::{Mode, answer_seeded, selected};
use crate::written_events::WrittenGroups;
use crate::written_out::{CHUNK_LEN, write_out};
use blog_device::{RunFault, Watched, put, read_log};
use blog_row::Order;
use blog_trans::Selection;
use std::alloc::Allocator;
use std::io::{Read, Write};

/// Reads a log to the reader's end and gives what it is answered with in this mode.
///
/// `Log` of the log's fault where it is refused; `Log(TooLong)` at 0 where it has more than
/// 4,294,967,295 bytes, of which one more than that is then read; `Log(OutOfMemory)` where memory
/// was refused; `Read` where a read failed. Never `Write`. Tables are looked up by the seed 0: for logs of others there is
/// `prepare_seeded`.
pub fn prepare<A: Allocator + Copy, R: Read>(
    alloc: A,
    reader: &mut Watched<R>,
    mode: Mode,
    sel: &Selection,
) -> Result<Vec<u8, A>, RunFault>
    ensures prepares { Prepares (R.remaining (device_of reader.old)) (R.remaining (device_of reader.new))
        mode (selection_of sel.now) result }
    ensures mark { has_failed reader.new ≡ (has_failed reader.old || is_read_fault result) }
{
    prepare_seeded(alloc, reader, mode, sel, 0)
}

/// `prepare`, where names and ids of tables are hashed by a seed (`Log::with_seed`). Its result doesn't depend on it.
pub fn prepare_seeded<A: Allocator + Copy, R: Read>(
    alloc: A,
    reader: &mut Watched<R>,
    mode: Mode,
    sel: &Selection,
    seed: u64,
) -> Result<Vec<u8, A>, RunFault>
    ensures prepares { Prepares (R.remaining (device_of reader.old)) (R.remaining (device_of reader.new))
        mode (selection_of sel.now) result }
    ensures mark { has_failed reader.new ≡ (has_failed reader.old || is_read_fault result) }
{
    let bytes = read_log(alloc, reader)?;
    answer_seeded(alloc, &bytes, mode, sel, seed).map_err(RunFault::Log)
}

/// Writes the selected changes of a log as a log, in an order, by chunks of `chunk_len` bytes. `Log` where the log is refused
/// or memory was, and then the writer was not called; `Write` where a write failed.
fn write_log<A: Allocator + Copy, W: Write>(
    alloc: A,
    bytes: &[u8],
    sel: &Selection<'_>,
    order: Order,
    seed: u64,
    writer: &mut Watched<W>,
    chunk_len: usize,
) -> Result<(), RunFault>
    ensures written { IsOutputWritten bytes.now (mode_in order) (selection_of sel.now) (W.contents (device_of writer.old)) (W.contents (device_of writer.new)) result }
    ensures untouched { ends_before_writing result ≡ true → writer.new ≡ writer.old }
    ensures mark { has_failed writer.new ≡ (has_failed writer.old || is_write_fault result) }
{
    let groups = match selected(alloc, bytes, sel, seed) {
        Ok(groups) => groups,
        Err(fault) => return Err(RunFault::Log(fault)),
    };
    let front = front(&groups);
    // No event is written longer than it was read.
    let sizes = LogSizes {
        len: bytes.len(),
        largest: groups.largest(0),
    };
    let mut events = WrittenGroups::new(&groups, order);
    write_out(alloc, front, &mut events, sizes, writer, chunk_len)
}

/// Reads a log to the reader's end and writes what it is answered with in this mode, with the faults of `prepare` and then
/// those of `put`. After `Log` or `Read` the writer was not called: all memory is taken before the first write. A log is
/// written while it is laid out, by some 256 KB at once. Tables are looked up by the seed 0: for logs of others there is
/// `run_seeded`.
pub fn run<A: Allocator + Copy, R: Read, W: Write>(
    alloc: A,
    reader: &mut Watched<R>,
    mode: Mode,
    sel: &Selection,
    writer: &mut Watched<W>,
) -> Result<(), RunFault>
    ensures runs { Runs (R.remaining (device_of reader.old)) (R.remaining (device_of reader.new))
        mode (selection_of sel.now)
        (W.contents (device_of writer.old)) (W.contents (device_of writer.new)) result }
    ensures untouched { ends_before_writing result ≡ true → writer.new ≡ writer.old }
    ensures reader_mark { has_failed reader.new ≡ (has_failed reader.old || is_read_fault result) }
    ensures writer_mark { has_failed writer.new ≡ (has_failed writer.old || is_write_fault result) }
{
    run_seeded(alloc, reader, mode, sel, 0, writer)
}

/// `run`, where names and ids of tables are hashed by a seed (`Log::with_seed`). What is written doesn't depend on it.
pub fn run_seeded<A: Allocator + Copy, R: Read, W: Write>(
    alloc: A,
    reader: &mut Watched<R>,
    mode: Mode,
    sel: &Selection,
    seed: u64,
    writer: &mut Watched<W>,
) -> Result<(), RunFault>
    ensures runs { Runs (R.remaining (device_of reader.old)) (R.remaining (device_of reader.new))
        mode (selection_of sel.now)
        (W.contents (device_of writer.old)) (W.contents (device_of writer.new)) result }
    ensures untouched { ends_before_writing result ≡ true → writer.new ≡ writer.old }
    ensures reader_mark { has_failed reader.new ≡ (has_failed reader.old || is_read_fault result) }
    ensures writer_mark { has_failed writer.new ≡ (has_failed writer.old || is_write_fault result) }
{
    run_by_chunks(alloc, reader, mode, sel, seed, writer, CHUNK_LEN)
}

/// `run_seeded`, where a log is written by `chunk_len` bytes at once, or as many as the front of the log or its largest
/// event has where these are more.
pub fn run_by_chunks<A: Allocator + Copy, R: Read, W: Write>(
    alloc: A,
    reader: &mut Watched<R>,
    mode: Mode,
    sel: &Selection,
    seed: u64,
    writer: &mut Watched<W>,
    chunk_len: usize,
) -> Result<(), RunFault>
    ensures runs { Runs (R.remaining (device_of reader.old)) (R.remaining (device_of reader.new))
        mode (selection_of sel.now)
        (W.contents (device_of writer.old)) (W.contents (device_of writer.new)) result }
    ensures untouched { ends_before_writing result ≡ true → writer.new ≡ writer.old }
    ensures reader_mark { has_failed reader.new ≡ (has_failed reader.old || is_read_fault result) }
    ensures writer_mark { has_failed writer.new ≡ (has_failed writer.old || is_write_fault result) }
{
    let bytes = read_log(alloc, reader)?;
    match mode {
        Mode::Flashback => write_log(alloc, &bytes, sel, Order::Backward, seed, writer, chunk_len),
        Mode::Forward => write_log(alloc, &bytes, sel, Order::Forward, seed, writer, chunk_len),
        Mode::FlashbackSql | Mode::ForwardSql | Mode::Summary => {
            let text = answer_seeded(alloc, &bytes, mode, sel, seed).map_err(RunFault::Log)?;
            put(writer, &text)
        }
    }
}
