//! Writing a log as SQL by chunks, so that it is never held whole.

ghost use Rattle.std.specs.Prelude.{◌≡◌, ◌≤◌, ◌++◌, ◌||◌, List, [], true, false, length, map, OnOk, OnErr, IfErr, vec_capacity};
ghost use Rattle.std.specs.List.{AllByRecursion};
ghost use Rattle.std.specs.Io.KnownBytes.{Appends};
ghost use Rattle.blog_event.specs.Event.{event_size};
ghost use Rattle.blog_event.specs.File.{end_of};
ghost use Rattle.blog_device.specs.Watched.{device_of, has_failed};
ghost use Rattle.blog_device.specs.Devices.{AppendsBeginning, is_write_fault};
ghost use Rattle.blog_trans.specs.Groups.{Transaction};
ghost use Rattle.blog_flash.specs.Runs.{IsWritten, ends_before_writing};
ghost use Rattle.blog_flash.specs.Written.{event_written, groups_written};
ghost use Rattle.blog_flash.specs.code.Measured.{AreWithin};
ghost use Rattle.blog_sql.specs.Changed.{HasShortNames, changed};
ghost use Rattle.blog_sql.specs.Sql.{HaveRows, head_sql, sql_text, tail_sql};
ghost use Rattle.blog_sql.specs.code.Adding.{Adds};
ghost use Rattle.blog_sql.specs.code.Walk.{HasRoom, IsNew, after_format, left_of, walk_sql};

use crate::base64_lines::put_lines;
use crate::chunk::append;
use crate::options::SqlOptions;
use crate::output::{Output, edge};
use blog_device::{RunFault, Watched, put};
use blog_event::Fault;
use blog_flash::{CHUNK_LEN, LogSizes, WrittenEvents};
use std::alloc::Allocator;
use std::io::Write;

/// The program's name and version, as the first line has them.
pub const NAME_AND_VERSION: &str = "flashback 0.1.0";

/// How many bytes of a statement are held at most beside an event: one fewer than a line has.
const HELD: usize = 56;

/// Before the format description.
const FIRST: &[u8] = b"-- flashback 0.1.0\nSET @undo_errors = 0;\nBINLOG '\n";

/// After it, if all transactions are one.
const BEFORE_ONE: &[u8] = b"';\n/*!50700 SET @@SESSION.GTID_NEXT='AUTOMATIC' */;\nBEGIN;\n";

/// After it, if each transaction is one of its own: what ended if there is none.
const BEFORE_EACH: &[u8] =
    b"';\n/*!50700 SET @@SESSION.GTID_NEXT='AUTOMATIC' */;\nSET @undo_end = 'COMMIT';\n";

/// The last line.
const LAST: &[u8] = b"SELECT @undo_end AS ended_with, @undo_errors AS errors;\n";

/// Returns what is printed after the format description.
fn after_format(each: bool) -> &'static [u8]
    ensures value { result.now ≡ after_format each }
    ensures short { length result.now ≤ 512 }
{
    if each { BEFORE_EACH } else { BEFORE_ONE }
}

/// Adds what is before the events.
fn put_head<A: Allocator, W: Write>(
    writer: &mut Watched<W>,
    chunk: &mut Vec<u8, A>,
    front: &[u8],
    each: bool,
) -> Result<(), RunFault>
    requires front { 4 ≤ length front.now }
    requires room { 512 ≤ vec_capacity chunk.old }
    ensures adds { OnOk result (Adds (W.contents (device_of writer.old)) (W.contents (device_of writer.new)) chunk.old.items chunk.new.items (head_sql each front.now)) }
    ensures beginning { OnErr result (AppendsBeginning (W.contents (device_of writer.old)) (W.contents (device_of writer.new)) (chunk.old.items ++ head_sql each front.now)) }
    ensures fault { IfErr result (λ e. e ≡ RunFault.Write) }
    ensures capacity { vec_capacity chunk.old ≤ vec_capacity chunk.new }
    ensures mark { has_failed writer.new ≡ (has_failed writer.old || is_write_fault result) }
{
    append(writer, chunk, FIRST)?;
    put_lines(writer, chunk, &front[4..])?;
    append(writer, chunk, after_format(each))
}

/// Adds what is after the events, and writes the chunk.
fn put_tail<A: Allocator, W: Write>(
    writer: &mut Watched<W>,
    chunk: &mut Vec<u8, A>,
    each: bool,
) -> Result<(), RunFault>
    requires { 512 ≤ vec_capacity chunk.old }
    ensures written { OnOk result (Appends (W.contents (device_of writer.old)) (W.contents (device_of writer.new)) (chunk.old.items ++ tail_sql each)) }
    ensures beginning { OnErr result (AppendsBeginning (W.contents (device_of writer.old)) (W.contents (device_of writer.new)) (chunk.old.items ++ tail_sql each)) }
    ensures fault { IfErr result (λ e. e ≡ RunFault.Write) }
    ensures mark { has_failed writer.new ≡ (has_failed writer.old || is_write_fault result) }
{
    append(writer, chunk, edge(!each, true))?;
    append(writer, chunk, LAST)?;
    put(writer, chunk)
}

/// Adds the events.
fn put_events<'a, A: Allocator, E: WrittenEvents<'a>, W: Write>(
    writer: &mut Watched<W>,
    out: &mut Output<A>,
    events: &mut E,
    how: &SqlOptions<'_>,
) -> Result<(), RunFault>
    requires events { E.can_next events.old }
    requires names { HasShortNames how.now }
    requires ready { HasRoom 0 out.old }
    requires room { AllByRecursion (λ e. HasRoom (event_size e) out.old) (map event_written (map (changed how.now) (E.to_come events.old))) }
    requires short { end_of out.old.pos (map event_written (map (changed how.now) (E.to_come events.old))) ≤ 4294967295 }
    ensures adds { OnOk result (Adds (W.contents (device_of writer.old)) (W.contents (device_of writer.new)) out.old.chunk.items out.new.chunk.items (left_of out.old (map (changed how.now) (E.to_come events.old)))) }
    ensures beginning { OnErr result (AppendsBeginning (W.contents (device_of writer.old)) (W.contents (device_of writer.new)) (out.old.chunk.items ++ left_of out.old (map (changed how.now) (E.to_come events.old)))) }
    ensures fault { IfErr result (λ e. e ≡ RunFault.Write) }
    ensures capacity { OnOk result (512 ≤ vec_capacity out.new.chunk) }
    ensures mark { has_failed writer.new ≡ (has_failed writer.old || is_write_fault result) }
{
    'events: while let Some(event) = events.next_event() {
        out.put(writer, &event, how)?;
    }
    out.close(writer)
}

/// Prints the events of a log with this front, and writes what is printed. Nothing is printed yet.
fn write_events<'a, A: Allocator, E: WrittenEvents<'a>, W: Write>(
    writer: &mut Watched<W>,
    out: &mut Output<A>,
    front: &[u8],
    events: &mut E,
    how: &SqlOptions<'_>,
) -> Result<(), RunFault>
    requires events { E.can_next events.old }
    requires names { HasShortNames how.now }
    requires front { 4 ≤ length front.now }
    requires is_new { IsNew how.now front.now out.old }
    requires ready { HasRoom 0 out.old }
    requires room { AllByRecursion (λ e. HasRoom (event_size e) out.old) (map event_written (map (changed how.now) (E.to_come events.old))) }
    requires short { end_of (length front.now) (map event_written (map (changed how.now) (E.to_come events.old))) ≤ 4294967295 }
    ensures written { OnOk result (Appends (W.contents (device_of writer.old)) (W.contents (device_of writer.new)) (walk_sql how.now front.now (E.to_come events.old))) }
    ensures beginning { OnErr result (AppendsBeginning (W.contents (device_of writer.old)) (W.contents (device_of writer.new)) (walk_sql how.now front.now (E.to_come events.old))) }
    ensures fault { IfErr result (λ e. e ≡ RunFault.Write) }
    ensures mark { has_failed writer.new ≡ (has_failed writer.old || is_write_fault result) }
{
    put_head(writer, &mut out.chunk, front, how.each_transaction)?;
    put_events(writer, out, events, how)?;
    put_tail(writer, &mut out.chunk, how.each_transaction)
}

/// Writes a log as SQL that the `mysql` client runs, all or nothing. `front` is the magic number and the format description. Each
/// statement of `events` becomes one `BINLOG`, and is undone with all others if it has an error. `sizes` are those of
/// `sql_sizes`, or upper bounds of these. Each new name of a schema must have at most 255 bytes.
///
/// All memory is taken before the first write: a chunk, and room for the largest event. Fails with `Log(OutOfMemory)` if there is
/// none; the writer wasn't called then. Fails with `Write` if a write failed; the writer then has a beginning of the text.
pub fn write_sql<'a, A: Allocator + Copy, E: WrittenEvents<'a>, W: Write>(
    alloc: A,
    front: &[u8],
    events: &mut E,
    sizes: LogSizes,
    how: &SqlOptions<'_>,
    writer: &mut Watched<W>,
) -> Result<(), RunFault>
    requires events { E.can_next events.old }
    requires names { HasShortNames how.now }
    requires front { 4 ≤ length front.now }
    requires sizes { AreWithin (length front.now) (map event_written (map (changed how.now) (E.to_come events.old))) sizes }
    requires bounded { sizes.largest ≤ 4294967295 }
    ensures written { (ts : List Transaction) → E.to_come events.old ≡ groups_written ts → HaveRows ts
        → IsWritten (W.contents (device_of writer.old)) (W.contents (device_of writer.new)) (sql_text how.now front.now ts) result }
    ensures untouched { ends_before_writing result ≡ true → writer.new ≡ writer.old }
    ensures mark { has_failed writer.new ≡ (has_failed writer.old || is_write_fault result) }
{
    let Ok(chunk) = Vec::with_capacity(alloc, CHUNK_LEN) else {
        return Err(RunFault::Log(Fault::OutOfMemory));
    };
    let Ok(held) = Vec::with_capacity(alloc, HELD + sizes.largest) else {
        return Err(RunFault::Log(Fault::OutOfMemory));
    };
    let mut out = Output {
        each_transaction: how.each_transaction,
        chunk,
        held,
        is_open: false,
        pos: front.len(),
        is_inside: false,
    };
    write_events(writer, &mut out, front, events, how)
}
