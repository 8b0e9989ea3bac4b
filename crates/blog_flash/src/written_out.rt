//! Writing a log by chunks, so that it is never held whole.

ghost use Rattle.std.specs.Prelude.{◌≡◌, ◌≤◌, ◌++◌, ◌||◌, true, length, map, OnOk, OnErr, IfErr, vec_len, vec_capacity};
ghost use Rattle.std.specs.List.{AllByRecursion};
ghost use Rattle.std.specs.Io.KnownBytes.{Appends};
ghost use Rattle.blog_event.specs.Event.{event_size};
ghost use Rattle.blog_event.specs.File.{end_of};
ghost use Rattle.blog_device.specs.declared.fault.RunFault.TheVariants as RunFault;
ghost use Rattle.blog_device.specs.Watched.{device_of, has_failed};
ghost use Rattle.blog_device.specs.Devices.{AppendsBeginning, is_write_fault};
ghost use Rattle.blog_flash.specs.code.LaidOut.{text_from};
ghost use Rattle.blog_flash.specs.Runs.{IsWritten, ends_before_writing};
ghost use Rattle.blog_flash.specs.code.Measured.{AreWithin};
ghost use Rattle.blog_flash.specs.Written.{event_written};

use crate::log_sizes::LogSizes;
use crate::written_events::WrittenEvents;
use blog_device::{RunFault, Watched, make_room, put};
use blog_event::{Fault, HEADER_LEN};
use std::alloc::Allocator;
use std::io::Write;

/// The size of a chunk, in bytes: how much of a log is collected before it is written.
pub const CHUNK_LEN: usize = 1 << 18;

/// Writes what is in the chunk and then the events, each with its new log_pos: as many bytes at once as the chunk has room for.
fn write_events<'a, A: Allocator, E: WrittenEvents<'a>, W: Write>(
    writer: &mut Watched<W>,
    chunk: &mut Vec<u8, A>,
    events: &mut E,
) -> Result<(), RunFault>
    requires events { E.can_next events.old }
    requires room { AllByRecursion (λ e. event_size e ≤ vec_capacity chunk.old) (map event_written (E.to_come events.old)) }
    requires short { end_of (vec_len chunk.old) (map event_written (E.to_come events.old)) ≤ 4294967295 }
    ensures written { OnOk result (Appends (W.contents (device_of writer.old)) (W.contents (device_of writer.new))
        (chunk.old.items ++ text_from (vec_len chunk.old) (map event_written (E.to_come events.old)))) }
    ensures beginning { OnErr result (AppendsBeginning (W.contents (device_of writer.old)) (W.contents (device_of writer.new))
        (chunk.old.items ++ text_from (vec_len chunk.old) (map event_written (E.to_come events.old)))) }
    ensures fault { IfErr result (λ e. e ≡ RunFault.Write) }
    ensures mark { has_failed writer.new ≡ (has_failed writer.old || is_write_fault result) }
{
    let mut from = 0;
    'events: while let Some(event) = events.next_event() {
        from = make_room(writer, chunk, from, HEADER_LEN + event.body_len())?;
        event.put(chunk, from);
    }
    put(writer, chunk)
}

/// Writes the log that `lay_out` makes. `sizes` are those of the log, or upper bounds of these. All memory is taken before the
/// first write: one chunk of `chunk_len` bytes, less for a shorter log, and more if the front or the largest event is larger.
///
/// Fails with `Log(OutOfMemory)` if there is no memory for the chunk; the writer wasn't called then. Fails with `Write` if a
/// write failed; the writer then has a beginning of the log.
pub fn write_out<'a, A: Allocator, E: WrittenEvents<'a>, W: Write>(
    alloc: A,
    front: &[u8],
    events: &mut E,
    sizes: LogSizes,
    writer: &mut Watched<W>,
    chunk_len: usize,
) -> Result<(), RunFault>
    requires events { E.can_next events.old }
    requires sizes { AreWithin (length front.now) (map event_written (E.to_come events.old)) sizes }
    ensures written { IsWritten (W.contents (device_of writer.old)) (W.contents (device_of writer.new))
        (front.now ++ text_from (length front.now) (map event_written (E.to_come events.old))) result }
    ensures untouched { ends_before_writing result ≡ true → writer.new ≡ writer.old }
    ensures mark { has_failed writer.new ≡ (has_failed writer.old || is_write_fault result) }
{
    // A short log needs no more room than it has itself.
    let least = front.len().max(chunk_len.min(sizes.len));
    let Ok(mut chunk) = Vec::with_capacity(alloc, least.max(sizes.largest)) else {
        return Err(RunFault::Log(Fault::OutOfMemory));
    };
    chunk.extend_from_slice(front).unwrap();
    write_events(writer, &mut chunk, events)
}
