//! Writing all of some bytes, at once or by chunks.

ghost use Rattle.std.specs.Prelude.{◌≡◌, ◌+◌, ◌≤◌, ◌++◌, ◌||◌, List, ℕ, OnOk, OnErr, IfOk, IfErr, vec_len, vec_capacity};
ghost use Rattle.std.specs.Io.KnownBytes.{Appends};
ghost use Rattle.blog_device.specs.Watched.{device_of, has_failed};
ghost use Rattle.blog_device.specs.Devices.{AppendsBeginning, is_write_fault};

use crate::devices::Watched;
use crate::fault::RunFault;
use std::alloc::Allocator;
use std::io::Write;

/// Writes the bytes, all of them, and flushes. Takes no memory.
///
/// `Write` where a write failed, or took nothing while bytes were left, or the flush failed; what
/// was written is then a beginning of the bytes. No other fault.
pub fn put<W: Write>(writer: &mut Watched<W>, bytes: &[u8]) -> Result<(), RunFault>
    ensures written { OnOk result (Appends (W.contents (device_of writer.old))
        (W.contents (device_of writer.new)) bytes.now) }
    ensures beginning { OnErr result (AppendsBeginning (W.contents (device_of writer.old))
        (W.contents (device_of writer.new)) bytes.now) }
    ensures fault { IfErr result (λ e. e ≡ RunFault.Write) }
    ensures mark { has_failed writer.new ≡ (has_failed writer.old || is_write_fault result) }
{
    put_part(writer, bytes)?;
    writer.flush().map_err(|_| RunFault::Write)
}

/// Writes the bytes, all of them, and doesn't flush. The rest is as for `put`.
pub fn put_part<W: Write>(writer: &mut Watched<W>, bytes: &[u8]) -> Result<(), RunFault>
    ensures written { OnOk result (Appends (W.contents (device_of writer.old))
        (W.contents (device_of writer.new)) bytes.now) }
    ensures beginning { OnErr result (AppendsBeginning (W.contents (device_of writer.old))
        (W.contents (device_of writer.new)) bytes.now) }
    ensures fault { IfErr result (λ e. e ≡ RunFault.Write) }
    ensures mark { has_failed writer.new ≡ (has_failed writer.old || is_write_fault result) }
{
    let mut rest = bytes;
    while !rest.is_empty() {
        match writer.write(rest) {
            Ok(0) => return Err(RunFault::Write),
            Ok(taken) => rest = &rest[taken..],
            Err(_) => return Err(RunFault::Write),
        }
    }
    Ok(())
}

/// Makes room for `len` more bytes in a chunk that holds a log from position `from` on: where they don't fit, what it holds
/// is written, and not flushed. Answers the position at which the chunk begins then. Takes no memory.
///
/// `Write` as for `put_part`. No other fault.
pub fn make_room<A: Allocator, W: Write>(
    writer: &mut Watched<W>,
    chunk: &mut Vec<u8, A>,
    from: usize,
    len: usize,
) -> Result<usize, RunFault>
    requires fits { len ≤ vec_capacity chunk.old }
    requires short { from + vec_len chunk.old ≤ 4294967295 }
    ensures written { OnOk result ((part : List ℕ) × Appends (W.contents (device_of writer.old)) (W.contents (device_of writer.new)) part × (part ++ chunk.new.items ≡ chunk.old.items)) }
    ensures from { IfOk result (λ now. now + vec_len chunk.new ≡ from + vec_len chunk.old) }
    ensures room { OnOk result (vec_len chunk.new + len ≤ vec_capacity chunk.new) }
    ensures capacity { OnOk result (vec_capacity chunk.old ≤ vec_capacity chunk.new) }
    ensures beginning { OnErr result (AppendsBeginning (W.contents (device_of writer.old)) (W.contents (device_of writer.new)) chunk.old.items) }
    ensures fault { IfErr result (λ e. e ≡ RunFault.Write) }
    ensures mark { has_failed writer.new ≡ (has_failed writer.old || is_write_fault result) }
{
    if len <= chunk.capacity() - chunk.len() {
        return Ok(from);
    }
    put_part(writer, chunk)?;
    let now = from + chunk.len();
    chunk.clear();
    Ok(now)
}
