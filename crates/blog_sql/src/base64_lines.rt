//! Bytes in base64 (RFC 4648, section 4), in lines of 76 characters.

ghost use Rattle.std.specs.Prelude.{◌≡◌, ◌≤◌, ◌<◌, ◌+◌, ◌%◌, ◌++◌, ◌||◌, length, take, OnOk, OnErr, IfOk, IfErr, vec_capacity};
ghost use Rattle.blog_device.specs.Watched.{device_of, has_failed};
ghost use Rattle.blog_device.specs.Devices.{AppendsBeginning, is_write_fault};
ghost use Rattle.blog_sql.specs.Sql.{base64_lines};
ghost use Rattle.blog_sql.specs.code.Adding.{Adds, full_part};

use crate::chunk::append;
use crate::full_line::encoded_line;
use base64::engine::general_purpose::STANDARD;
use blog_device::{RunFault, Watched};
use std::alloc::Allocator;
use std::io::Write;

/// How many bytes a line encodes.
const LINE_BYTES: usize = 57;

/// Adds a line of at most 57 bytes. Only the last line goes this way, if it isn't full.
fn put_line<A: Allocator, W: Write>(
    writer: &mut Watched<W>,
    chunk: &mut Vec<u8, A>,
    bytes: &[u8],
) -> Result<(), RunFault>
    requires some { 0 < length bytes.now }
    requires few { length bytes.now ≤ 57 }
    requires room { 77 ≤ vec_capacity chunk.old }
    ensures adds { OnOk result (Adds (W.contents (device_of writer.old)) (W.contents (device_of writer.new)) chunk.old.items chunk.new.items (base64_lines bytes.now)) }
    ensures beginning { OnErr result (AppendsBeginning (W.contents (device_of writer.old)) (W.contents (device_of writer.new)) (chunk.old.items ++ base64_lines bytes.now)) }
    ensures fault { IfErr result (λ e. e ≡ RunFault.Write) }
    ensures capacity { vec_capacity chunk.old ≤ vec_capacity chunk.new }
    ensures mark { has_failed writer.new ≡ (has_failed writer.old || is_write_fault result) }
{
    let mut line = [b'\n'; 77];
    let Ok(len) = STANDARD.encode_slice(bytes, &mut line) else {
        unreachable!();
    };
    append(writer, chunk, &line[..len + 1])
}

/// Adds a full line.
fn put_full_line<A: Allocator, W: Write>(
    writer: &mut Watched<W>,
    chunk: &mut Vec<u8, A>,
    bytes: &[u8],
) -> Result<(), RunFault>
    requires full { length bytes.now ≡ 57 }
    requires room { 77 ≤ vec_capacity chunk.old }
    ensures adds { OnOk result (Adds (W.contents (device_of writer.old)) (W.contents (device_of writer.new)) chunk.old.items chunk.new.items (base64_lines bytes.now)) }
    ensures beginning { OnErr result (AppendsBeginning (W.contents (device_of writer.old)) (W.contents (device_of writer.new)) (chunk.old.items ++ base64_lines bytes.now)) }
    ensures fault { IfErr result (λ e. e ≡ RunFault.Write) }
    ensures capacity { vec_capacity chunk.old ≤ vec_capacity chunk.new }
    ensures mark { has_failed writer.new ≡ (has_failed writer.old || is_write_fault result) }
{
    append(writer, chunk, &encoded_line(bytes))
}

/// Adds all full lines. Returns how many bytes they encode.
pub(crate) fn put_full_lines<A: Allocator, W: Write>(
    writer: &mut Watched<W>,
    chunk: &mut Vec<u8, A>,
    bytes: &[u8],
) -> Result<usize, RunFault>
    requires { 77 ≤ vec_capacity chunk.old }
    ensures adds { IfOk result (λ n. Adds (W.contents (device_of writer.old)) (W.contents (device_of writer.new)) chunk.old.items chunk.new.items (base64_lines (take n bytes.now))) }
    ensures within { IfOk result (λ n. n ≤ length bytes.now) }
    ensures full { IfOk result (λ n. n % 57 ≡ 0) }
    ensures all { IfOk result (λ n. length bytes.now < n + 57) }
    ensures beginning { OnErr result (AppendsBeginning (W.contents (device_of writer.old)) (W.contents (device_of writer.new)) (chunk.old.items ++ base64_lines (full_part bytes.now))) }
    ensures fault { IfErr result (λ e. e ≡ RunFault.Write) }
    ensures capacity { vec_capacity chunk.old ≤ vec_capacity chunk.new }
    ensures mark { has_failed writer.new ≡ (has_failed writer.old || is_write_fault result) }
{
    let mut done = 0;
    'lines: while bytes.len() - done >= LINE_BYTES {
        put_full_line(writer, chunk, &bytes[done..done + LINE_BYTES])?;
        done += LINE_BYTES;
    }
    Ok(done)
}

/// Adds all lines.
pub(crate) fn put_lines<A: Allocator, W: Write>(
    writer: &mut Watched<W>,
    chunk: &mut Vec<u8, A>,
    bytes: &[u8],
) -> Result<(), RunFault>
    requires { 77 ≤ vec_capacity chunk.old }
    ensures adds { OnOk result (Adds (W.contents (device_of writer.old)) (W.contents (device_of writer.new)) chunk.old.items chunk.new.items (base64_lines bytes.now)) }
    ensures beginning { OnErr result (AppendsBeginning (W.contents (device_of writer.old)) (W.contents (device_of writer.new)) (chunk.old.items ++ base64_lines bytes.now)) }
    ensures fault { IfErr result (λ e. e ≡ RunFault.Write) }
    ensures capacity { vec_capacity chunk.old ≤ vec_capacity chunk.new }
    ensures mark { has_failed writer.new ≡ (has_failed writer.old || is_write_fault result) }
{
    let done = put_full_lines(writer, chunk, bytes)?;
    if done < bytes.len() {
        return put_line(writer, chunk, &bytes[done..]);
    }
    Ok(())
}
