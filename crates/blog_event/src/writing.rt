//! Appending events to a file.

ghost use Rattle.std.specs.Prelude.{◌≡◌, ◌≤◌, ◌+◌, ◌++◌, length, replicate, OnOk, OnErr, IfOk, IfErr, IsOk, vec_len, vec_capacity};
ghost use Rattle.blog_event.specs.Event.{event_text};
ghost use Rattle.blog_event.specs.Writing.{appended, ending, header_text, joined};
ghost use Rattle.blog_event.specs.declared.fault.Fault.TheVariants.{OutOfMemory};

use crate::event::Header;
use crate::fault::Fault;
use crate::reading::HEADER_LEN;
use byteorder::{ByteOrder, LittleEndian};
use std::alloc::Allocator;

/// The 19 bytes of a header (MySQL Internals manual, "Binary Log Event Header").
#[tactic(auto, unfolding(crate::specs::Writing::header_text))]
pub fn header_bytes(header: Header) -> [u8; 19]
    ensures { result ≡ header_text header }
{
    let mut bytes = [0u8; 19];
    LittleEndian::write_u32(&mut bytes, header.timestamp);
    bytes[4] = header.kind;
    LittleEndian::write_u32(&mut bytes[5..], header.server_id);
    LittleEndian::write_u32(&mut bytes[9..], header.size);
    LittleEndian::write_u32(&mut bytes[13..], header.log_pos);
    LittleEndian::write_u16(&mut bytes[17..], header.flags);
    bytes
}

/// How many bytes the slices have.
fn joined_len(parts: &[&[u8]]) -> usize
    requires { length (joined parts.now) ≤ 4294967295 }
    ensures { result ≡ length (joined parts.now) }
{
    let mut total = 0;
    for part in parts {
        total += part.len();
    }
    total
}

/// Makes room for an event with a body of `body_len` bytes, and appends its header, with its size and where it ends.
/// `out` holds the file from position `from` on.
#[inline(always)]
fn put_header<A: Allocator>(
    out: &mut Vec<u8, A>,
    from: usize,
    header: Header,
    body_len: usize,
) -> Result<(), Fault>
    requires { from + vec_len out.old + (19 + body_len) ≤ 4294967295 }
    ensures ok { OnOk result (out.new.items ≡ out.old.items ++ header_text (ending (from + vec_len out.old) (19 + body_len) header)) }
    ensures len { OnOk result (vec_len out.new ≡ vec_len out.old + 19) }
    ensures left { OnOk result (vec_len out.new + body_len ≤ vec_capacity out.new) }
    ensures err { OnErr result (out.new.items ≡ out.old.items) }
    ensures kept { OnErr result (vec_capacity out.new ≡ vec_capacity out.old) }
    ensures refused { IfErr result (λ fault. fault ≡ OutOfMemory) }
    ensures room { vec_len out.old + (19 + body_len) ≤ vec_capacity out.old → IsOk result }
    ensures capacity { vec_capacity out.old ≤ vec_capacity out.new }
{
    let size = HEADER_LEN + body_len;
    out.reserve(size)?;
    let bytes = header_bytes(Header {
        size: size as u32,
        log_pos: (from + out.len() + size) as u32,
        ..header
    });
    out.extend_from_slice(&bytes).unwrap();
    Ok(())
}

/// Appends the slices, for which there is room.
fn put_parts<A: Allocator>(out: &mut Vec<u8, A>, parts: &[&[u8]])
    requires { vec_len out.old + length (joined parts.now) ≤ vec_capacity out.old }
    ensures items { out.new.items ≡ out.old.items ++ joined parts.now }
    ensures len { vec_len out.new ≡ vec_len out.old + length (joined parts.now) }
    ensures capacity { vec_capacity out.old ≤ vec_capacity out.new }
{
    for part in parts {
        out.extend_from_slice(part).unwrap();
    }
}

/// Appends an event to a file, `out`, which holds the file's bytes from its magic number on. The body is `parts`,
/// joined. The size of the event in bytes and `log_pos`, the position at which it ends, are computed; those of
/// `header` are ignored.
///
/// The new length is to be at most 4,294,967,295 bytes. Fails with `OutOfMemory` if `out` can't grow, and then keeps its
/// bytes and its capacity; never if its capacity has room for the event.
pub fn put_event<A: Allocator>(
    out: &mut Vec<u8, A>,
    header: Header,
    parts: &[&[u8]],
) -> Result<(), Fault>
    requires { vec_len out.old + (19 + length (joined parts.now)) ≤ 4294967295 }
    ensures ok { OnOk result (out.new.items ≡ out.old.items ++ event_text (appended (vec_len out.old) header (joined parts.now))) }
    ensures len { OnOk result (vec_len out.new ≡ vec_len out.old + (19 + length (joined parts.now))) }
    ensures err { OnErr result (out.new.items ≡ out.old.items) }
    ensures kept { OnErr result (vec_capacity out.new ≡ vec_capacity out.old) }
    ensures refused { IfErr result (λ fault. fault ≡ OutOfMemory) }
    ensures room { vec_len out.old + (19 + length (joined parts.now)) ≤ vec_capacity out.old → IsOk result }
    ensures capacity { vec_capacity out.old ≤ vec_capacity out.new }
{
    put_event_from(out, 0, header, parts)
}

/// Appends an event to a part of a file: `out` holds the file's bytes from position `from` on. The rest is as for
/// `put_event`, its errors too; `log_pos` is a position of the whole file.
#[inline(always)]
#[tactic(auto, using(crate::proofs::Headers::head_and_body))]
pub fn put_event_from<A: Allocator>(
    out: &mut Vec<u8, A>,
    from: usize,
    header: Header,
    parts: &[&[u8]],
) -> Result<(), Fault>
    requires { from + vec_len out.old + (19 + length (joined parts.now)) ≤ 4294967295 }
    ensures ok { OnOk result (out.new.items ≡ out.old.items ++ event_text (appended (from + vec_len out.old) header (joined parts.now))) }
    ensures len { OnOk result (vec_len out.new ≡ vec_len out.old + (19 + length (joined parts.now))) }
    ensures err { OnErr result (out.new.items ≡ out.old.items) }
    ensures kept { OnErr result (vec_capacity out.new ≡ vec_capacity out.old) }
    ensures refused { IfErr result (λ fault. fault ≡ OutOfMemory) }
    ensures room { vec_len out.old + (19 + length (joined parts.now)) ≤ vec_capacity out.old → IsOk result }
    ensures capacity { vec_capacity out.old ≤ vec_capacity out.new }
{
    put_header(out, from, header, joined_len(parts))?;
    put_parts(out, parts);
    Ok(())
}

/// Appends an event whose body is `body_len` zero bytes, to be written over. Returns the position in `out` at which the
/// body begins. The rest is as for `put_event`: its size and `log_pos` are computed.
///
/// Fails with `OutOfMemory` if `out` can't grow, and then keeps its bytes and its capacity; never if its capacity has room
/// for the event.
pub fn open_event<A: Allocator>(
    out: &mut Vec<u8, A>,
    header: Header,
    body_len: usize,
) -> Result<usize, Fault>
    requires { vec_len out.old + (19 + body_len) ≤ 4294967295 }
    ensures ok { OnOk result (out.new.items ≡ out.old.items ++ event_text (appended (vec_len out.old) header (replicate body_len 0))) }
    ensures body { IfOk result (λ at. at ≡ vec_len out.old + 19) }
    ensures len { OnOk result (vec_len out.new ≡ vec_len out.old + (19 + body_len)) }
    ensures err { OnErr result (out.new.items ≡ out.old.items) }
    ensures kept { OnErr result (vec_capacity out.new ≡ vec_capacity out.old) }
    ensures refused { IfErr result (λ fault. fault ≡ OutOfMemory) }
    ensures room { vec_len out.old + (19 + body_len) ≤ vec_capacity out.old → IsOk result }
    ensures capacity { vec_capacity out.old ≤ vec_capacity out.new }
{
    open_event_from(out, 0, header, body_len)
}

/// Appends an event to a part of a file that begins at position `from`, with a body to be written over. The rest is as for
/// `open_event` and `put_event_from`.
#[inline(always)]
pub fn open_event_from<A: Allocator>(
    out: &mut Vec<u8, A>,
    from: usize,
    header: Header,
    body_len: usize,
) -> Result<usize, Fault>
    requires { from + vec_len out.old + (19 + body_len) ≤ 4294967295 }
    ensures ok { OnOk result (out.new.items ≡ out.old.items ++ event_text (appended (from + vec_len out.old) header (replicate body_len 0))) }
    ensures body { IfOk result (λ at. at ≡ vec_len out.old + 19) }
    ensures len { OnOk result (vec_len out.new ≡ vec_len out.old + (19 + body_len)) }
    ensures err { OnErr result (out.new.items ≡ out.old.items) }
    ensures kept { OnErr result (vec_capacity out.new ≡ vec_capacity out.old) }
    ensures refused { IfErr result (λ fault. fault ≡ OutOfMemory) }
    ensures room { vec_len out.old + (19 + body_len) ≤ vec_capacity out.old → IsOk result }
    ensures capacity { vec_capacity out.old ≤ vec_capacity out.new }
{
    put_header(out, from, header, body_len)?;
    let body = out.len();
    out.resize(body + body_len, 0).unwrap();
    Ok(body)
}
