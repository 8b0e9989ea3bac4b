//! Reading events at positions of a file.

ghost use Rattle.std.specs.Prelude.{◌≡◌, ◌≤◌, ◌+◌, length, drop, IfSome, option_map};
ghost use Rattle.blog_event.specs.Event.{event_of, event_at, event_size};
ghost use Rattle.blog_event.specs.code.Reading.{header_of};

use crate::event::{Event, Header};
use byteorder::{ByteOrder, LittleEndian};

/// The size of a header in bytes.
pub const HEADER_LEN: usize = 19;

/// The header in the first 19 bytes (MySQL Internals manual, "Binary Log Event Header").
#[tactic(auto, using(std::proofs::lemmas::Slice::between_to_end), unfolding(crate::specs::code::Reading::header_of))]
fn header_at(bytes: &[u8]) -> Header
    requires { 19 ≤ length bytes.now }
    ensures { result ≡ header_of bytes.now }
{
    Header {
        timestamp: LittleEndian::read_u32(bytes),
        kind: bytes[4],
        server_id: LittleEndian::read_u32(&bytes[5..]),
        size: LittleEndian::read_u32(&bytes[9..]),
        log_pos: LittleEndian::read_u32(&bytes[13..]),
        flags: LittleEndian::read_u16(&bytes[17..]),
    }
}

/// The event whose header begins at the byte position `at` of a file, if one stands there: a header of 19 bytes
/// whose size is at least 19 and doesn't reach past the file's end.
#[tactic(auto, unfolding(crate::specs::Event::event_at, crate::specs::code::Reading::header_of))]
pub fn event_at(bytes: &[u8], at: u32) -> Option<Event<'_>>
    ensures event { option_map event_of result ≡ event_at (drop at bytes.now) }
    ensures pos { IfSome result (λ e. e.pos ≡ at) }
    ensures size { IfSome result (λ e. e.header.size ≡ event_size (event_of e)) }
    ensures within { IfSome result (λ e. at + e.header.size ≤ length bytes.now) }
{
    let rest = bytes.get(at as usize..)?;
    if rest.len() < HEADER_LEN {
        return None;
    }
    let header = header_at(rest);
    let size = header.size as usize;
    if size < HEADER_LEN || size > rest.len() {
        return None;
    }
    Some(Event {
        pos: at,
        header,
        body: &rest[HEADER_LEN..size],
    })
}
