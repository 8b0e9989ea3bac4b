//! Bytes made of bytes: joined, parts of them, and some changed.

use std::process::Abort;

/// The parts, one behind the other.
pub fn joined<R: AllocGlobal + Abort>(rt: &R, parts: &[&[u8]]) -> Vec<u8> {
    let mut bytes = Vec::new(rt.alloc());
    for part in parts {
        bytes.extend_from_slice(part).expect(rt, "memory");
    }
    bytes
}

/// So many bytes of one value.
pub fn repeated<R: AllocGlobal + Abort>(rt: &R, byte: u8, count: usize) -> Vec<u8> {
    vec![in rt.alloc(); byte; count].expect(rt, "memory")
}

/// The bytes from one position up to another.
pub fn part_of<'a>(rt: &impl Abort, bytes: &'a [u8], from: usize, to: usize) -> &'a [u8] {
    bytes.get(from..to).expect(rt, "a part")
}

/// A copy with some bytes changed, from the position `at` on.
pub fn with_bytes<R: AllocGlobal + Abort>(
    rt: &R,
    bytes: &[u8],
    at: usize,
    changed: &[u8],
) -> Vec<u8> {
    let end = at.saturating_add(changed.len());
    let front = part_of(rt, bytes, 0, at);
    let behind = part_of(rt, bytes, end, bytes.len());
    joined(rt, &[front, changed, behind])
}
