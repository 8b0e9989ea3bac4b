//! Integers of variable length (MySQL source code documentation, "mysql::serialization"). Each `_front` function reads the
//! front of bytes, and returns the value and the bytes after it.

ghost use Rattle.std.specs.Prelude.{◌≡◌, ◌≤◌, ◌+◌, length};
ghost use Rattle.blog_gtid.specs.Integers.{following, value_in, integer_front, byte_front, bytes_front, signed_front};
ghost use Rattle.blog_gtid.specs.code.Found.{found};

use byteorder::{ByteOrder, LittleEndian};

/// Returns how many bytes follow the first.
#[tactic(auto, unfolding(crate::specs::Integers::following))]
fn following(first: u8) -> usize
    ensures exact { result ≡ following first }
    ensures few { result ≤ 8 }
{
    first.trailing_ones() as usize
}

/// Returns the value in the first byte and the `n` that follow it.
#[tactic(auto, unfolding(crate::specs::Integers::value_in))]
fn value_in(n: usize, bytes: &[u8]) -> u64
    requires few { n ≤ 8 }
    requires room { n + 1 ≤ length bytes.now }
    ensures { result ≡ value_in n bytes.now }
{
    if n == 8 {
        LittleEndian::read_u64(&bytes[1..])
    } else {
        LittleEndian::read_uint(bytes, n + 1) >> (n + 1)
    }
}

/// Reads an integer.
#[tactic(auto, unfolding(crate::specs::Integers::integer_front))]
pub(crate) fn integer_front(bytes: &[u8]) -> Option<(u64, &[u8])>
    ensures { found result ≡ integer_front bytes.now }
{
    let (first, others) = bytes.split_first()?;
    let n = following(*first);
    let rest = others.get(n..)?;
    Some((value_in(n, bytes), rest))
}

/// Reads an integer that is below 256.
#[tactic(auto, unfolding(crate::specs::Integers::byte_front))]
pub(crate) fn byte_front(bytes: &[u8]) -> Option<(u8, &[u8])>
    ensures { found result ≡ byte_front bytes.now }
{
    let (value, rest) = integer_front(bytes)?;
    Some((u8::try_from(value).ok()?, rest))
}

/// Reads 16 integers that are below 256.
#[tactic(auto, unfolding(crate::specs::Integers::bytes_front))]
pub(crate) fn server_front(bytes: &[u8]) -> Option<([u8; 16], &[u8])>
    ensures { found result ≡ bytes_front 16 bytes.now }
{
    let mut server = [0; 16];
    let mut rest = bytes;
    for byte in &mut server {
        let (value, after) = byte_front(rest)?;
        *byte = value;
        rest = after;
    }
    Some((server, rest))
}

/// Reads a signed integer that isn't negative.
#[tactic(auto, unfolding(crate::specs::Integers::signed_front))]
pub(crate) fn signed_front(bytes: &[u8]) -> Option<(u64, &[u8])>
    ensures { found result ≡ signed_front bytes.now }
{
    let (value, rest) = integer_front(bytes)?;
    if value % 2 != 0 {
        return None;
    }
    Some((value / 2, rest))
}
