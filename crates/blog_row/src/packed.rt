//! Packed integers.

ghost use Rattle.std.specs.Prelude.{◌≡◌, ◌≤◌, ◌+◌, length, drop, option_map};
ghost use Rattle.blog_row.specs.Packed.{announced, packed_value, packed_front, packed_seen};

use byteorder::{ByteOrder, LittleEndian};

/// A packed integer at the front of bytes (MySQL Internals manual, "Packed Integer").
#[derive(Clone, Copy, Debug)]
pub(crate) struct Packed<'a> {
    /// The number.
    pub(crate) value: u64,
    /// Its bytes, from one to nine.
    pub(crate) spelling: &'a [u8],
    /// The bytes behind it.
    pub(crate) rest: &'a [u8],
}

/// How many bytes of value the first byte announces.
fn announced_by(first: u8) -> Option<usize>
    ensures { result ≡ announced first }
{
    match first {
        0..=250 => Some(0),
        252 => Some(2),
        253 => Some(3),
        254 => Some(8),
        _ => None,
    }
}

/// The number that a first byte and those that it announces spell.
fn value_of(first: u8, others: &[u8]) -> u64
    requires { announced first ≡ Some (length others.now) }
    ensures { result ≡ packed_value first others.now }
{
    match others.len() {
        0 => u64::from(first),
        2 => u64::from(LittleEndian::read_u16(others)),
        3 => u64::from(LittleEndian::read_u24(others)),
        _ => LittleEndian::read_u64(others),
    }
}

/// The packed integer at the front, if one stands there.
#[tactic(auto, unfolding(crate::specs::Packed::packed_front))]
pub(crate) fn packed_at(bytes: &[u8]) -> Option<Packed<'_>>
    ensures { option_map packed_seen result ≡ packed_front bytes.now }
{
    if bytes.is_empty() {
        return None;
    }
    let first = bytes[0];
    let Some(more) = announced_by(first) else {
        return None;
    };
    if bytes.len() - 1 < more {
        return None;
    }
    let (spelling, rest) = bytes.split_at(1 + more);
    let (_, others) = spelling.split_at(1);
    Some(Packed {
        value: value_of(first, others),
        spelling,
        rest,
    })
}
