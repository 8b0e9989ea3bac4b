//! Packed integers, and texts behind their lengths (MySQL Internals manual, "Packed Integer").

ghost use Rattle.std.specs.Prelude.{◌≡◌, ◌<◌, ◌≤◌, IfSome, length};

use byteorder::{ByteOrder, LittleEndian};

/// A packed integer at the front of bytes, and the bytes after it.
#[derive(Clone, Copy, Debug)]
pub(crate) struct Packed<'a> {
    pub(crate) value: u64,
    pub(crate) rest: &'a [u8],
}

/// A text at the front of bytes, after its length, and the bytes after it.
#[derive(Clone, Copy, Debug, PartialEq, Eq)]
pub struct Text<'a> {
    /// The text.
    pub text: &'a [u8],
    /// The bytes after it.
    pub rest: &'a [u8],
}

/// Splits bytes after a number of bytes, if they have as many.
pub(crate) fn split_after(bytes: &[u8], len: usize) -> Option<Text<'_>>
    ensures { IfSome result (λ cut. length cut.rest.now ≤ length bytes.now) }
{
    if bytes.len() < len {
        return None;
    }
    let (text, rest) = bytes.split_at(len);
    Some(Text { text, rest })
}

/// Returns the number that the bytes after the first one spell.
fn value_of(first: u8, others: &[u8]) -> u64 {
    match others.len() {
        0 => u64::from(first),
        2 => u64::from(LittleEndian::read_u16(others)),
        3 => u64::from(LittleEndian::read_u24(others)),
        8 => LittleEndian::read_u64(others),
        _ => 0,
    }
}

/// Returns the packed integer at the front, if one is there.
pub(crate) fn packed_at(bytes: &[u8]) -> Option<Packed<'_>>
    ensures { IfSome result (λ packed. length packed.rest.now < length bytes.now) }
{
    let (first, behind) = bytes.split_first()?;
    let more = match *first {
        0..=250 => 0,
        252 => 2,
        253 => 3,
        254 => 8,
        _ => return None,
    };
    let others = split_after(behind, more)?;
    Some(Packed {
        value: value_of(*first, others.text),
        rest: others.rest,
    })
}

/// Returns the text at the front after its packed length, if it is there whole.
pub fn text_at(bytes: &[u8]) -> Option<Text<'_>>
    ensures { IfSome result (λ text. length text.rest.now < length bytes.now) }
{
    let len = packed_at(bytes)?;
    let size = usize::try_from(len.value).ok()?;
    split_after(len.rest, size)
}
