//! Literals and whole numbers.

ghost use Rattle.std.specs.Prelude.{◌≡◌, ◌≤◌, ◌++◌, OnOk, length};
ghost use Rattle.blog_json.specs.Scalars.{literal_front, number_bytes, scalar_front, scalar_text, size_front};
ghost use Rattle.blog_json.specs.Texts.{Keeps};

use crate::kinds::{Kind, Width};
use crate::texts::{put_signed, put_text, put_unsigned};
use byteorder::{ByteOrder, LittleEndian};
use std::alloc::{AllocError, Allocator};

/// A literal or a whole number.
#[derive(Clone, Copy, Debug)]
pub(crate) enum Scalar {
    /// `null`
    Null,
    /// `true` or `false`
    Truth(bool),
    /// A number of a signed type.
    Signed(i64),
    /// A number of an unsigned type.
    Unsigned(u64),
}

/// Returns the count, the size or the offset at the front of bytes (MySQL's sources, json_binary.cc, `read_offset_or_size`).
pub(crate) fn size_front(width: Width, bytes: &[u8]) -> Option<u32>
    ensures { result ≡ size_front width bytes.now }
{
    if bytes.len() < width.bytes() {
        return None;
    }
    match width {
        Width::Small => Some(u32::from(LittleEndian::read_u16(bytes))),
        Width::Large => Some(LittleEndian::read_u32(bytes)),
    }
}

/// Returns the literal at the front of bytes.
fn literal_front(bytes: &[u8]) -> Option<Scalar>
    ensures { result ≡ literal_front bytes.now }
{
    match bytes.first()? {
        0 => Some(Scalar::Null),
        1 => Some(Scalar::Truth(true)),
        2 => Some(Scalar::Truth(false)),
        _ => None,
    }
}

/// Returns how many bytes a whole number takes.
fn number_bytes(kind: Kind) -> Option<usize>
    ensures { result ≡ number_bytes kind }
{
    match kind {
        Kind::Int16 | Kind::Uint16 => Some(2),
        Kind::Int32 | Kind::Uint32 => Some(4),
        Kind::Int64 | Kind::Uint64 => Some(8),
        _ => None,
    }
}

/// Returns the literal or the whole number at the front of bytes.
pub(crate) fn scalar_front(kind: Kind, bytes: &[u8]) -> Option<Scalar>
    ensures { result ≡ scalar_front kind bytes.now }
{
    if matches!(kind, Kind::Literal) {
        return literal_front(bytes);
    }
    if bytes.len() < number_bytes(kind)? {
        return None;
    }
    match kind {
        Kind::Int16 => Some(Scalar::Signed(i64::from(LittleEndian::read_i16(bytes)))),
        Kind::Uint16 => Some(Scalar::Unsigned(u64::from(LittleEndian::read_u16(bytes)))),
        Kind::Int32 => Some(Scalar::Signed(i64::from(LittleEndian::read_i32(bytes)))),
        Kind::Uint32 => Some(Scalar::Unsigned(u64::from(LittleEndian::read_u32(bytes)))),
        Kind::Int64 => Some(Scalar::Signed(LittleEndian::read_i64(bytes))),
        Kind::Uint64 => Some(Scalar::Unsigned(LittleEndian::read_u64(bytes))),
        _ => None,
    }
}

/// Appends the text of a literal or a whole number.
pub(crate) fn put_scalar<A: Allocator>(
    out: &mut Vec<u8, A>,
    scalar: Scalar,
) -> Result<(), AllocError>
    ensures appended { OnOk result (out.new.items ≡ out.old.items ++ scalar_text scalar) }
    ensures kept { Keeps out.old.items out.new.items }
{
    match scalar {
        Scalar::Null => put_text(out, b"null"),
        Scalar::Truth(true) => put_text(out, b"true"),
        Scalar::Truth(false) => put_text(out, b"false"),
        Scalar::Signed(n) => put_signed(out, n),
        Scalar::Unsigned(n) => put_unsigned(out, n),
    }
}
