//! The values of integer columns.

ghost use Rattle.std.specs.Prelude.{◌≡◌, ◌<◌, ◌^◌, ◌++◌, IfSome, OnOk};
ghost use Rattle.std.specs.Fmt.{decimal, signed_decimal};
ghost use Rattle.blog_value.specs.Integers.{big_of, is_width, signed_of, unsigned_of};

use crate::texts::put_text;
use byteorder::{BigEndian, ByteOrder, LittleEndian};
use itoa::Buffer;
use std::alloc::{AllocError, Allocator};

/// Whether the bytes are exactly that many, one to eight.
#[inline(always)]
fn is_width(width: usize, bytes: &[u8]) -> bool
    ensures { result ≡ is_width width bytes.now }
{
    1 <= width && width <= 8 && bytes.len() == width
}

/// Returns the unsigned integer in that many bytes, the lowest byte first.
#[inline(always)]
#[tactic(auto, unfolding(crate::specs::Integers::unsigned_of))]
pub(crate) fn read_unsigned(width: usize, bytes: &[u8]) -> Option<u64>
    ensures value { result ≡ unsigned_of width bytes.now }
    ensures fits { IfSome result (λ n. n < 256 ^ width) }
{
    if is_width(width, bytes) {
        Some(LittleEndian::read_uint(bytes, width))
    } else {
        None
    }
}

/// Returns the signed integer in that many bytes, the lowest byte first.
#[inline(always)]
#[tactic(auto, unfolding(crate::specs::Integers::signed_of))]
pub(crate) fn read_signed(width: usize, bytes: &[u8]) -> Option<i64>
    ensures { result ≡ signed_of width bytes.now }
{
    if is_width(width, bytes) {
        Some(LittleEndian::read_int(bytes, width))
    } else {
        None
    }
}

/// Returns the unsigned integer in that many bytes, the highest byte first.
#[inline(always)]
#[tactic(auto, unfolding(crate::specs::Integers::big_of))]
pub(crate) fn read_big(width: usize, bytes: &[u8]) -> Option<u64>
    ensures value { result ≡ big_of width bytes.now }
    ensures fits { IfSome result (λ n. n < 256 ^ width) }
{
    if is_width(width, bytes) {
        Some(BigEndian::read_uint(bytes, width))
    } else {
        None
    }
}

/// Appends an unsigned integer in decimal digits.
pub fn put_unsigned<A: Allocator>(out: &mut Vec<u8, A>, n: u64) -> Result<(), AllocError>
    ensures { OnOk result (out.new.items ≡ out.old.items ++ decimal n) }
{
    let mut buffer = Buffer::new();
    put_text(out, buffer.format(n).as_bytes())
}

/// Appends a signed integer in decimal digits, with a minus in front if it is negative.
pub fn put_signed<A: Allocator>(out: &mut Vec<u8, A>, n: i64) -> Result<(), AllocError>
    ensures { OnOk result (out.new.items ≡ out.old.items ++ signed_decimal n) }
{
    let mut buffer = Buffer::new();
    put_text(out, buffer.format(n).as_bytes())
}
