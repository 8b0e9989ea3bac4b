//! Texts that grow at their end.

ghost use Rattle.std.specs.Prelude.{◌≡◌, ◌≤◌, ◌<◌, ◌^◌, ◌++◌, OnOk};
ghost use Rattle.blog_value.specs.Digits.{in_digits, padded};

use std::alloc::{AllocError, Allocator};

/// The most digits that are appended at once.
const MOST_DIGITS: usize = 64;

/// Appends a text.
#[inline(always)]
pub(crate) fn put_text<A: Allocator>(out: &mut Vec<u8, A>, text: &[u8]) -> Result<(), AllocError>
    ensures { OnOk result (out.new.items ≡ out.old.items ++ text.now) }
{
    out.extend_from_slice(text)
}

/// Appends the lowest digits of a number in a base, that many of them.
#[inline(always)]
pub(crate) fn put_digits<A: Allocator>(
    out: &mut Vec<u8, A>,
    base: u64,
    width: usize,
    n: u64,
) -> Result<(), AllocError>
    requires some { 0 < base }
    requires ten { base ≤ 10 }
    requires few { width ≤ 64 }
    ensures { OnOk result (out.new.items ≡ out.old.items ++ in_digits base width n) }
{
    let mut digits = [0; MOST_DIGITS];
    let start = MOST_DIGITS - width;
    let mut left = n;
    let mut place = MOST_DIGITS;
    'places: while place > start {
        place -= 1;
        digits[place] = b'0' + (left % base) as u8;
        left /= base;
    }
    put_text(out, &digits[start..])
}

/// Appends a number in that many decimal digits, with zeros in front.
#[inline(always)]
pub(crate) fn put_padded<A: Allocator>(
    out: &mut Vec<u8, A>,
    width: usize,
    n: u64,
) -> Result<(), AllocError>
    requires { width ≤ 64 }
    ensures { OnOk result (out.new.items ≡ out.old.items ++ padded width n) }
{
    put_digits(out, 10, width, n)
}

/// Returns a power of ten.
#[inline(always)]
pub(crate) fn ten_to(exponent: u8) -> u32
    requires { exponent ≤ 9 }
    ensures value { result ≡ 10 ^ exponent }
    ensures some { 0 < result }
{
    match exponent {
        0 => 1,
        1 => 10,
        2 => 100,
        3 => 1_000,
        4 => 10_000,
        5 => 100_000,
        6 => 1_000_000,
        7 => 10_000_000,
        8 => 100_000_000,
        _ => 1_000_000_000,
    }
}
