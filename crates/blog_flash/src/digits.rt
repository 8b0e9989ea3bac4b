//! Hexadecimal digits of bytes.

ghost use Rattle.std.specs.Prelude.{◌≡◌, ◌<◌, ◌≤◌, ◌+◌, ◌*◌, ◌/◌, ◌%◌, ◌++◌, length, map, take, drop, slice_index};
ghost use Rattle.std.specs.Simd.Lanes.{Each1};
ghost use Rattle.hex.specs.Hex.{encode_upper, upper_digits};

use std::simd::prelude::*;

/// The digit of each number below sixteen.
const SIXTEEN: [u8; 16] = *b"0123456789ABCDEF";

/// The two digits of each byte, in hexadecimal and upper case.
static DIGITS: [u8; 512] = *b"\
000102030405060708090A0B0C0D0E0F101112131415161718191A1B1C1D1E1F\
202122232425262728292A2B2C2D2E2F303132333435363738393A3B3C3D3E3F\
404142434445464748494A4B4C4D4E4F505152535455565758595A5B5C5D5E5F\
606162636465666768696A6B6C6D6E6F707172737475767778797A7B7C7D7E7F\
808182838485868788898A8B8C8D8E8F909192939495969798999A9B9C9D9E9F\
A0A1A2A3A4A5A6A7A8A9AAABACADAEAFB0B1B2B3B4B5B6B7B8B9BABBBCBDBEBF\
C0C1C2C3C4C5C6C7C8C9CACBCCCDCECFD0D1D2D3D4D5D6D7D8D9DADBDCDDDEDF\
E0E1E2E3E4E5E6E7E8E9EAEBECEDEEEFF0F1F2F3F4F5F6F7F8F9FAFBFCFDFEFF\
";

/// Returns the digits of numbers below sixteen.
#[inline(always)]
fn digits_of(numbers: u8x16) -> u8x16
    requires { Each1 (λ n. n < 16) numbers }
    ensures { result ≡ map (slice_index upper_digits) numbers }
{
    u8x16::from_array(SIXTEEN).swizzle_dyn(numbers)
}

/// Returns the first digit of each byte.
#[inline(always)]
fn first_digits(bytes: u8x16) -> u8x16
    ensures { result ≡ map (λ b. slice_index upper_digits (b / 16)) bytes }
{
    digits_of(bytes >> u8x16::splat(4))
}

/// Returns the second digit of each byte.
#[inline(always)]
fn second_digits(bytes: u8x16) -> u8x16
    ensures { result ≡ map (λ b. slice_index upper_digits (b % 16)) bytes }
{
    digits_of(bytes & u8x16::splat(15))
}

/// Returns the digits of the first eight bytes.
#[inline(always)]
fn front(bytes: u8x16) -> u8x16
    ensures { result ≡ encode_upper (take 8 bytes) }
{
    first_digits(bytes).shuffle(
        second_digits(bytes),
        [0, 16, 1, 17, 2, 18, 3, 19, 4, 20, 5, 21, 6, 22, 7, 23],
    )
}

/// Returns the digits of the last eight bytes.
#[inline(always)]
fn back(bytes: u8x16) -> u8x16
    ensures { result ≡ encode_upper (drop 8 bytes) }
{
    first_digits(bytes).shuffle(
        second_digits(bytes),
        [8, 24, 9, 25, 10, 26, 11, 27, 12, 28, 13, 29, 14, 30, 15, 31],
    )
}

/// Writes sixteen digits from a place on.
#[inline(always)]
fn put_part(to: &mut [u8], at: usize, part: u8x16)
    requires { at + 16 ≤ length to.old }
    ensures { to.new ≡ take at to.old ++ (part ++ drop (at + 16) to.old) }
{
    part.copy_to_slice(&mut to[at..]);
}

/// Writes the digits of the eight bytes from a place on.
#[inline(always)]
fn put_eight(to: &mut [u8], bytes: &[u8], at: usize)
    requires long { length to.old ≡ 2 * length bytes.now }
    requires within { at + 8 ≤ length bytes.now }
    ensures { to.new ≡ take (2 * at) to.old ++ (encode_upper (take 8 (drop at bytes.now)) ++ drop (2 * (at + 8)) to.old) }
{
    let eight = u8x8::from_slice(&bytes[at..]);
    // Only the front of the sixteen is used.
    let sixteen = eight.shuffle(
        u8x8::splat(0),
        [0, 1, 2, 3, 4, 5, 6, 7, 8, 9, 10, 11, 12, 13, 14, 15],
    );
    put_part(to, 2 * at, front(sixteen));
}

/// Writes the digits of the sixteen bytes from a place on.
#[inline(always)]
fn put_sixteen(to: &mut [u8], bytes: &[u8], at: usize)
    requires long { length to.old ≡ 2 * length bytes.now }
    requires within { at + 16 ≤ length bytes.now }
    ensures { to.new ≡ take (2 * at) to.old ++ (encode_upper (take 16 (drop at bytes.now)) ++ drop (2 * (at + 16)) to.old) }
{
    let sixteen = u8x16::from_slice(&bytes[at..]);
    put_part(to, 2 * at, front(sixteen));
    put_part(to, 2 * at + 16, back(sixteen));
}

/// Writes the digits of a few bytes, one byte after the other.
#[inline]
fn write_few(to: &mut [u8], bytes: &[u8])
    requires { length to.old ≡ 2 * length bytes.now }
    ensures { to.new ≡ encode_upper bytes.now }
{
    'bytes: for i in 0..bytes.len() {
        let from = 2 * bytes[i] as usize;
        let (high, low) = (DIGITS[from], DIGITS[from + 1]);
        to[2 * i] = high;
        to[2 * i + 1] = low;
    }
}

/// Writes the digits of eight to sixteen bytes.
#[inline]
fn write_eights(to: &mut [u8], bytes: &[u8])
    requires long { length to.old ≡ 2 * length bytes.now }
    requires enough { 8 ≤ length bytes.now }
    requires few { length bytes.now ≤ 16 }
    ensures { to.new ≡ encode_upper bytes.now }
{
    // The last eight may begin among the first, since nothing may be read past the end.
    put_eight(to, bytes, 0);
    put_eight(to, bytes, bytes.len() - 8);
}

/// Writes the digits of sixteen bytes or more.
#[inline]
fn write_sixteens(to: &mut [u8], bytes: &[u8])
    requires long { length to.old ≡ 2 * length bytes.now }
    requires enough { 16 ≤ length bytes.now }
    ensures { to.new ≡ encode_upper bytes.now }
{
    let last = bytes.len() - 16;
    let mut at = 0;
    'parts: while at < last {
        put_sixteen(to, bytes, at);
        at += 16;
    }
    // The last sixteen may begin among those before, since nothing may be read past the end.
    put_sixteen(to, bytes, last);
}

/// Writes the upper-case hexadecimal digits of bytes over as many.
#[inline]
pub(crate) fn write_digits(to: &mut [u8], bytes: &[u8])
    requires { length to.old ≡ 2 * length bytes.now }
    ensures { to.new ≡ encode_upper bytes.now }
{
    if bytes.len() < 8 {
        write_few(to, bytes);
    } else if bytes.len() < 16 {
        write_eights(to, bytes);
    } else {
        write_sixteens(to, bytes);
    }
}
