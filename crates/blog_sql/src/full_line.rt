//! A full line in base64: twelve bytes at once become sixteen characters, by the method of W. Muła and D. Lemire ("Faster
//! Base64 Encoding and Decoding Using AVX2 Instructions", 2018), with vectors of sixteen bytes in place of 32.

ghost use Rattle.std.specs.Prelude.{◌≡◌, ◌<◌, ◌≤◌, ◌+◌, ◌++◌, ◌∷◌, [], length, map, take, drop, slice_index};
ghost use Rattle.std.specs.Simd.Lanes.{Each1};
ghost use Rattle.base64.specs.Engines.{standard};
ghost use Rattle.base64.specs.GeneralPurpose.{encode_of, engine_symbols};
ghost use Rattle.blog_sql.specs.code.FullLine.{sixes};

use std::simd::prelude::*;

/// What turns a number into its character, by classes: 0 is `a` to `z`, 1 to 10 are the digits, 11 is `+`, 12 is `/`, and
/// 13 is `A` to `Z`. Each is a character less its number, modulo 256: 97 - 26, 48 - 52, 43 - 62, 47 - 63 and 65 - 0.
const OFFSETS: [u8; 16] = [
    71, 252, 252, 252, 252, 252, 252, 252, 252, 252, 252, 237, 240, 65, 0, 0,
];

/// Returns the numbers of six bits in the first twelve bytes.
#[inline(always)]
fn six_bits(bytes: u8x16) -> u8x16
    ensures { result ≡ sixes (take 12 bytes) }
{
    // Each pair of bytes, the first above the second, has two numbers of six bits. A product moves one of them to the top.
    let pairs = u16x8::from_le_bytes(bytes.swizzle([
        1, 0, 2, 1, 4, 3, 5, 4, 7, 6, 8, 7, 10, 9, 11, 10,
    ]));
    let ten = u16x8::splat(10);
    let first = (pairs * u16x8::from_array([1, 16, 1, 16, 1, 16, 1, 16])) >> ten;
    let second = (pairs * u16x8::from_array([64, 1024, 64, 1024, 64, 1024, 64, 1024])) >> ten;
    (first + second * u16x8::splat(256)).to_le_bytes()
}

/// Returns the characters of numbers of six bits.
#[inline(always)]
fn characters(numbers: u8x16) -> u8x16
    requires { Each1 (λ n. n < 64) numbers }
    ensures { result ≡ map (slice_index (engine_symbols standard)) numbers }
{
    let last_letter = u8x16::splat(51);
    let past_letters = numbers.simd_lt(last_letter).select(last_letter, numbers) - last_letter;
    let classes = numbers
        .simd_lt(u8x16::splat(26))
        .select(u8x16::splat(13), past_letters);
    numbers + u8x16::from_array(OFFSETS).swizzle_dyn(classes)
}

/// Encodes the first twelve bytes.
#[inline(always)]
fn encoded(bytes: u8x16) -> u8x16
    ensures { result ≡ encode_of standard (take 12 bytes) }
{
    characters(six_bits(bytes))
}

/// Puts sixteen characters into a line.
#[inline(always)]
fn put_part(part: u8x16, line: &mut [u8], at: usize)
    requires { at + 16 ≤ length line.old }
    ensures { line.new ≡ take at line.old ++ (part ++ drop (at + 16) line.old) }
{
    part.copy_to_slice(&mut line[at..]);
}

/// Encodes the 57 bytes of a full line.
pub(crate) fn encoded_line(bytes: &[u8]) -> [u8; 77]
    requires { length bytes.now ≡ 57 }
    ensures { result ≡ encode_of standard bytes.now ++ 10 ∷ [] }
{
    let mut line = [b'\n'; 77];
    'parts: for part in 0..4 {
        let sixteen = u8x16::from_slice(&bytes[12 * part..]);
        put_part(encoded(sixteen), &mut line, 16 * part);
    }
    // The last twelve bytes come with four before them, since nothing may be read past the end.
    let sixteen = u8x16::from_slice(&bytes[41..]);
    put_part(encoded(sixteen.rotate_elements_left::<4>()), &mut line, 60);
    line
}
