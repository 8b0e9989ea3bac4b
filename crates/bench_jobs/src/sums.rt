//! CRC-32 of events that end with bytes whose own is known: that of what comes before them is shifted, as zlib does it
//! (`crc32_combine`). So a long body isn't summed each time that it is repeated.

use blog_sum::crc32;

/// The polynomial of CRC-32 without its highest power. As in all that follows, the highest bit is the lowest power.
const POLYNOMIAL: u32 = 0xEDB8_8320;

/// The polynomial 1.
const ONE: u32 = 1 << 31;

/// The polynomial of a byte of zeros.
const BYTE: u32 = 1 << 23;

/// All bits if this one, of so much below the highest, is set; else none.
fn mask(number: u32, bit: u32) -> u32 {
    0u32.wrapping_sub((number >> bit.min(31)) & 1)
}

/// The product of two polynomials, modulo that of CRC-32.
fn product(first: u32, second: u32) -> u32 {
    let (mut product, mut bits, mut shifted) = (0, first, second);
    for _ in 0..32u32 {
        product ^= shifted & mask(bits, 31);
        bits = bits.wrapping_mul(2);
        shifted = (shifted >> 1) ^ (POLYNOMIAL & mask(shifted, 0));
    }
    product
}

/// The polynomial of so many bytes of zeros, modulo that of CRC-32.
fn zeros(len: usize) -> u32 {
    let (mut zeros, mut power, mut rest) = (ONE, BYTE, len);
    for _ in 0..64u32 {
        if rest == 0 {
            break;
        }
        if rest % 2 == 1 {
            zeros = product(zeros, power);
        }
        power = product(power, power);
        rest /= 2;
    }
    zeros
}

/// What is known of bytes with which events end.
#[derive(Clone, Copy)]
pub struct Ending {
    sum: u32,
    zeros: u32,
}

impl Ending {
    /// That of these bytes.
    pub fn new(bytes: &[u8]) -> Ending {
        Ending {
            sum: crc32(bytes),
            zeros: zeros(bytes.len()),
        }
    }

    /// The CRC-32 of bytes and these behind them, by the CRC-32 of the bytes.
    pub fn sum_after(&self, sum: u32) -> u32 {
        product(sum, self.zeros) ^ self.sum
    }
}
