//! Fractions of a second.

ghost use Rattle.std.specs.Prelude.{◌≡◌, ◌≤◌, ◌<◌, ◌-◌, ◌*◌, ◌^◌, ◌++◌, IfSome, OnOk};
ghost use Rattle.blog_value.specs.Times.{fraction_of, fraction_text, fraction_width, no_fraction, seconds_in, with_fraction_of};

use crate::integers::read_big;
use crate::texts::{put_padded, put_text, ten_to};
use std::alloc::{AllocError, Allocator};

/// The most digits of a fraction.
const MOST_DIGITS: u8 = 6;

/// A fraction of a second, in a column that keeps some digits of it.
#[derive(Clone, Copy, Debug, PartialEq, Eq)]
pub struct Fraction {
    /// The fraction in microseconds, below 1,000,000.
    pub micros: u32,
    /// How many digits the column keeps, from 0 to 6.
    pub digits: u8,
}

/// What the bytes of a fraction are multiplied and divided by.
#[derive(Clone, Copy)]
struct Scale {
    // The numbers that fit in the bytes.
    bytes: u64,
    // The units in a second.
    units: u64,
    // The microseconds in a unit.
    micros: u64,
}

/// Returns the scale of a fraction of that many digits.
#[inline(always)]
fn scale_of(digits: u8) -> Scale
    requires { digits ≤ 6 }
    ensures bytes { result.bytes ≡ 256 ^ fraction_width digits }
    ensures units { result.units ≡ 100 ^ fraction_width digits }
    ensures some { 0 < result.bytes }
    ensures few { result.bytes ≤ 2 ^ 24 }
    ensures second { result.units * result.micros ≡ 1000000 }
    ensures micros { result.micros ≡ 100 ^ (3 - fraction_width digits) }
{
    match digits {
        0 => Scale {
            bytes: 1,
            units: 1,
            micros: 1_000_000,
        },
        1 | 2 => Scale {
            bytes: 256,
            units: 100,
            micros: 10_000,
        },
        3 | 4 => Scale {
            bytes: 65_536,
            units: 10_000,
            micros: 100,
        },
        _ => Scale {
            bytes: 16_777_216,
            units: 1_000_000,
            micros: 1,
        },
    }
}

/// Returns how many numbers fit in the bytes of a fraction.
#[inline(always)]
pub(crate) fn fraction_bytes(digits: u8) -> u64
    requires { digits ≤ 6 }
    ensures value { result ≡ 256 ^ fraction_width digits }
    ensures few { result ≤ 2 ^ 24 }
{
    scale_of(digits).bytes
}

impl Fraction {
    /// No fraction, in a column that keeps none.
    pub(crate) const fn none() -> Self
        ensures { result ≡ no_fraction }
    {
        Fraction {
            micros: 0,
            digits: 0,
        }
    }

    /// Returns the fraction in the lowest bytes of a number.
    #[inline(always)]
    #[tactic(auto, unfolding(crate::specs::Times::fraction_of))]
    pub(crate) fn in_number(digits: u8, n: u64) -> Option<Self>
        requires { digits ≤ 6 }
        ensures { result ≡ fraction_of digits n }
    {
        let scale = scale_of(digits);
        let units = n % scale.bytes;
        if units >= scale.units {
            return None;
        }
        Some(Fraction {
            micros: (units * scale.micros) as u32,
            digits,
        })
    }
}

/// Returns the seconds in front of the lowest bytes of a number.
#[inline(always)]
pub(crate) fn seconds_in(digits: u8, n: u64) -> u64
    requires { digits ≤ 6 }
    ensures { result ≡ seconds_in digits n }
{
    n / scale_of(digits).bytes
}

/// Returns the number in bytes that have seconds in front, in `width` bytes, and a fraction behind.
#[inline(always)]
pub(crate) fn read_with_fraction(width: usize, digits: u8, bytes: &[u8]) -> Option<u64>
    requires { width ≤ 8 }
    ensures value { result ≡ with_fraction_of width digits bytes.now }
    ensures fits { IfSome result (λ n. seconds_in digits n < 256 ^ width) }
{
    if digits > MOST_DIGITS {
        return None;
    }
    read_big(width + usize::from(digits.div_ceil(2)), bytes)
}

/// Appends a fraction behind a point, in as many digits as the column keeps: `.250`. Appends nothing if it keeps none.
pub fn put_fraction<A: Allocator>(
    out: &mut Vec<u8, A>,
    fraction: &Fraction,
) -> Result<(), AllocError>
    ensures { OnOk result (out.new.items ≡ out.old.items ++ fraction_text fraction.now) }
{
    if fraction.digits == 0 {
        return Ok(());
    }
    let digits = fraction.digits.min(MOST_DIGITS);
    put_text(out, b".")?;
    put_padded(
        out,
        usize::from(digits),
        u64::from(fraction.micros / ten_to(MOST_DIGITS - digits)),
    )
}
