//! The values of BIT columns.

ghost use Rattle.std.specs.Prelude.{◌≡◌, ◌≤◌, ◌^◌, ◌++◌, OnOk};
ghost use Rattle.blog_value.specs.Bits.{bits_of, bits_text};

use crate::integers::read_big;
use crate::texts::{put_digits, put_text};
use std::alloc::{AllocError, Allocator};

/// The most bits of a BIT column.
const MOST_BITS: u8 = 64;

/// A value of a BIT column.
#[derive(Clone, Copy, Debug, PartialEq, Eq)]
pub struct Bits {
    /// The bits as a number.
    pub bits: u64,
    /// How many bits the column has, from 1 to 64.
    pub count: u8,
}

/// Returns the value of a BIT column with this many bits.
#[tactic(auto, unfolding(crate::specs::Bits::bits_of))]
pub(crate) fn read_bits(count: usize, bytes: &[u8]) -> Option<Bits>
    ensures { result ≡ bits_of count bytes.now }
{
    let bits = read_big(count.div_ceil(8), bytes)?;
    if count < 1 || count > usize::from(MOST_BITS) || u128::from(bits) >= 1 << count {
        return None;
    }
    Some(Bits {
        bits,
        count: count as u8,
    })
}

/// Appends the bits as a literal: `b'0101'`, a digit for each bit of the column.
pub fn put_bits<A: Allocator>(out: &mut Vec<u8, A>, value: &Bits) -> Result<(), AllocError>
    ensures { OnOk result (out.new.items ≡ out.old.items ++ bits_text value.now) }
{
    put_text(out, b"b'")?;
    put_digits(out, 2, usize::from(value.count.min(MOST_BITS)), value.bits)?;
    put_text(out, b"'")
}
