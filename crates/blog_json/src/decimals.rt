//! Decimal numbers.

ghost use Rattle.std.specs.Prelude.{◌≤◌, ◌+◌, length};
ghost use Rattle.blog_json.specs.Texts.{Keeps};

use crate::slices::{bytes_from, bytes_within};
use crate::texts::{put_sign, put_text};
use byteorder::{BigEndian, ByteOrder};
use std::alloc::{AllocError, Allocator};

/// The most digits of a number (MySQL's sources, sql/my_decimal.h, `DECIMAL_MAX_POSSIBLE_PRECISION`).
const MOST_DIGITS: usize = 81;

/// The most bytes of a number: more than 81 digits take.
const MOST_BYTES: usize = 40;

/// How many digits a full group has.
const GROUP_DIGITS: usize = 9;

/// The digits of a number, from the highest on.
#[derive(Clone, Copy, Debug)]
struct Decimal {
    is_negative: bool,
    /// How many digits stand before the point.
    whole: usize,
    /// How many digits there are.
    precision: usize,
    digits: [u8; MOST_DIGITS],
    ghost within: { whole ≤ precision },
    ghost fits: { precision ≤ 81 },
}

/// Writes a number into as many digits as there is room for. Returns whether it fits.
fn write_digits(digits: &mut [u8], number: u64) -> bool {
    let mut higher = number;
    'digits: for i in (0..digits.len()).rev() {
        digits[i] = b'0' + (higher % 10) as u8;
        higher /= 10;
    }
    higher == 0
}

/// Writes the digits of the groups at the front of bytes (MySQL's sources, strings/decimal.cc, `decimal2bin`): each has nine, but the
/// first before the point and the last behind it, which have what is left. Returns the bytes behind the groups.
fn digits_front<'b>(digits: &mut [u8], bytes: &'b [u8], is_fraction: bool) -> Option<&'b [u8]> {
    let mut done = 0;
    let mut rest = bytes;
    'groups: while done < digits.len() {
        let left = digits.len() - done;
        let here = if is_fraction {
            left.min(GROUP_DIGITS)
        } else {
            (left - 1) % GROUP_DIGITS + 1
        };
        let size = here.div_ceil(2).min(4);
        let group = bytes_within(rest, 0, size)?;
        if !write_digits(
            &mut digits[done..done + here],
            BigEndian::read_uint(group, size),
        ) {
            return None;
        }
        rest = bytes_from(rest, size)?;
        done += here;
    }
    Some(rest)
}

impl Decimal {
    /// Returns the number of a precision, a scale and its bytes: the highest bit is turned, and all bits of a negative number are.
    fn of(bytes: &[u8]) -> Option<Decimal> {
        let precision = usize::from(*bytes.get(0)?);
        let scale = usize::from(*bytes.get(1)?);
        let packed = bytes_from(bytes, 2)?;
        if precision > MOST_DIGITS
            || scale > precision
            || packed.is_empty()
            || packed.len() > MOST_BYTES
        {
            return None;
        }
        let is_negative = packed[0] < 128;
        let mut turned = [0; MOST_BYTES];
        'turned: for i in 0..packed.len() {
            turned[i] = if is_negative { !packed[i] } else { packed[i] };
        }
        turned[0] ^= 128;
        let whole = precision - scale;
        let mut digits = [b'0'; MOST_DIGITS];
        let fraction = digits_front(&mut digits[..whole], &turned[..packed.len()], false)?;
        let rest = digits_front(&mut digits[whole..precision], fraction, true)?;
        if !rest.is_empty() {
            return None;
        }
        Some(Decimal {
            is_negative,
            whole,
            precision,
            digits,
        })
    }
}

/// Returns how many zeros stand in front of other digits.
fn zeros_of(digits: &[u8]) -> usize
    ensures { result ≤ length digits.now }
{
    'zeros: for i in 0..digits.len() {
        if digits[i] != b'0' {
            return i;
        }
    }
    digits.len()
}

/// Appends bytes of the type `DECIMAL` as a number with all digits of its scale. Returns whether they are one.
#[tactic(auto, using(crate::proofs::Keeping::begins_appended))]
pub(crate) fn put_decimal<A: Allocator>(
    out: &mut Vec<u8, A>,
    bytes: &[u8],
) -> Result<bool, AllocError>
    ensures { Keeps out.old.items out.new.items }
{
    let Some(decimal) = Decimal::of(bytes) else {
        return Ok(false);
    };
    let (whole, fraction) = decimal.digits[..decimal.precision].split_at(decimal.whole);
    put_sign(out, decimal.is_negative)?;
    let zeros = zeros_of(whole);
    put_text(
        out,
        if zeros == whole.len() {
            b"0".as_slice()
        } else {
            &whole[zeros..]
        },
    )?;
    if !fraction.is_empty() {
        put_text(out, b".")?;
        put_text(out, fraction)?;
    }
    Ok(true)
}
