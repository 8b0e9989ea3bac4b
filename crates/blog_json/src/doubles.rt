//! Floating-point numbers.

ghost use Rattle.std.specs.Prelude.{◌≡◌, ◌≤◌, ◌<◌};
ghost use Rattle.blog_json.specs.Texts.{Keeps};

use crate::texts::{put_sign, put_signed, put_text, put_zeros};
use byteorder::{ByteOrder, LittleEndian};
use ryu::Buffer;
use std::alloc::{AllocError, Allocator};

/// Room for more digits than tell a number from all others.
const MOST_DIGITS: usize = 32;

/// A number 0.DIGITS times ten to the power of `point`.
#[derive(Clone, Copy, Debug)]
struct Digits {
    is_negative: bool,
    /// Its digits, of which neither the first nor the last is 0.
    digits: [u8; MOST_DIGITS],
    /// How many they are: none for zero.
    len: usize,
    point: i32,
    ghost fits: { len ≤ 32 },
}

/// Returns the exponent that stands behind an `e`.
fn exponent_of(text: &[u8]) -> i32 {
    let mut exponent: i32 = 0;
    let mut is_negative = false;
    'exponent: for byte in text {
        match *byte {
            b'-' => is_negative = true,
            digit => exponent = exponent
                .saturating_mul(10)
                .saturating_add(i32::from(digit.saturating_sub(b'0'))),
        }
    }
    if is_negative {
        0i32.saturating_sub(exponent)
    } else {
        exponent
    }
}

impl Digits {
    /// Adds a digit behind the others.
    fn push(&mut self, digit: u8, is_fraction: bool) {
        if self.len == 0 && digit == b'0' {
            self.point = self.point.saturating_sub(i32::from(is_fraction));
            return;
        }
        self.point = self.point.saturating_add(i32::from(!is_fraction));
        if self.len < MOST_DIGITS {
            self.digits[self.len] = digit;
            self.len += 1;
        }
    }

    /// Removes the zeros behind the other digits.
    fn trim(&mut self) {
        'trim: while self.len > 0 && self.digits[self.len - 1] == b'0' {
            self.len -= 1;
        }
    }

    /// Returns the digits of the shortest text of a number, which may have a point and an exponent.
    fn of(text: &[u8]) -> Digits {
        let mut number = Digits {
            is_negative: false,
            digits: [b'0'; MOST_DIGITS],
            len: 0,
            point: 0,
        };
        let mut is_negative = false;
        let mut is_fraction = false;
        let mut exponent = 0;
        'text: for i in 0..text.len() {
            match text[i] {
                b'-' => is_negative = true,
                b'.' => is_fraction = true,
                b'e' => {
                    exponent = exponent_of(&text[i + 1..]);
                    break;
                }
                digit => number.push(digit, is_fraction),
            }
        }
        number.trim();
        Digits {
            is_negative,
            digits: number.digits,
            len: number.len,
            point: number.point.saturating_add(exponent),
        }
    }
}

/// Appends digits with the point among them or behind them.
#[tactic(auto, using(crate::proofs::Keeping::begins_appended))]
fn put_pointed<A: Allocator>(
    out: &mut Vec<u8, A>,
    digits: &[u8],
    point: usize,
) -> Result<(), AllocError>
    ensures { Keeps out.old.items out.new.items }
{
    if digits.len() <= point {
        put_text(out, digits)?;
        put_zeros(out, point - digits.len())?;
        put_text(out, b".0")
    } else {
        put_text(out, &digits[..point])?;
        put_text(out, b".")?;
        put_text(out, &digits[point..])
    }
}

/// Appends digits with the point behind the first, if there are others, and an exponent.
#[tactic(auto, using(crate::proofs::Keeping::begins_appended))]
fn put_scientific<A: Allocator>(
    out: &mut Vec<u8, A>,
    digits: &[u8],
    exponent: i64,
) -> Result<(), AllocError>
    ensures { Keeps out.old.items out.new.items }
{
    let (first, others) = digits.split_at(digits.len().min(1));
    put_text(out, first)?;
    if !others.is_empty() {
        put_text(out, b".")?;
        put_text(out, others)?;
    }
    put_text(out, b"e")?;
    put_signed(out, exponent)
}

/// Appends a number as MySQL does (MySQL's sources, strings/dtoa.cc, `my_gcvt`): with an exponent if 16 digits or more would stand
/// before the point, or 15 zeros or more behind it.
#[tactic(auto, using(crate::proofs::Keeping::begins_appended))]
fn put_number<A: Allocator>(out: &mut Vec<u8, A>, number: &Digits) -> Result<(), AllocError>
    ensures { Keeps out.old.items out.new.items }
{
    let digits = &number.digits[..number.len];
    let point = number.point;
    put_sign(out, number.is_negative)?;
    if digits.is_empty() {
        put_text(out, b"0.0")
    } else if point > 0 && point <= 15 {
        put_pointed(out, digits, point as usize)
    } else if point <= 0 && point >= -14 {
        put_text(out, b"0.")?;
        put_zeros(out, point.unsigned_abs() as usize)?;
        put_text(out, digits)
    } else {
        put_scientific(out, digits, i64::from(point) - 1)
    }
}

/// Appends the number that eight bytes hold (IEEE 754, binary64), the lowest first. Returns false if there are fewer, or if it isn't
/// finite.
#[tactic(auto, using(crate::proofs::Keeping::begins_appended))]
pub(crate) fn put_double<A: Allocator>(
    out: &mut Vec<u8, A>,
    bytes: &[u8],
) -> Result<bool, AllocError>
    ensures { Keeps out.old.items out.new.items }
{
    if bytes.len() < 8 {
        return Ok(false);
    }
    let number = LittleEndian::read_f64(bytes);
    if !number.is_finite() {
        return Ok(false);
    }
    let mut buffer = Buffer::new();
    put_number(out, &Digits::of(buffer.format_finite(number).as_bytes()))?;
    Ok(true)
}
