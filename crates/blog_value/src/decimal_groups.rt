//! The groups of digits in a decimal's bytes.

ghost use Rattle.std.specs.Prelude.{◌≡◌, ◌≤◌, ◌+◌, ◌-◌, ◌*◌, nat_lt, if◌then◌else◌, length, take};
ghost use Rattle.blog_value.specs.Decimals.{fraction_fits, group_at, group_width, is_decimal, is_negative, nines_fit, part_width, plain_bytes, whole_fits};

use crate::texts::ten_to;
use byteorder::{BigEndian, ByteOrder};

/// The most digits of a DECIMAL column.
const MOST_DIGITS: u8 = 65;

/// Room for the bytes of these digits.
const MOST_BYTES: usize = 32;

/// The digits of a whole group.
pub(crate) const GROUP: u8 = 9;

/// Returns the size of a group of up to nine digits.
#[inline(always)]
pub(crate) fn group_bytes(digits: u8) -> usize
    ensures { result ≡ group_width digits }
{
    usize::from(digits.div_ceil(2).min(4))
}

/// Returns the size of the digits on one side of the point.
#[inline(always)]
pub(crate) fn part_bytes(digits: u8) -> usize
    ensures { result ≡ part_width digits }
{
    4 * usize::from(digits / GROUP) + group_bytes(digits % GROUP)
}

/// Returns the number of a group of up to nine digits at a place.
#[inline(always)]
#[tactic(auto, unfolding(crate::specs::Decimals::group_at))]
pub(crate) fn group_at(digits: u8, place: usize, bytes: &[u8]) -> u64
    requires { place + group_width digits ≤ length bytes.now }
    ensures { result ≡ group_at digits place bytes.now }
{
    match group_bytes(digits) {
        0 => 0,
        width => BigEndian::read_uint(&bytes[place..], width),
    }
}

/// Returns whether each of that many groups of nine digits from a place on is a number of nine digits.
fn nines_fit(count: usize, place: usize, bytes: &[u8]) -> bool
    requires { place + 4 * count ≤ length bytes.now }
    ensures { result ≡ nines_fit count place bytes.now }
{
    (0..count).all(|i| group_at(GROUP, place + 4 * i, bytes) < 1_000_000_000)
}

/// Returns whether the groups in front of the point have no more digits than they are for.
fn whole_fits(digits: u8, bytes: &[u8]) -> bool
    requires { part_width digits ≤ length bytes.now }
    ensures { result ≡ whole_fits digits bytes.now }
{
    let over = digits % GROUP;
    group_at(over, 0, bytes) < u64::from(ten_to(over))
        && nines_fit(usize::from(digits / GROUP), group_bytes(over), bytes)
}

/// Returns whether the groups behind the point have no more digits than they are for.
fn fraction_fits(digits: u8, bytes: &[u8]) -> bool
    requires { part_width digits ≤ length bytes.now }
    ensures { result ≡ fraction_fits digits bytes.now }
{
    let over = digits % GROUP;
    let count = usize::from(digits / GROUP);
    nines_fit(count, 0, bytes) && group_at(over, 4 * count, bytes) < u64::from(ten_to(over))
}

/// Returns whether a value is negative: its first bit isn't set.
#[inline(always)]
pub(crate) fn is_negative(bytes: &[u8]) -> bool
    requires { 1 ≤ length bytes.now }
    ensures { result ≡ is_negative bytes.now }
{
    bytes[0] < 0x80
}

/// Returns the first byte without the sign.
#[inline(always)]
fn first_plain_byte(negative: bool, byte: u8) -> u8
    requires { negative ≡ nat_lt byte 128 }
    ensures { result ≡ (if negative then 127 - byte else byte - 128) }
{
    if negative { 0x7F - byte } else { byte - 0x80 }
}

/// Returns another byte without the sign: all its bits are flipped in a negative value.
#[inline(always)]
fn plain_byte(negative: bool, byte: u8) -> u8
    ensures { result ≡ (if negative then 255 - byte else byte) }
{
    if negative { 0xFF - byte } else { byte }
}

/// Returns the bytes of a value without its sign, and zeros behind them.
pub(crate) fn plain_bytes(bytes: &[u8]) -> [u8; MOST_BYTES]
    requires some { 1 ≤ length bytes.now }
    requires few { length bytes.now ≤ 32 }
    ensures plain { take (length bytes.now) result ≡ plain_bytes bytes.now }
    ensures long { length result ≡ 32 }
{
    let negative = is_negative(bytes);
    let mut plain = [0; MOST_BYTES];
    plain[0] = first_plain_byte(negative, bytes[0]);
    'others: for i in 1..bytes.len() {
        plain[i] = plain_byte(negative, bytes[i]);
    }
    plain
}

/// Returns whether bytes are a value of a DECIMAL column.
pub(crate) fn is_decimal(precision: u8, scale: u8, bytes: &[u8]) -> bool
    ensures { result ≡ is_decimal precision scale bytes.now }
{
    if precision < 1 || precision > MOST_DIGITS || scale > precision {
        return false;
    }
    let whole = precision - scale;
    let point = part_bytes(whole);
    if bytes.len() != point + part_bytes(scale) {
        return false;
    }
    let plain = plain_bytes(bytes);
    let plain = &plain[..bytes.len()];
    whole_fits(whole, plain) && fraction_fits(scale, &plain[point..])
}
