//! The texts of decimals.

ghost use Rattle.std.specs.Prelude.{◌≡◌, ◌≤◌, ◌<◌, ◌*◌, ◌^◌, ◌++◌, ℕ, List, OnOk, length, true};
ghost use Rattle.blog_value.specs.Digits.{padded};
ghost use Rattle.blog_value.specs.Decimals.{decimal_text, nines, part_width, point_text, whole_fits, whole_text, without_zeros};
ghost use Rattle.blog_value.specs.code.DecimalView.{decimal_value};

use crate::decimal_groups::{GROUP, group_at, group_bytes, is_negative, part_bytes, plain_bytes};
use crate::decimals::Decimal;
use crate::integers::put_unsigned;
use crate::texts::{put_padded, put_text};
use std::alloc::{AllocError, Allocator};

/// Appends a group of digits of a number that begins at `start`, without the number's zeros in front.
fn put_group<A: Allocator>(
    out: &mut Vec<u8, A>,
    start: usize,
    width: u8,
    group: u64,
) -> Result<(), AllocError>
    requires few { width ≤ 9 }
    requires fits { group < 10 ^ width }
    ensures { OnOk result ((front digits : List ℕ) → length front ≡ start → out.old.items ≡ front ++ without_zeros digits → out.new.items ≡ front ++ without_zeros (digits ++ padded width group)) }
{
    if out.len() > start {
        put_padded(out, usize::from(width), group)
    } else if group > 0 {
        put_unsigned(out, group)
    } else {
        Ok(())
    }
}

/// Appends the digits in front of the point, without zeros in front, or a zero if nothing is left.
fn put_whole<A: Allocator>(out: &mut Vec<u8, A>, digits: u8, bytes: &[u8]) -> Result<(), AllocError>
    requires long { part_width digits ≤ length bytes.now }
    requires fits { whole_fits digits bytes.now ≡ true }
    ensures { OnOk result (out.new.items ≡ out.old.items ++ whole_text digits bytes.now) }
{
    let start = out.len();
    let over = digits % GROUP;
    let place = group_bytes(over);
    put_group(out, start, over, group_at(over, 0, bytes))?;
    'groups: for i in 0..usize::from(digits / GROUP) {
        put_group(out, start, GROUP, group_at(GROUP, place + 4 * i, bytes))?;
    }
    if out.len() == start {
        return put_text(out, b"0");
    }
    Ok(())
}

/// Appends groups of nine digits.
fn put_nines<A: Allocator>(
    out: &mut Vec<u8, A>,
    count: usize,
    bytes: &[u8],
) -> Result<(), AllocError>
    requires { 4 * count ≤ length bytes.now }
    ensures { OnOk result (out.new.items ≡ out.old.items ++ nines count 0 bytes.now) }
{
    'groups: for i in 0..count {
        put_padded(out, usize::from(GROUP), group_at(GROUP, 4 * i, bytes))?;
    }
    Ok(())
}

/// Appends a point and the digits behind it, if there are any.
fn put_point<A: Allocator>(out: &mut Vec<u8, A>, digits: u8, bytes: &[u8]) -> Result<(), AllocError>
    requires { part_width digits ≤ length bytes.now }
    ensures { OnOk result (out.new.items ≡ out.old.items ++ point_text digits bytes.now) }
{
    if digits == 0 {
        return Ok(());
    }
    let over = digits % GROUP;
    let count = usize::from(digits / GROUP);
    put_text(out, b".")?;
    put_nines(out, count, bytes)?;
    put_padded(out, usize::from(over), group_at(over, 4 * count, bytes))
}

/// Appends a decimal: `-63.48`, all its digits behind the point, and no zeros in front but one before the point.
pub fn put_decimal<A: Allocator>(
    out: &mut Vec<u8, A>,
    value: &Decimal<'_>,
) -> Result<(), AllocError>
    ensures { OnOk result (out.new.items ≡ out.old.items ++ decimal_text (decimal_value value.now)) }
{
    let plain = plain_bytes(value.bytes);
    let plain = &plain[..value.bytes.len()];
    let whole = value.precision - value.scale;
    if is_negative(value.bytes) {
        put_text(out, b"-")?;
    }
    put_whole(out, whole, plain)?;
    put_point(out, value.scale, &plain[part_bytes(whole)..])
}
