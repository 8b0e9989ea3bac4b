//! The values of FLOAT and DOUBLE columns.

ghost use Rattle.std.specs.Prelude.{◌≡◌, ◌++◌, OnOk};
ghost use Rattle.std.specs.Float.{binary32, binary64};
ghost use Rattle.blog_value.specs.Floats.{AppendsFloat, double_of, float_of, without_point};

use crate::texts::put_text;
use byteorder::{ByteOrder, LittleEndian};
use ryu::Buffer;
use std::alloc::{AllocError, Allocator};

/// Returns the value of a FLOAT column.
#[tactic(auto, unfolding(crate::specs::Floats::float_of, crate::specs::Integers::unsigned_of))]
pub(crate) fn read_float(bytes: &[u8]) -> Option<f32>
    ensures { result ≡ float_of bytes.now }
{
    if bytes.len() != 4 {
        return None;
    }
    let x = LittleEndian::read_f32(bytes);
    if x.is_finite() { Some(x) } else { None }
}

/// Returns the value of a DOUBLE column.
#[tactic(auto, unfolding(crate::specs::Floats::double_of, crate::specs::Integers::unsigned_of))]
pub(crate) fn read_double(bytes: &[u8]) -> Option<f64>
    ensures { result ≡ double_of bytes.now }
{
    if bytes.len() != 8 {
        return None;
    }
    let x = LittleEndian::read_f64(bytes);
    if x.is_finite() { Some(x) } else { None }
}

/// Appends a text without `.0` at its end.
fn put_without_point<A: Allocator>(out: &mut Vec<u8, A>, text: &[u8]) -> Result<(), AllocError>
    ensures { OnOk result (out.new.items ≡ out.old.items ++ without_point text.now) }
{
    let end = text.len().saturating_sub(2);
    if &text[end..] == b".0".as_slice() {
        put_text(out, &text[..end])
    } else {
        put_text(out, text)
    }
}

/// Appends a number in as few digits as read back as the same FLOAT: `0.5`, `1e20`, `-3`.
pub fn put_float<A: Allocator>(out: &mut Vec<u8, A>, x: f32) -> Result<(), AllocError>
    ensures { OnOk result (AppendsFloat binary32 x out.old.items out.new.items) }
{
    let mut buffer = Buffer::new();
    put_without_point(out, buffer.format(x).as_bytes())
}

/// Appends a number in as few digits as read back as the same DOUBLE: `0.1`, `1e300`, `-3`.
pub fn put_double<A: Allocator>(out: &mut Vec<u8, A>, x: f64) -> Result<(), AllocError>
    ensures { OnOk result (AppendsFloat binary64 x out.old.items out.new.items) }
{
    let mut buffer = Buffer::new();
    put_without_point(out, buffer.format(x).as_bytes())
}
