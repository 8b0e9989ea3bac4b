//! Texts that grow at their end.

ghost use Rattle.std.specs.Prelude.{◌≤◌};

use itoa::Buffer;
use std::alloc::{AllocError, Allocator};

/// Appends a text.
pub(crate) fn put_text<A: Allocator>(out: &mut Vec<u8, A>, text: &[u8]) -> Result<(), AllocError> {
    out.extend_from_slice(text)
}

/// Appends a number in decimal digits.
pub(crate) fn put_number<A: Allocator>(out: &mut Vec<u8, A>, n: u64) -> Result<(), AllocError> {
    let mut buffer = Buffer::new();
    put_text(out, buffer.format(n).as_bytes())
}

/// Appends a byte in two hexadecimal digits.
pub(crate) fn put_byte<A: Allocator>(out: &mut Vec<u8, A>, byte: u8) -> Result<(), AllocError> {
    let mut digits = [0; 2];
    hex::encode_to_slice([byte].as_slice(), &mut digits).unwrap();
    put_text(out, &digits)
}

/// Appends bytes in hexadecimal digits.
pub(crate) fn put_hex<A: Allocator>(out: &mut Vec<u8, A>, bytes: &[u8]) -> Result<(), AllocError> {
    for byte in bytes {
        put_byte(out, *byte)?;
    }
    Ok(())
}

/// Appends a server's id of 16 bytes, as MySQL prints it.
pub(crate) fn put_server<A: Allocator>(
    out: &mut Vec<u8, A>,
    server: &[u8],
) -> Result<(), AllocError> {
    put_hyphened(out, server, 0, 4)?;
    put_hyphened(out, server, 4, 6)?;
    put_hyphened(out, server, 6, 8)?;
    put_hyphened(out, server, 8, 10)?;
    put_digits(out, server, 10, 16)
}

/// Appends the hexadecimal digits of bytes from a number on, up to another.
fn put_digits<A: Allocator>(
    out: &mut Vec<u8, A>,
    bytes: &[u8],
    from: usize,
    to: usize,
) -> Result<(), AllocError>
    requires { from ≤ to }
{
    let behind = bytes.get(from..).unwrap_or(&[]);
    put_hex(out, behind.get(..to - from).unwrap_or(behind))
}

/// Appends the same and a hyphen.
fn put_hyphened<A: Allocator>(
    out: &mut Vec<u8, A>,
    bytes: &[u8],
    from: usize,
    to: usize,
) -> Result<(), AllocError>
    requires { from ≤ to }
{
    put_digits(out, bytes, from, to)?;
    put_text(out, b"-")
}
