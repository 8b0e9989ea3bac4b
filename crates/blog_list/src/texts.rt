//! Numbers and ids of servers, as lists have them.

ghost use Rattle.std.specs.Prelude.{◌≡◌, ◌≤◌, ◌+◌, ◌-◌, ◌++◌, OnOk, codes, drop, take};
ghost use Rattle.blog_list.specs.Lines.{digits, hyphened, padded, server_text};

use blog_text::{put_hex, put_text};
use itoa::Buffer;
use std::alloc::{AllocError, Allocator};

/// Appends a number in decimal digits, behind blanks up to ten columns.
#[tactic(auto, unfolding(crate::specs::Lines::padded))]
pub(crate) fn put_padded<A: Allocator>(out: &mut Vec<u8, A>, n: u32) -> Result<(), AllocError>
    ensures { OnOk result (out.new.items ≡ out.old.items ++ padded n) }
{
    let mut buffer = Buffer::new();
    let digits = buffer.format(n).as_bytes();
    let blanks = b"          ";
    put_text(out, &blanks[..10_usize.saturating_sub(digits.len())])?;
    put_text(out, digits)
}

/// Appends a server's id of 16 bytes, as MySQL prints it.
#[tactic(auto, unfolding(crate::specs::Lines::server_text))]
pub(crate) fn put_server<A: Allocator>(
    out: &mut Vec<u8, A>,
    server: &[u8],
) -> Result<(), AllocError>
    ensures { OnOk result (out.new.items ≡ out.old.items ++ server_text server.now) }
{
    put_hyphened(out, server, 0, 4)?;
    put_hyphened(out, server, 4, 6)?;
    put_hyphened(out, server, 6, 8)?;
    put_hyphened(out, server, 8, 10)?;
    put_digits(out, server, 10, 16)
}

/// Appends the hexadecimal digits of at most 16 bytes from a number on, up to another.
#[tactic(auto, unfolding(crate::specs::Lines::digits))]
fn put_digits<A: Allocator>(
    out: &mut Vec<u8, A>,
    bytes: &[u8],
    from: usize,
    to: usize,
) -> Result<(), AllocError>
    requires within { from ≤ to }
    requires few { to ≤ from + 16 }
    ensures { OnOk result (out.new.items ≡ out.old.items ++ digits from to bytes.now) }
{
    let behind = bytes.get(from..).unwrap_or(&[]);
    put_hex(out, behind.get(..to - from).unwrap_or(behind))
}

/// Appends the same and a hyphen.
#[tactic(auto, unfolding(crate::specs::Lines::hyphened))]
fn put_hyphened<A: Allocator>(
    out: &mut Vec<u8, A>,
    bytes: &[u8],
    from: usize,
    to: usize,
) -> Result<(), AllocError>
    requires within { from ≤ to }
    requires few { to ≤ from + 16 }
    ensures { OnOk result (out.new.items ≡ out.old.items ++ hyphened from to bytes.now) }
{
    put_digits(out, bytes, from, to)?;
    put_text(out, b"-")
}
