//! Memory that runs out: each request is refused in turn.

use blog_value::{ColumnType, put_value, read_value};
use linked_list_allocator::LocalHeap;
use refusing::Refusing;
use std::process::Abort;
use std::test::Fail;

/// A heap with room for the texts, in bytes.
const ROOM: usize = 1 << 16;

/// At most this many requests are refused, in turn.
const MOST_REQUESTS: usize = 20;

/// The type, its metadata, a value and its text.
const TEXTS: [(u8, &[u8], &[u8], &str); 9] = [
    (8, &[], b"\xFF\xFF\xFF\xFF\xFF\xFF\xFF\xFF", "-1"),
    (246, &[10, 2], b"\x7F\xFF\xFF\xC0\xCF", "-63.48"),
    (4, &[4], b"\x00\x00\x40\xC0", "-3"),
    (5, &[8], b"\x00\x00\x00\x00\x00\x00\xF8\xBF", "-1.5"),
    (13, &[], b"\x01", "1901"),
    (10, &[], b"\x76\xD5\x0F", "2026-11-22"),
    (19, &[1], b"\x7F\xFF\xFF\xCE", "-00:00:00.5"),
    (18, &[0], b"\x99\xBB\x6C\x91\x47", "2026-11-22 09:05:07"),
    (16, &[2, 1], b"\x02\x05", "b'1000000101'"),
];

/// Checks that a text is whole, or that the refusal is reported. Returns how many requests were refused.
fn check_text(
    rt: &(impl AllocGlobal + Abort),
    column: &ColumnType<'_>,
    bytes: &[u8],
    text: &str,
) -> Result<usize, Fail> {
    let heap = LocalHeap::new(rt.alloc(), ROOM)?;
    for number in 0..MOST_REQUESTS {
        let alloc = Refusing::new(&heap, number.wrapping_add(1));
        let mut out = Vec::new(&alloc);
        match put_value(&mut out, &read_value(column, false, bytes)) {
            Ok(appended) => {
                assert!(rt; appended && !alloc.has_refused(), "{text}");
                assert_eq!(rt; out.as_slice(), text.as_bytes(), "{text}");
                return Ok(number);
            }
            Err(_) => {
                assert!(rt; alloc.has_refused(), "{text}");
            }
        }
    }
    Err("more requests than are tried".into())
}

#[test]
fn a_refused_request_is_reported(rt: HostRuntime) -> Result<(), Fail> {
    for (kind, metadata, bytes, text) in TEXTS {
        let refused = check_text(&rt, &ColumnType { kind, metadata }, bytes, text)?;
        assert!(rt; refused > 0, "{text}");
    }
    Ok(())
}
