//! Documents of the large form, deep ones, and short ones of much text.

use crate::printing::{check_none, check_text};
use std::process::Abort;
use std::test::Fail;

/// How many bytes the long string has.
const LONG: usize = 66_000;

/// What a server wrote in front of that string and behind it, and what it printed there.
#[derive(Clone, Copy, Debug)]
struct Large {
    front: &'static [u8],
    back: &'static [u8],
    text_front: &'static [u8],
    text_back: &'static [u8],
}

/// Documents of more than 65,535 bytes, as MySQL 9.7 writes and prints them.
#[rattlefmt::skip]
const LARGE: [Large; 4] = [
    Large { front: b"\x03\x01\x00\x00\x00\xe0\x01\x01\x00\x0c\x0d\x00\x00\x00\xd0\x83\x04", back: b"", text_front: b"[\"", text_back: b"\"]" },
    Large { front: b"\x01\x08\x00\x00\x00K\x02\x01\x00`\x00\x00\x00\x01\x00a\x00\x00\x00\x01\x00b\x00\x00\x00\x01\x00c\x00\x00\x00\x01\x00d\x00\x00\x00\x01\x00e\x00\x00\x00\x01\x00f\x00\x00\x00\x01\x00g\x00\x00\x00\x01\x00\x07p\x11\x01\x00\x07\x90\xee\xfe\xff\x09h\x00\x00\x00\x05\xf9\xff\xff\xff\x09p\x00\x00\x00\x04\x01\x00\x00\x00\x06\x09\x00\x00\x00\x0cx\x00\x00\x00abciktux\x00(k\xee\x00\x00\x00\x00\x00\xf2\x05*\x01\x00\x00\x00\xd0\x83\x04", back: b"", text_front: b"{\"a\": 70000, \"b\": -70000, \"c\": 4000000000, \"i\": -7, \"k\": 5000000000, \"t\": true, \"u\": 9, \"x\": \"", text_back: b"\"}" },
    Large { front: b"\x01\x03\x00\x00\x00\x15\x02\x01\x00)\x00\x00\x00\x01\x00*\x00\x00\x00\x01\x00+\x00\x00\x00\x01\x00\x02,\x00\x00\x00\x006\x00\x00\x00\x0cB\x00\x00\x00aox\x02\x00\x0a\x00\x05\x01\x00\x05\x02\x00\x01\x00\x0c\x00\x0b\x00\x01\x00\x04\x00\x00n\xd0\x83\x04", back: b"", text_front: b"{\"a\": [1, 2], \"o\": {\"n\": null}, \"x\": \"", text_back: b"\"}" },
    Large { front: b"\x03\x0f\x00\x00\x00H\x02\x01\x00\x0cS\x00\x00\x00\x04\x01\x00\x00\x00\x04\x02\x00\x00\x00\x04\x00\x00\x00\x00\x05\xff\xff\xff\xff\x07@\x9c\x00\x00\x06@\x9c\x00\x00\x07p\x11\x01\x00\x07\x90\xee\xfe\xff\x08\x00(k\xee\x09&\x02\x01\x00\x0b.\x02\x01\x00\x026\x02\x01\x00\x00:\x02\x01\x00\x0f>\x02\x01\x00\xd0\x83\x04", back: b"\x00(k\xee\x00\x00\x00\x00\x00\x00\x00\x00\x00\x00\xf8?\x00\x00\x04\x00\x00\x00\x04\x00\x0a\x08\x00\x00\x00\x00\x00l\xbb\x19", text_front: b"[\"", text_back: b"\", true, false, null, -1, 40000, 40000, 70000, -70000, 4000000000, 4000000000, 1.5, [], {}, \"2026-11-22\"]" },
];

/// Returns bytes with the long string between them.
fn with_string<R: AllocGlobal>(rt: &R, front: &[u8], back: &[u8]) -> Result<Vec<u8>, Fail> {
    let mut bytes = Vec::from_slice(rt.alloc(), front)?;
    for _x in 0..LONG {
        bytes.push(b'x')?;
    }
    bytes.extend_from_slice(back)?;
    Ok(bytes)
}

#[test]
fn large_documents(rt: HostRuntime) -> Result<(), Fail> {
    for large in &LARGE {
        let document = with_string(&rt, large.front, large.back)?;
        let text = with_string(&rt, large.text_front, large.text_back)?;
        check_text(&rt, &document, &text)?;
        check_none(&rt, &document[..document.len().saturating_sub(1)])?;
    }
    Ok(())
}

/// Returns the two bytes of a number.
fn two_bytes(number: usize) -> [u8; 2] {
    [(number % 256) as u8, (number / 256 % 256) as u8]
}

/// Returns arrays in one another: each but the last has the next one alone.
fn nested<R: AllocGlobal>(rt: &R, depth: usize) -> Result<Vec<u8>, Fail> {
    let mut bytes = Vec::from_slice(rt.alloc(), b"\x02")?;
    for level in 1..depth {
        let inner = depth.wrapping_sub(level);
        bytes.extend_from_slice(b"\x01\x00")?;
        bytes.extend_from_slice(&two_bytes(inner.wrapping_mul(7).wrapping_add(4)))?;
        bytes.extend_from_slice(b"\x02\x07\x00")?;
    }
    bytes.extend_from_slice(b"\x00\x00\x04\x00")?;
    Ok(bytes)
}

#[test]
fn as_deep_as_a_server_takes(rt: HostRuntime) -> Result<(), Fail> {
    let mut text = Vec::new(rt.alloc());
    for _level in 0..100 {
        text.push(b'[')?;
    }
    for _level in 0..100 {
        text.push(b']')?;
    }
    check_text(&rt, &nested(&rt, 100)?, &text)?;
    check_none(&rt, &nested(&rt, 101)?)
}

/// How many entries share each value.
const SHARED: usize = 500;

/// Returns arrays in one another: each but the last has the next one 500 times.
fn shared<R: AllocGlobal>(rt: &R, depth: usize) -> Result<Vec<u8>, Fail> {
    let entries = SHARED.wrapping_mul(3).wrapping_add(4);
    let mut bytes = Vec::from_slice(rt.alloc(), b"\x02")?;
    for level in 1..depth {
        let inner = depth.wrapping_sub(level);
        bytes.extend_from_slice(&two_bytes(SHARED))?;
        bytes.extend_from_slice(&two_bytes(inner.wrapping_mul(entries).wrapping_add(4)))?;
        for _entry in 0..SHARED {
            bytes.extend_from_slice(b"\x02")?;
            bytes.extend_from_slice(&two_bytes(entries))?;
        }
    }
    bytes.extend_from_slice(b"\x00\x00\x04\x00")?;
    Ok(bytes)
}

#[test]
fn shared_values_of_little_text_are_printed(rt: HostRuntime) -> Result<(), Fail> {
    let mut text = Vec::from_slice(rt.alloc(), b"[[]")?;
    for _entry in 1..SHARED {
        text.extend_from_slice(b", []")?;
    }
    text.push(b']')?;
    check_text(&rt, &shared(&rt, 2)?, &text)
}

#[test]
fn shared_values_of_much_text_are_none(rt: HostRuntime) -> Result<(), Fail> {
    check_none(&rt, &shared(&rt, 3)?)?;
    check_none(&rt, &shared(&rt, 20)?)
}
