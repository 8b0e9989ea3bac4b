//! The sum against a loop over its bits, and values from outside.

use blog_sum::crc32;
use std::process::Abort;
use std::test::Fail;

/// CRC-32 bit by bit.
fn bit_by_bit(bytes: &[u8]) -> u32 {
    let mut register = u32::MAX;
    for byte in bytes {
        register ^= u32::from(*byte);
        for _ in 0..8 {
            let odd = register & 1 == 1;
            register >>= 1;
            if odd {
                register ^= 0xEDB8_8320;
            }
        }
    }
    register ^ u32::MAX
}

/// Bytes, and zlib's crc32 of them.
static KNOWN: [(&[u8], u32); 4] = [
    (b"", 0),
    (b"a", 0xE8B7_BE43),
    (b"123456789", 0xCBF4_3926),
    (b"The quick brown fox jumps over the lazy dog", 0x414F_A339),
];

#[test]
fn known_values(rt: HostRuntime) {
    for (bytes, value) in &KNOWN {
        assert!(rt; crc32(bytes) == *value, "{bytes:?}");
    }
}

/// The sum is that of the loop.
fn check_sum(rt: &impl Abort, bytes: &[u8]) {
    assert!(rt; crc32(bytes) == bit_by_bit(bytes), "{bytes:?}");
}

#[test]
fn each_length(rt: HostRuntime) -> Result<(), Fail> {
    let mut bytes = Vec::new(rt.alloc());
    for n in 0..70u8 {
        check_sum(&rt, &bytes);
        bytes.push(n ^ (n << 5 & 0xff) ^ 0x95)?;
    }
    Ok(())
}

/// Lengths around 800, from which on bytes are folded: with and without bytes after the last whole block, around a whole
/// chunk with the 304 bytes after it, and of several chunks.
static LONG: [usize; 14] = [
    799, 800, 801, 815, 816, 817, 1_327, 1_328, 1_343, 1_344, 1_345, 2_368, 2_399, 5_000,
];

#[test]
fn each_length_that_is_folded(rt: HostRuntime) -> Result<(), Fail> {
    for len in &LONG {
        let mut bytes = Vec::new(rt.alloc());
        let mut number = 1u32;
        for _ in 0..*len {
            number = number.wrapping_mul(1_664_525).wrapping_add(1_013_904_223);
            bytes.push((number >> 24) as u8)?;
        }
        check_sum(&rt, &bytes);
    }
    Ok(())
}
