//! The register of CRC-32, sixteen bytes at a time.

ghost use Rattle.std.specs.Prelude.{◌≡◌, ◌+◌, ◌*◌, ◌<◌, bit_xor, length};
ghost use Rattle.blog_sum.specs.Crc.{register_after, step_bits};

use crate::folding::after_long;
use crate::tables::TABLES;
use byteorder::{ByteOrder, LittleEndian};

/// Inputs of this many bytes or more are folded, which is faster.
const LONG: usize = 800;

/// The register after the bytes.
pub fn after_bytes(mut register: u32, mut bytes: &[u8]) -> u32
    ensures { result ≡ register_after register bytes.entry.now }
{
    if bytes.len() >= LONG {
        (register, bytes) = after_long(register, bytes);
    }
    'blocks: while let Some((block, rest)) = bytes.split_first_chunk::<16>() {
        register = after_block(register, block);
        bytes = rest;
    }
    after_tail(register, bytes)
}

/// The register after the bytes, byte by byte.
#[tactic(auto, unfolding(crate::specs::Crc::register_after))]
fn after_tail(mut register: u32, bytes: &[u8]) -> u32
    ensures { result ≡ register_after register bytes.now }
{
    'bytes: for byte in bytes {
        register = after_byte(register, *byte);
    }
    register
}

/// The register after a byte.
#[inline]
fn after_byte(register: u32, byte: u8) -> u32
    ensures { result ≡ step_bits 8 (bit_xor register byte) }
{
    TABLES[0][((register ^ byte as u32) & 0xff) as usize] ^ (register >> 8)
}

/// The register after sixteen bytes.
#[inline]
pub fn after_block(register: u32, block: &[u8]) -> u32
    requires { length block.now ≡ 16 }
    ensures { result ≡ register_after register block.now }
{
    // what doesn't depend on the register comes first, so that it needn't wait
    let fourth = after_word(LittleEndian::read_u32(&block[12..]), 0);
    let third = after_word(LittleEndian::read_u32(&block[8..]), 1);
    let second = after_word(LittleEndian::read_u32(&block[4..]), 2);
    let first = after_word(register ^ LittleEndian::read_u32(block), 3);
    fourth ^ third ^ second ^ first
}

/// The register after a word and `behind` words of zeros, where it was 0 at first.
#[inline]
fn after_word(word: u32, behind: usize) -> u32
    requires { behind < 4 }
    ensures { result ≡ step_bits (32 * (behind + 1)) word }
{
    TABLES[4 * behind + 3][(word & 0xff) as usize]
        ^ TABLES[4 * behind + 2][((word >> 8) & 0xff) as usize]
        ^ TABLES[4 * behind + 1][((word >> 16) & 0xff) as usize]
        ^ TABLES[4 * behind][(word >> 24) as usize]
}
