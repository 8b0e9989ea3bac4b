//! The register over long inputs: most bytes are folded into later ones, which takes no tables ("Chorba: A novel CRC32
//! implementation", arXiv 2412.16398).
//!
//! x^300 + x^155 + x^117 + x^89 + 1 is a multiple of the polynomial, and so is the same with each exponent eight times as
//! large, which counts bytes. So a byte may be taken out of an input if it is added, by xor, to the bytes 145, 183, 211
//! and 300 places after it: the register at the end is the same. A byte with all that was added to it is a folded byte.
//! The scratch holds such bytes: the last 304 before a chunk, since none is added further on, and then those of the chunk.

ghost use Rattle.std.specs.Prelude.{◌≡◌, ℕ, ◌+◌, ◌%◌, ◌≤◌, ◌<◌, ◌++◌, length, take, drop, slice_index};
ghost use Rattle.std.specs.Simd.Lanes.{put_chunk};
ghost use Rattle.blog_sum.specs.Crc.{register_after};
ghost use Rattle.blog_sum.specs.code.Folding.{AreFolded, StandsFor, folded_at};

use crate::register::after_block;
use byteorder::{ByteOrder, LittleEndian};
use std::simd::prelude::*;

/// How many folded bytes before a place are kept: the farthest that is added, 300, rounded up to whole blocks of sixteen.
const REACH: usize = 304;

/// How many blocks are folded before the last folded bytes are moved to the front of the scratch.
const BLOCKS: usize = 64;

/// Returns the register after all but the last few bytes, which are fewer than sixteen, and those bytes.
pub fn after_long(register: u32, mut bytes: &[u8]) -> (u32, &[u8])
    requires { 304 ≤ length bytes.now }
    ensures few { length result.1.now < 16 }
    ensures same { register_after result.0 result.1.now ≡ register_after register bytes.entry.now }
{
    let mut scratch = [0; REACH + 16 * BLOCKS];
    // 300 places before the first four bytes, so that the register is added to them
    LittleEndian::write_u32(&mut scratch[4..], register);
    'chunks: while bytes.len() >= REACH + 16 {
        let (chunk, rest) = bytes.split_at(16 * BLOCKS.min((bytes.len() - REACH) / 16));
        fold(chunk, &mut scratch);
        keep_last(&mut scratch, chunk.len());
        bytes = rest;
    }
    (after_rest(bytes, &mut scratch), &bytes[REACH..])
}

/// Folds the bytes of a chunk, and writes them after the 304 folded bytes before it.
fn fold(bytes: &[u8], scratch: &mut [u8])
    requires whole { length bytes.now % 16 ≡ 0 }
    requires fits { 304 + length bytes.now ≤ length scratch.old }
    ensures len { length scratch.new ≡ length scratch.old }
    ensures before { take 304 scratch.new ≡ take 304 scratch.old }
    ensures folded { AreFolded (length bytes.now) bytes.now scratch.new }
    ensures behind { drop (304 + length bytes.now) scratch.new ≡ drop (304 + length bytes.now) scratch.old }
    ensures are_bytes { (k : ℕ) → slice_index scratch.new k < 256 }
{
    'parts: for block in 0..bytes.len() / 16 {
        put(
            folded(bytes, scratch, 16 * block),
            scratch,
            REACH + 16 * block,
        );
    }
}

/// Moves the last folded bytes to the front of the scratch.
fn keep_last(scratch: &mut [u8], folded: usize)
    requires fits { folded + 304 ≤ length scratch.old }
    ensures { scratch.new ≡ take 304 (drop folded scratch.old) ++ drop 304 scratch.old }
{
    'parts: for block in 0..REACH / 16 {
        put(
            u8x16::from_slice(&scratch[folded + 16 * block..]),
            scratch,
            16 * block,
        );
    }
}

/// Returns the register after the first 304 bytes, with all that is added to them from the folded bytes before.
fn after_rest(bytes: &[u8], scratch: &mut [u8]) -> u32
    requires rest { 304 ≤ length bytes.now }
    requires fits { 608 ≤ length scratch.old }
    ensures { (register : ℕ) → StandsFor scratch.old register → result ≡ register_after register (take 304 bytes.now) }
{
    scratch[REACH..2 * REACH].copy_from_slice(&[0; REACH]);
    let mut register = 0;
    'parts: for block in 0..REACH / 16 {
        register = after_block(register, &folded(bytes, scratch, 16 * block).to_array());
    }
    register
}

/// Returns the sixteen bytes at a place, with what is added to them from the folded bytes before.
#[inline(always)]
fn folded(bytes: &[u8], scratch: &[u8], at: usize) -> u8x16
    requires in_bytes { at + 16 ≤ length bytes.now }
    requires in_scratch { at + 304 ≤ length scratch.now }
    ensures { result ≡ folded_at at bytes.now scratch.now }
{
    // 304 less 145, 183, 211 and 300
    let nearest = u8x16::from_slice(&scratch[at + 159..]) ^ u8x16::from_slice(&scratch[at + 121..]);
    let farthest = u8x16::from_slice(&scratch[at + 93..]) ^ u8x16::from_slice(&scratch[at + 4..]);
    u8x16::from_slice(&bytes[at..]) ^ (nearest ^ farthest)
}

/// Puts sixteen bytes into the scratch.
#[inline(always)]
fn put(part: u8x16, scratch: &mut [u8], at: usize)
    requires { at + 16 ≤ length scratch.old }
    ensures { scratch.new ≡ put_chunk at scratch.old part }
{
    part.copy_to_slice(&mut scratch[at..]);
}
