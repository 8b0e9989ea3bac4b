//! A digest of bytes that are written.

use std::alloc::{AllocError, Global};
use std::io;
use std::io::Write;

/// How many bytes are taken into the digest at once.
const BLOCK_LEN: usize = 1 << 16;

/// A writer that keeps a digest of what it was given. How the bytes are divided into writes makes no difference.
#[derive(Drop)]
pub struct Digest {
    /// Bytes that aren't in the digest yet, less than a block.
    held: Vec<u8>,
    len: u64,
    sum: u64,
    sums: u64,
}

impl Digest {
    /// A digest of nothing.
    pub fn new(alloc: Global) -> Result<Digest, AllocError> {
        Ok(Digest {
            held: Vec::with_capacity(alloc, BLOCK_LEN)?,
            len: 0,
            sum: 0,
            sums: 0,
        })
    }

    /// How many bytes were written.
    pub fn len(&self) -> u64 {
        self.len
    }

    /// The digest of all of them.
    pub fn value(&self) -> u64 {
        let last = self.held.as_slice().iter().fold(0, |sum: u64, byte| {
            sum.wrapping_mul(257).wrapping_add(*byte as u64)
        });
        mix(self.sum ^ mix(self.sums ^ mix(last)))
    }

    /// Takes a block into the digest.
    fn add_block(&mut self) {
        let (mut sum, mut sums) = (self.sum, self.sums);
        let (words, _) = self.held.as_slice().as_chunks::<8>();
        for word in words {
            sum = sum.wrapping_add(u64::from_le_bytes(*word));
            sums = sums.wrapping_add(sum);
        }
        self.sum = mix(sum);
        self.sums = mix(sums);
        self.held.clear();
    }
}

/// Each bit of a number into many bits.
fn mix(number: u64) -> u64 {
    let mixed = (number ^ (number >> 32)).wrapping_mul(0xD6E8_FEB8_6659_FD93);
    mixed ^ (mixed >> 32)
}

impl Write for Digest {
    fn write(&mut self, buf: &[u8]) -> io::Result<usize> {
        let room = BLOCK_LEN.saturating_sub(self.held.len());
        let taken = buf.len().min(room);
        self.held.extend_from_slice(&buf[..taken])?;
        self.len = self.len.wrapping_add(taken as u64);
        if self.held.len() >= BLOCK_LEN {
            self.add_block();
        }
        Ok(taken)
    }

    fn flush(&mut self) -> io::Result<()> {
        Ok(())
    }
}
