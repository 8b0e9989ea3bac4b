//! Logs of other format descriptions.

use crate::bytes::{joined, part_of, repeated};
use sample_logs::builder::NEWER_FRONT;
use sample_logs::small::INSERT_ONE_ROW;
use std::process::Abort;

/// So many post-header lengths of a server of version `8.0.36`, from type 1 on; the first 35 are those of the log.
pub fn lengths_of(rt: &impl Abort, count: usize) -> &'static [u8] {
    part_of(rt, &NEWER_FRONT, 80, count.saturating_add(80))
}

/// A version text in its field of 50 bytes.
fn padded<R: AllocGlobal + Abort>(rt: &R, version: &[u8]) -> Vec<u8> {
    let zeros = repeated(rt, 0, 50_usize.saturating_sub(version.len()));
    joined(rt, &[version, &zeros])
}

/// A log of a format description with this version text, of at most 50 bytes, these post-header lengths, from type 1 on, and
/// the bytes behind them.
pub fn log_with<R: AllocGlobal + Abort>(
    rt: &R,
    version: &[u8],
    lengths: &[u8],
    behind: &[u8],
) -> Vec<u8> {
    let rest = lengths.len().saturating_add(behind.len());
    let size = rest.saturating_add(76).min(255) as u8;
    let header = [size, 0, 0, 0, 0, 0, 0, 0, 0, 0, 4, 0];
    let front = joined(rt, &[part_of(rt, &INSERT_ONE_ROW, 0, 13), &header]);
    let text = padded(rt, version);
    joined(rt, &[&front, &text, &[0, 0, 0, 0, 19], lengths, behind])
}

/// The same with no checksum algorithm and a checksum behind the lengths, as servers from 5.6.1 on write it.
pub fn log_of<R: AllocGlobal + Abort>(rt: &R, version: &[u8], lengths: &[u8]) -> Vec<u8> {
    log_with(rt, version, lengths, &[0, 0, 0, 0, 0])
}
