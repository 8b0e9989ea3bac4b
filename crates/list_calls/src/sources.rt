//! Logs that are read as a server's log.

use blog_source::{Reading, Source};
use std::test::Fail;

/// Reads a log to its end.
pub fn source_of(rt: &impl AllocGlobal, bytes: &[u8]) -> Result<Source, Fail> {
    source_with(rt, bytes, Reading::ALL)
}

/// Reads a log so.
pub fn source_with(rt: &impl AllocGlobal, bytes: &[u8], how: Reading) -> Result<Source, Fail> {
    let mut log = Vec::with_capacity(rt.alloc(), bytes.len())?;
    log.extend_from_slice(bytes)?;
    match Source::open(log, how) {
        Ok(source) => Ok(source),
        Err(fault) => Err(Fail::new(format_args!("{fault}"))),
    }
}
