//! Copies of a small log.

use sample_logs::small::INSERT_ONE_ROW;
use std::alloc::{AllocError, Global};

/// That log with another byte at `at`.
pub fn with_byte(alloc: Global, at: usize, byte: u8) -> Result<Vec<u8>, AllocError> {
    let mut log = INSERT_ONE_ROW.as_slice().to_vec(alloc)?;
    if let Some(place) = log.get_mut(at) {
        *place = byte;
    }
    Ok(log)
}
