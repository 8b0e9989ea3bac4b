//! Taking the CRC-32 of a log.

use crate::failure::Failure;
use crate::stopwatch::{Best, Stopwatch};
use blog_sum::crc32;
use std::rt::Runtime;
use std::time::CpuClock;

/// Measures it.
pub fn measure_sums<R: Runtime + CpuClock + AllocGlobal>(
    rt: &R,
    bytes: &[u8],
    times: u32,
) -> Result<(), Failure> {
    let sum = crc32(bytes);
    println!(rt; "sum: {sum} of {} bytes", bytes.len())?;
    let mut summing = Best::new();
    for _ in 0..times {
        let watch = Stopwatch::start(rt)?;
        let again = crc32(bytes);
        summing.stop(rt, watch)?;
        if again != sum {
            return Err(Failure::Differs);
        }
    }
    if times > 0 {
        println!(rt; "summing: {summing}")?;
    }
    Ok(())
}
