//! A seed for hashing, another one in each run.

use std::random::RandomSource;
use std::time::{Clock, SystemTime, UNIX_EPOCH};

/// Returns 64 random bits of the system; if it gives none, the time in nanoseconds; if there is no clock, 0. Names and ids of
/// tables are hashed by it, so that nobody who doesn't know it can choose names or ids that collide.
pub fn seed_of_run<R: RandomSource + Clock>(rt: &R) -> u64 {
    let mut bytes = [0; 8];
    match rt.fill_bytes(&mut bytes) {
        Ok(()) => u64::from_le_bytes(bytes),
        Err(_) => nanoseconds_since_1970(rt),
    }
}

/// The time in nanoseconds since 1970 in UTC, in 64 bits; 0 if the clock can't be read or is set before that.
fn nanoseconds_since_1970<R: Clock>(rt: &R) -> u64 {
    let Ok(now) = SystemTime::now(rt) else {
        return 0;
    };
    match now.duration_since(UNIX_EPOCH) {
        Ok(since) => since
            .as_secs()
            .wrapping_mul(1_000_000_000)
            .wrapping_add(since.subsec_nanos() as u64),
        Err(_) => 0,
    }
}
