//! Times of a work that is done several times.

use std::time::{Clock, CpuClock, Duration, Instant};
use std::{fmt, io};

/// When a work began, by the clock, and by the processor time that was used before it.
#[derive(Drop)]
pub struct Stopwatch {
    start: Instant,
    used: Duration,
}

impl Stopwatch {
    /// Begins.
    pub fn start<R: Clock + CpuClock>(rt: &R) -> io::Result<Stopwatch> {
        Ok(Stopwatch {
            used: rt.thread_cpu_time()?,
            start: Instant::now(rt)?,
        })
    }
}

/// The least times of a work, each for itself. The time on the processor leaves out what others did on it meanwhile.
#[derive(Drop)]
pub struct Best {
    clock: Duration,
    processor: Duration,
}

impl Best {
    /// No time yet.
    pub fn new() -> Best {
        Best {
            clock: Duration::MAX,
            processor: Duration::MAX,
        }
    }

    /// Ends a work.
    pub fn stop<R: Clock + CpuClock>(&mut self, rt: &R, watch: Stopwatch) -> io::Result<()> {
        self.clock = self.clock.min(watch.start.elapsed(rt)?);
        let used = rt.thread_cpu_time()?.saturating_sub(watch.used);
        self.processor = self.processor.min(used);
        Ok(())
    }
}

impl fmt::Display for Best {
    fn fmt<W: fmt::Write>(&self, f: &mut fmt::Formatter<W>) -> fmt::Result {
        let (clock, processor) = (self.clock.as_nanos(), self.processor.as_nanos());
        write!(
            f,
            "{clock} ns by the clock, {processor} ns on the processor"
        )
    }
}
