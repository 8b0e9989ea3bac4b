//! The index of a log.

use crate::failure::Failure;
use crate::stopwatch::{Best, Stopwatch};
use blog_event::Log;
use blog_trans::{Index, Selection, index};
use std::alloc::Allocator;
use std::rt::Runtime;
use std::time::CpuClock;

/// Bytes to go over between two rounds: more than the caches of a processor hold.
const COLD: usize = 1 << 30;

/// What an index has.
#[derive(Drop, PartialEq)]
struct Indexed {
    transactions: usize,
    statements: usize,
    entries: usize,
    tables: usize,
}

/// The numbers of an index.
fn numbers_of<A: Allocator>(index: &Index<'_, '_, A>) -> Indexed {
    Indexed {
        transactions: index.transactions(),
        statements: index.all_statements(),
        entries: index.entries().len(),
        tables: index.tables(),
    }
}

/// Changes other bytes, so that the caches of the processor have nothing of the log, be it large or small. A run of
/// `flashback` has read the log just before, and finds in them what fits.
fn cool(bytes: &mut [u8]) {
    for byte in bytes.iter_mut() {
        *byte = !*byte;
    }
}

/// Measures it.
pub fn measure_index<R: Runtime + CpuClock + AllocGlobal>(
    rt: &R,
    log: &Log<'_>,
    times: u32,
) -> Result<(), Failure> {
    let seen = numbers_of(&index(rt.alloc(), log, &Selection::all())?);
    println!(rt;
        "index: {} transactions, {} statements, {} events, {} tables",
        seen.transactions, seen.statements, seen.entries, seen.tables
    )?;
    if times == 0 {
        return Ok(());
    }
    let mut cold = Vec::new(rt.alloc());
    cold.resize(COLD, 0)?;
    let mut indexing = Best::new();
    for _ in 0..times {
        cool(&mut cold);
        let watch = Stopwatch::start(rt)?;
        let again = index(rt.alloc(), log, &Selection::all())?;
        indexing.stop(rt, watch)?;
        if numbers_of(&again) != seen {
            return Err(Failure::Differs);
        }
    }
    println!(rt; "indexing: {indexing}")?;
    Ok(())
}
