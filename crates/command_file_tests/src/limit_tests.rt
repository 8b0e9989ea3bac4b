//! Limits of what a run asks for: room in memory, requests for memory, and writes. Logs are in memory once, and chunks are written
//! whole.

use binlog_command::command;
use blog_device::Watched;
use command_runs::large_logs::{long_texts, many_transactions};
use command_runs::{arguments_of, path_of, this_process};
use linked_list_allocator::LocalHeap;
use refusing::Refusing;
use std::io::Write;
use std::process::{Abort, ExitCode};
use std::test::Fail;
use std::{fs, io};

/// Takes all bytes. Counts its writes, and keeps how many bytes were there when it was flushed last.
#[derive(Drop)]
struct CountingWriter {
    taken: Vec<u8>,
    writes: usize,
    flushed: usize,
}

impl CountingWriter {
    fn new(rt: &impl AllocGlobal) -> Self {
        CountingWriter {
            taken: Vec::new(rt.alloc()),
            writes: 0,
            flushed: 0,
        }
    }

    /// Whether there are bytes, and all were there at the last flush.
    fn is_flushed(&self) -> bool {
        self.flushed != 0 && self.flushed == self.taken.len()
    }
}

impl Write for CountingWriter {
    fn write(&mut self, buf: &[u8]) -> io::Result<usize> {
        self.writes = self.writes.saturating_add(1);
        self.taken.extend_from_slice(buf)?;
        Ok(buf.len())
    }

    fn flush(&mut self) -> io::Result<()> {
        self.flushed = self.taken.len();
        Ok(())
    }
}

/// What a run may ask for.
#[derive(Clone, Copy)]
struct Limits {
    /// The bytes of its heap.
    room: usize,
    /// How often it asks for memory.
    requests: usize,
    /// The bytes of a chunk. It may write two chunks that are shorter.
    chunk: usize,
}

/// Runs the program with these arguments and this log within these limits: it is done, and all that it wrote is flushed.
fn check(rt: &HostRuntime, log: &[u8], arguments: &[&str], limits: Limits) -> Result<(), Fail> {
    let path = path_of(rt, "limited")?;
    fs::write(rt, path.as_path(), log)?;
    let mut all = arguments_of(rt, arguments)?;
    all.push(String::from_str(rt.alloc(), path.as_str())?)?;
    let heap = LocalHeap::new(rt.alloc(), limits.room)?;
    let refusing = Refusing::new(&heap, limits.requests.saturating_add(1));
    let mut output = Watched::new(CountingWriter::new(rt));
    let mut errors = Watched::new(Vec::new(rt.alloc()));
    let process = this_process(rt);
    let status = command(rt, &refusing, process, Ok(all), &mut output, &mut errors);
    fs::remove_file(rt, path.as_path())?;
    let writer = output.device();
    let chunks = writer.taken.len().checked_div(limits.chunk).unwrap_or(0);
    let is_done = status == ExitCode::SUCCESS && errors.device().is_empty();
    if !is_done || !writer.is_flushed() || writer.writes > chunks.saturating_add(2) {
        let writes = writer.writes;
        return Err(Fail::new(format_args!("{arguments:?}: done {is_done}, {writes} writes")));
    }
    Ok(())
}

/// The bytes of a chunk of a log and of SQL.
const CHUNK: usize = 1 << 18;

/// The bytes of a chunk of a list.
const LIST_CHUNK: usize = 1 << 16;

/// The log is in memory, and beside it at most a chunk, which is as long as this log.
#[test]
fn a_log_is_in_memory_once(rt: HostRuntime) -> Result<(), Fail> {
    let log = long_texts(&rt, b"t", 8, 32_000)?;
    assert!(rt; log.len() == 256_512);
    let once = Limits {
        room: 2 * 256_512,
        requests: 40,
        chunk: LIST_CHUNK,
    };
    check(&rt, &log, &["plain"], once)?;
    check(&rt, &log, &["list", "--utc"], once)?;
    check(&rt, &log, &["list", "--utc", "--json"], once)?;
    let with_chunk = Limits {
        room: 3 * 256_512,
        requests: 40,
        chunk: CHUNK,
    };
    check(&rt, &log, &["split"], with_chunk)?;
    check(&rt, &log, &["sql"], with_chunk)
}

/// While a log of this length is read, a part of it is in memory twice.
#[test]
fn a_large_log_is_written_by_chunks(rt: HostRuntime) -> Result<(), Fail> {
    let log = long_texts(&rt, b"t", 40, 32_000)?;
    assert!(rt; log.len() == 1_281_664);
    let limits = Limits {
        room: 4 * 1_281_664,
        requests: 50,
        chunk: CHUNK,
    };
    check(&rt, &log, &["plain"], limits)?;
    check(&rt, &log, &["split"], limits)?;
    check(&rt, &log, &["sql"], limits)?;
    check(&rt, &log, &["list", "--utc"], limits)?;
    check(&rt, &log, &["list", "--utc", "--json"], limits)
}

/// The transactions of a log.
const TRANSACTIONS: usize = 1800;

/// Memory isn't asked for by each transaction, but by each line of a list: 13 times.
#[test]
fn many_transactions_are_in_memory_once(rt: HostRuntime) -> Result<(), Fail> {
    let log = many_transactions(&rt, TRANSACTIONS)?;
    assert!(rt; log.len() == 250_320);
    let of_list = Limits {
        room: 3 * 250_320,
        requests: 14 * TRANSACTIONS,
        chunk: LIST_CHUNK,
    };
    check(&rt, &log, &["list", "--utc"], of_list)?;
    check(&rt, &log, &["list", "--utc", "--json"], of_list)?;
    let with_chunk = Limits {
        requests: 70,
        chunk: CHUNK,
        ..of_list
    };
    check(&rt, &log, &["split"], with_chunk)?;
    check(&rt, &log, &["sql"], with_chunk)
}
