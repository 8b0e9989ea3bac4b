//! Runs over devices that move 1, 7 or all bytes a call, and that fail at each of their calls.

use blog_flash::{Fault, Mode, RunFault, Selection, Watched, prepare, run, run_by_chunks};
use sample_logs::{logs, undone};
use std::process::Abort;
use std::test::Fail;
use testkit::devices::{ALL, Failure, KINDS, SlowReader, SlowWriter};

// How many bytes a reader gives a call, and its calls for the log of 499 bytes: the last finds the end.
const READERS: [(usize, u64); 3] = [(1, 500), (7, 73), (ALL, 2)];

// How many bytes a writer takes a call, and its writes of the output of 411 bytes. A flush follows them.
const WRITERS: [(usize, u64); 3] = [(1, 411), (7, 59), (ALL, 1)];

// The same where each write has one chunk, which has room for 120 bytes: the front of the log, and then as many events of 39,
// 37, 36, 27, 39, 37, 36 and 40 bytes as fit.
const WRITERS_OF_CHUNKS: [(usize, u64); 3] = [(1, 411), (7, 60), (ALL, 4)];

// How many bytes were written before each chunk.
const CHUNKS: [(u64, usize); 4] = [(1, 0), (2, 120), (3, 232), (4, 335)];

// A device: how many bytes it moves a call, and when it fails.
type Habit = (usize, Failure);

const STEADY: Habit = (ALL, Failure::Never);

// What comes of a run: its answer, how often each device was called, and how many bytes of the output were taken.
#[derive(Clone, Copy)]
struct Outcome {
    answer: Result<(), RunFault>,
    reads: u64,
    writes: u64,
    taken: usize,
}

// A log, the log that undoes it, and by how many bytes at once it is written, where that is told.
#[derive(Drop)]
struct Logs {
    log: Vec<u8>,
    undone: Vec<u8>,
    chunk_len: Option<usize>,
}

fn two_transactions(rt: &impl AllocGlobal) -> Result<Logs, Fail> {
    Ok(Logs {
        log: logs::two_transactions(rt)?,
        undone: undone::two_transactions_undone(rt)?,
        chunk_len: None,
    })
}

// The same, written by chunks that are as small as may be.
fn two_transactions_by_chunks(rt: &impl AllocGlobal) -> Result<Logs, Fail> {
    let mut logs = two_transactions(rt)?;
    logs.chunk_len = Some(1);
    Ok(logs)
}

// Runs the reader into the writer. Each mark then tells whether a call of its device failed, and no
// call came after that one.
fn run_marked<R: AllocGlobal + Abort>(
    rt: &R,
    reader: &mut Watched<SlowReader<'_>>,
    writer: &mut Watched<SlowWriter>,
    chunk_len: Option<usize>,
) -> Result<(), RunFault> {
    let sel = Selection::all();
    let mode = Mode::Flashback;
    let answer = match chunk_len {
        Some(len) => run_by_chunks(rt.alloc(), reader, mode, &sel, 0, writer, len),
        None => run(rt.alloc(), reader, mode, &sel, writer),
    };
    check_mark(rt, reader.failed(), reader.device().failed_calls);
    check_mark(rt, writer.failed(), writer.device().failed_calls);
    assert!(rt; reader.failed() == (answer == Err(RunFault::Read)));
    assert!(rt; writer.failed() == (answer == Err(RunFault::Write)));
    answer
}

fn check_mark(rt: &impl Abort, failed: bool, failed_calls: u64) {
    assert!(rt; failed == (failed_calls != 0));
    assert!(rt; failed_calls < 2, "a failed call was tried again");
}

// A run of the log over these devices has this outcome.
fn check_run<R: AllocGlobal + Abort>(
    rt: &R,
    logs: &Logs,
    reader: Habit,
    writer: Habit,
    wanted: &Outcome,
) {
    let (step, failure) = reader;
    let mut reader = Watched::new(SlowReader::new(&logs.log, step, failure));
    let (step, failure) = writer;
    let mut writer = Watched::new(SlowWriter::new(rt, step, failure));
    let answer = run_marked(rt, &mut reader, &mut writer, logs.chunk_len);
    assert!(rt; answer == wanted.answer);
    assert!(rt; reader.device().calls == wanted.reads);
    assert!(rt; writer.device().calls == wanted.writes);
    let taken = logs.undone.get(..wanted.taken);
    assert!(rt; Some(writer.device().taken.as_slice()) == taken);
}

// The same of the half that reads: it gives the output, or Read.
fn check_prepare<R: AllocGlobal + Abort>(rt: &R, logs: &Logs, reader: Habit, wanted: &Outcome) {
    let (step, failure) = reader;
    let mut reader = Watched::new(SlowReader::new(&logs.log, step, failure));
    let prepared = prepare(rt.alloc(), &mut reader, Mode::Flashback, &Selection::all());
    let answer = match prepared {
        Ok(text) => {
            assert!(rt; text.as_slice() == logs.undone.as_slice());
            Ok(())
        }
        Err(fault) => Err(fault),
    };
    assert!(rt; answer == wanted.answer);
    assert!(rt; reader.device().calls == wanted.reads);
    check_mark(rt, reader.failed(), reader.device().failed_calls);
}

// What comes of a writer that fails, after so many calls and so many bytes.
fn unwritten(writes: u64, taken: usize) -> Outcome {
    Outcome {
        answer: Err(RunFault::Write),
        reads: 2,
        writes,
        taken,
    }
}

// A run of the log from a steady reader into this device has this outcome.
fn check_writer<R: AllocGlobal + Abort>(rt: &R, logs: &Logs, writer: Habit, wanted: &Outcome) {
    check_run(rt, logs, STEADY, writer, wanted);
}

#[test]
fn the_logs_have_their_lengths(rt: HostRuntime) -> Result<(), Fail> {
    let logs = two_transactions(&rt)?;
    assert!(rt; (logs.log.len(), logs.undone.len()) == (499, 411));
    Ok(())
}

// Runs into writers of each number of bytes a call, from a reader that is called so often.
fn check_writers<R: AllocGlobal + Abort>(rt: &R, logs: &Logs, step: usize, reads: u64) {
    let reader = (step, Failure::Never);
    for (step, writes) in WRITERS {
        let writer = (step, Failure::Never);
        let wanted = Outcome {
            answer: Ok(()),
            reads,
            writes: writes.saturating_add(1),
            taken: 411,
        };
        check_run(rt, logs, reader, writer, &wanted);
        check_prepare(rt, logs, reader, &wanted);
    }
}

#[test]
fn writes_the_output_from_short_reads_by_short_writes(rt: HostRuntime) -> Result<(), Fail> {
    let logs = two_transactions(&rt)?;
    for (step, reads) in READERS {
        check_writers(&rt, &logs, step, reads);
    }
    Ok(())
}

#[test]
fn writes_the_output_by_chunks(rt: HostRuntime) -> Result<(), Fail> {
    let logs = two_transactions_by_chunks(&rt)?;
    for (step, writes) in WRITERS_OF_CHUNKS {
        let wanted = Outcome {
            answer: Ok(()),
            reads: 2,
            writes: writes.saturating_add(1),
            taken: 411,
        };
        check_writer(&rt, &logs, (step, Failure::Never), &wanted);
    }
    Ok(())
}

// Fails a call of the reader by each kind of error.
fn check_failed_read<R: AllocGlobal + Abort>(rt: &R, logs: &Logs, step: usize, number: u64) {
    let wanted = Outcome {
        answer: Err(RunFault::Read),
        reads: number,
        writes: 0,
        taken: 0,
    };
    for kind in KINDS {
        let reader = (step, Failure::At(number, kind));
        check_run(rt, logs, reader, STEADY, &wanted);
        check_prepare(rt, logs, reader, &wanted);
    }
}

// Fails each call of the reader in turn.
fn check_failed_reads<R: AllocGlobal + Abort>(rt: &R, logs: &Logs, step: usize, reads: u64) {
    for number in 1..=reads {
        check_failed_read(rt, logs, step, number);
    }
}

#[test]
fn a_failed_read_leaves_the_writer_alone(rt: HostRuntime) -> Result<(), Fail> {
    let logs = two_transactions(&rt)?;
    for (step, reads) in READERS {
        check_failed_reads(&rt, &logs, step, reads);
    }
    Ok(())
}

#[test]
fn a_failure_behind_the_last_read_is_not_met(rt: HostRuntime) -> Result<(), Fail> {
    let logs = two_transactions(&rt)?;
    for (step, reads) in READERS {
        let reader = (step, Failure::At(reads.saturating_add(1), KINDS[0]));
        let wanted = Outcome {
            answer: Ok(()),
            reads,
            writes: 2,
            taken: 411,
        };
        check_run(&rt, &logs, reader, STEADY, &wanted);
        check_prepare(&rt, &logs, reader, &wanted);
    }
    Ok(())
}

// Fails a write by each kind of error, and then by taking nothing.
fn check_failed_write<R: AllocGlobal + Abort>(
    rt: &R,
    logs: &Logs,
    step: usize,
    number: u64,
    taken: usize,
) {
    let wanted = unwritten(number, taken);
    for kind in KINDS {
        check_writer(rt, logs, (step, Failure::At(number, kind)), &wanted);
    }
    check_writer(rt, logs, (step, Failure::TakesNothingAt(number)), &wanted);
}

// Fails each write in turn.
fn check_failed_writes<R: AllocGlobal + Abort>(rt: &R, logs: &Logs, step: usize, writes: u64) {
    let mut taken = 0usize;
    for number in 1..=writes {
        check_failed_write(rt, logs, step, number, taken);
        taken = taken.saturating_add(step);
    }
}

#[test]
fn a_failed_write_ends_the_run(rt: HostRuntime) -> Result<(), Fail> {
    let logs = two_transactions(&rt)?;
    for (step, writes) in WRITERS {
        check_failed_writes(&rt, &logs, step, writes);
    }
    Ok(())
}

#[test]
fn a_failed_write_of_a_chunk_ends_the_run(rt: HostRuntime) -> Result<(), Fail> {
    let logs = two_transactions_by_chunks(&rt)?;
    check_failed_writes(&rt, &logs, 1, 411);
    for (number, taken) in CHUNKS {
        check_failed_write(&rt, &logs, ALL, number, taken);
    }
    for (step, writes) in WRITERS_OF_CHUNKS {
        check_failed_flush(&rt, &logs, step, writes);
    }
    Ok(())
}

#[test]
fn a_write_that_takes_nothing_ends_the_run(rt: HostRuntime) -> Result<(), Fail> {
    let logs = two_transactions(&rt)?;
    for (step, taken) in [(1, 2), (7, 14)] {
        let writer = (step, Failure::TakesNothingAt(3));
        check_writer(&rt, &logs, writer, &unwritten(3, taken));
    }
    Ok(())
}

// Fails the flush by each kind of error.
fn check_failed_flush<R: AllocGlobal + Abort>(rt: &R, logs: &Logs, step: usize, writes: u64) {
    let wanted = unwritten(writes.saturating_add(1), 411);
    for kind in KINDS {
        check_writer(rt, logs, (step, Failure::AtFlush(kind)), &wanted);
    }
}

#[test]
fn a_failed_flush_ends_the_run(rt: HostRuntime) -> Result<(), Fail> {
    let logs = two_transactions(&rt)?;
    for (step, writes) in WRITERS {
        check_failed_flush(&rt, &logs, step, writes);
    }
    Ok(())
}

#[test]
fn a_refused_log_leaves_the_writer_alone(rt: HostRuntime) -> Result<(), Fail> {
    let mut reader = Watched::new(SlowReader::new(b"no log", 1, Failure::Never));
    let mut writer = Watched::new(SlowWriter::new(&rt, ALL, Failure::Never));
    let refused = RunFault::Log(Fault::NotABinlog { pos: 0 });
    let answer = run_marked(&rt, &mut reader, &mut writer, Some(1));
    assert!(rt; answer == Err(refused));
    assert!(rt; reader.device().calls == 7);
    assert!(rt; writer.device().calls == 0);
    Ok(())
}
