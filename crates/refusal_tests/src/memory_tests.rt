//! Memory that runs out: each request of a call is refused in turn, and the call answers that memory was refused.

use blog_event::{Fault, Log};
use blog_flash::{Mode, RunFault, Watched, answer, prepare, run};
use blog_trans::{Selection, index};
use linked_list_allocator::LocalHeap;
use refusing::Refusing;
use sample_logs::logs::{newer_server, two_tables, two_transactions};
use sample_logs::printed_logs::{OF_NEWER_SERVER, OF_TWO_TABLES, OF_TWO_TRANSACTIONS, Printed};
use sample_logs::undone::{
    newer_server_copied, newer_server_undone, two_tables_undone, two_transactions_copied,
    two_transactions_undone,
};
use std::alloc::AllocError;
use std::io;
use std::io::Write;
use std::process::Abort;
use std::test::Fail;

/// A heap with room for each call, in bytes.
const ROOM: usize = 1 << 16;

/// The unit of a heap's memory, in bytes: a request takes some of them.
const UNIT: usize = 16;

/// Requests up to this number are refused in turn.
const MOST_REQUESTS: usize = 200;

/// No call on a log makes fewer.
const LEAST_REQUESTS: usize = 10;

/// A log, and what it is answered with in each mode.
#[derive(Drop)]
struct Worked {
    log: Vec<u8>,
    undone: Vec<u8>,
    copied: Vec<u8>,
    printed: &'static Printed,
    /// Where the entries of its index begin.
    starts: &'static [u32],
}

impl Worked {
    fn texts(&self) -> [(Mode, &[u8]); 5] {
        [
            (Mode::Flashback, &self.undone),
            (Mode::Forward, &self.copied),
            (Mode::FlashbackSql, self.printed.backward),
            (Mode::ForwardSql, self.printed.forward),
            (Mode::Summary, self.printed.summary),
        ]
    }
}

fn of_two_transactions(rt: &impl AllocGlobal) -> Result<Worked, AllocError> {
    Ok(Worked {
        log: two_transactions(rt)?,
        undone: two_transactions_undone(rt)?,
        copied: two_transactions_copied(rt)?,
        printed: &OF_TWO_TRANSACTIONS,
        starts: &[164, 203, 240, 276, 360, 399, 436, 472],
    })
}

fn of_two_tables(rt: &impl AllocGlobal) -> Result<Worked, AllocError> {
    Ok(Worked {
        log: two_tables(rt)?,
        undone: two_tables_undone(rt)?,
        copied: two_tables(rt)?,
        printed: &OF_TWO_TABLES,
        starts: &[120, 159, 197, 235, 271, 307, 343],
    })
}

fn of_newer_server(rt: &impl AllocGlobal) -> Result<Worked, AllocError> {
    Ok(Worked {
        log: newer_server(rt)?,
        undone: newer_server_undone(rt)?,
        copied: newer_server_copied(rt)?,
        printed: &OF_NEWER_SERVER,
        starts: &[191, 261, 298, 334],
    })
}

/// A call on a log, with what it gives where no request is refused.
#[derive(Clone, Copy)]
enum Call<'a> {
    Answer(Mode, &'a [u8]),
    Prepare(Mode, &'a [u8]),
    Run(Mode, &'a [u8]),
    /// Where the entries begin.
    Index(&'a [u32]),
}

/// The fault of a call, none where it gives what it is to give.
fn fault_of<R: AllocGlobal + Abort>(
    rt: &R,
    alloc: &Refusing<&LocalHeap>,
    log: &[u8],
    call: Call<'_>,
) -> Option<Fault> {
    match call {
        Call::Answer(mode, text) => fault_of_answer(rt, alloc, log, mode, text),
        Call::Prepare(mode, text) => fault_of_prepare(rt, alloc, log, mode, text),
        Call::Run(mode, text) => fault_of_run(rt, alloc, log, mode, text),
        Call::Index(starts) => fault_of_index(rt, alloc, log, starts),
    }
}

fn fault_of_answer<R: AllocGlobal + Abort>(
    rt: &R,
    alloc: &Refusing<&LocalHeap>,
    log: &[u8],
    mode: Mode,
    text: &[u8],
) -> Option<Fault> {
    match answer(alloc, log, mode, &Selection::all()) {
        Ok(answered) => {
            assert!(rt; answered.as_slice() == text);
            None
        }
        Err(fault) => Some(fault),
    }
}

fn fault_of_prepare<R: AllocGlobal + Abort>(
    rt: &R,
    alloc: &Refusing<&LocalHeap>,
    log: &[u8],
    mode: Mode,
    text: &[u8],
) -> Option<Fault> {
    let mut reader = Watched::new(log);
    let prepared = prepare(alloc, &mut reader, mode, &Selection::all());
    assert!(rt; !reader.failed());
    match prepared {
        Ok(prepared) => {
            assert!(rt; prepared.as_slice() == text);
            None
        }
        Err(RunFault::Log(fault)) => Some(fault),
        Err(fault) => panic!(rt; "{fault:?}"),
    }
}

/// A run that is refused doesn't call its writer.
fn fault_of_run<R: AllocGlobal + Abort>(
    rt: &R,
    alloc: &Refusing<&LocalHeap>,
    log: &[u8],
    mode: Mode,
    text: &[u8],
) -> Option<Fault> {
    let mut reader = Watched::new(log);
    let mut writer = Watched::new(Counting::new(rt));
    let ran = run(alloc, &mut reader, mode, &Selection::all(), &mut writer);
    assert!(rt; !reader.failed() && !writer.failed());
    match ran {
        Ok(()) => {
            assert!(rt; writer.device().taken.as_slice() == text);
            assert!(rt; writer.device().calls > 1);
            None
        }
        Err(RunFault::Log(fault)) => {
            assert!(rt; writer.device().calls == 0);
            Some(fault)
        }
        Err(fault) => panic!(rt; "{fault:?}"),
    }
}

fn fault_of_index<R: AllocGlobal + Abort>(
    rt: &R,
    alloc: &Refusing<&LocalHeap>,
    log: &[u8],
    starts: &[u32],
) -> Option<Fault> {
    let log = match Log::open(log) {
        Ok(log) => log,
        Err(fault) => return Some(fault),
    };
    match index(alloc, &log, &Selection::all()) {
        Ok(index) => {
            let entries = index.entries().iter().map(|entry| entry.at());
            assert!(rt; entries.eq(starts.iter().copied()));
            None
        }
        Err(fault) => Some(fault),
    }
}

/// A writer that takes all bytes and counts the calls.
#[derive(Drop)]
struct Counting {
    calls: usize,
    taken: Vec<u8>,
}

impl Counting {
    fn new(rt: &impl AllocGlobal) -> Counting {
        Counting {
            calls: 0,
            taken: Vec::new(rt.alloc()),
        }
    }
}

impl Write for Counting {
    fn write(&mut self, buf: &[u8]) -> io::Result<usize> {
        self.calls = self.calls.saturating_add(1);
        self.taken.extend_from_slice(buf)?;
        Ok(buf.len())
    }

    fn flush(&mut self) -> io::Result<()> {
        self.calls = self.calls.saturating_add(1);
        Ok(())
    }
}

/// Refuses the first request of a call, then the second and so on, up to the first call that comes to its end: how
/// many requests it makes.
fn requests_of<R: AllocGlobal + Abort>(rt: &R, log: &[u8], call: Call<'_>) -> Result<usize, Fail> {
    let heap = LocalHeap::new(rt.alloc(), ROOM)?;
    for number in 0..MOST_REQUESTS {
        let alloc = Refusing::new(&heap, number + 1);
        let fault = fault_of(rt, &alloc, log, call);
        assert!(rt; heap.used() == 0);
        if !alloc.has_refused() {
            assert!(rt; fault == None);
            return Ok(number);
        }
        assert!(rt; fault == Some(Fault::OutOfMemory), "request {}", number + 1);
    }
    Err("more requests than are tried".into())
}

/// Each request of the calls on a log in this mode is refused in turn.
fn check_mode<R: AllocGlobal + Abort>(
    rt: &R,
    log: &[u8],
    mode: Mode,
    text: &[u8],
) -> Result<(), Fail> {
    let answered = requests_of(rt, log, Call::Answer(mode, text))?;
    let prepared = requests_of(rt, log, Call::Prepare(mode, text))?;
    let ran = requests_of(rt, log, Call::Run(mode, text))?;
    assert!(rt; answered >= LEAST_REQUESTS, "{mode:?}: {answered}");
    // The log is read into memory, and to write takes none.
    assert!(rt; prepared > answered, "{mode:?}: {prepared} and {answered}");
    assert!(rt; ran == prepared, "{mode:?}");
    Ok(())
}

/// So it is in each mode.
fn check_modes<R: AllocGlobal + Abort>(rt: &R, worked: &Worked) -> Result<(), Fail> {
    for (mode, text) in worked.texts() {
        check_mode(rt, &worked.log, mode, text)?;
    }
    Ok(())
}

#[test]
fn a_refused_request_is_answered_and_nothing_is_written(rt: HostRuntime) -> Result<(), Fail> {
    check_modes(&rt, &of_two_transactions(&rt)?)?;
    check_modes(&rt, &of_two_tables(&rt)?)?;
    check_modes(&rt, &of_newer_server(&rt)?)
}

/// Each request of the index of a log is refused in turn.
fn check_index<R: AllocGlobal + Abort>(rt: &R, worked: &Worked) -> Result<(), Fail> {
    let requests = requests_of(rt, &worked.log, Call::Index(worked.starts))?;
    assert!(rt; requests >= LEAST_REQUESTS, "{requests}");
    Ok(())
}

#[test]
fn an_index_with_a_refused_request_is_refused(rt: HostRuntime) -> Result<(), Fail> {
    check_index(&rt, &of_two_transactions(&rt)?)?;
    check_index(&rt, &of_two_tables(&rt)?)?;
    check_index(&rt, &of_newer_server(&rt)?)
}

/// Answers a log in larger and larger heaps, up to the first that is large enough, and gives how many were too small.
fn heaps_too_small<R: AllocGlobal + Abort>(rt: &R, log: &[u8], text: &[u8]) -> Result<usize, Fail> {
    for units in 0..ROOM / UNIT {
        let heap = LocalHeap::new(rt.alloc(), units * UNIT)?;
        match answer(&heap, log, Mode::Flashback, &Selection::all()) {
            Ok(answered) => {
                assert!(rt; answered.as_slice() == text);
                return Ok(units);
            }
            Err(fault) => assert!(rt; fault == Fault::OutOfMemory),
        }
        assert!(rt; heap.used() == 0);
    }
    Err("no heap is large enough".into())
}

/// A log is undone in the first heap that is large enough, and that has more room than the output.
fn check_heaps<R: AllocGlobal + Abort>(rt: &R, worked: &Worked) -> Result<(), Fail> {
    let units = heaps_too_small(rt, &worked.log, &worked.undone)?;
    assert!(rt; units > worked.undone.len() / UNIT, "{units}");
    Ok(())
}

#[test]
fn undoing_in_small_heaps(rt: HostRuntime) -> Result<(), Fail> {
    check_heaps(&rt, &of_two_transactions(&rt)?)?;
    check_heaps(&rt, &of_two_tables(&rt)?)?;
    check_heaps(&rt, &of_newer_server(&rt)?)
}
