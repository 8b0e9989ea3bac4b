//! Loops over devices that move 1, 7 or all bytes a call, and that fail at each of their calls.

use blog_device::{RunFault, Watched, make_room, put, read_log, read_up_to};
use blog_event::Fault;
use std::process::Abort;
use std::test::Fail;
use testkit::devices::{ALL, Failure, KINDS, SlowReader, SlowWriter};

// Some bytes, 16 of them.
const TEXT: &[u8] = b"sixteen bytes...";

// How many bytes a reader gives a call, and its calls for the text: the last finds the end.
const READERS: [(usize, u64); 3] = [(1, 17), (7, 4), (ALL, 2)];

// How many bytes a writer takes a call, and its writes of the text. A flush follows them.
const WRITERS: [(usize, u64); 3] = [(1, 16), (7, 3), (ALL, 1)];

// A device: how many bytes it moves a call, and when it fails.
type Habit = (usize, Failure);

// The mark tells whether a call failed, and no call came after that one.
fn check_mark(rt: &impl Abort, failed: bool, failed_calls: u64) {
    assert!(rt; failed == (failed_calls != 0));
    assert!(rt; failed_calls < 2, "a failed call was tried again");
}

// Reading the text from this device has this answer, after so many calls.
fn check_read<R: AllocGlobal + Abort>(
    rt: &R,
    reader: Habit,
    wanted: Result<(), RunFault>,
    calls: u64,
) {
    let (step, failure) = reader;
    let mut reader = Watched::new(SlowReader::new(TEXT, step, failure));
    let answer = match read_log(rt.alloc(), &mut reader) {
        Ok(bytes) => {
            assert!(rt; bytes.as_slice() == TEXT);
            Ok(())
        }
        Err(fault) => Err(fault),
    };
    assert!(rt; answer == wanted);
    assert!(rt; reader.device().calls == calls);
    check_mark(rt, reader.failed(), reader.device().failed_calls);
}

// Putting the text into this device has this answer, after so many calls and so many bytes.
fn check_put<R: AllocGlobal + Abort>(
    rt: &R,
    writer: Habit,
    wanted: Result<(), RunFault>,
    calls: u64,
    taken: usize,
) {
    let (step, failure) = writer;
    let mut writer = Watched::new(SlowWriter::new(rt, step, failure));
    assert!(rt; put(&mut writer, TEXT) == wanted);
    assert!(rt; writer.device().calls == calls);
    assert!(rt; Some(writer.device().taken.as_slice()) == TEXT.get(..taken));
    check_mark(rt, writer.failed(), writer.device().failed_calls);
}

#[test]
fn reads_all_bytes_by_short_reads(rt: HostRuntime) -> Result<(), Fail> {
    for (step, reads) in READERS {
        check_read(&rt, (step, Failure::Never), Ok(()), reads);
    }
    Ok(())
}

// Fails a call of the reader by each kind of error.
fn check_failed_read<R: AllocGlobal + Abort>(rt: &R, step: usize, number: u64) {
    for kind in KINDS {
        let reader = (step, Failure::At(number, kind));
        check_read(rt, reader, Err(RunFault::Read), number);
    }
}

// Fails each call of the reader in turn.
fn check_failed_reads<R: AllocGlobal + Abort>(rt: &R, step: usize, reads: u64) {
    for number in 1..=reads {
        check_failed_read(rt, step, number);
    }
}

#[test]
fn a_failed_read_ends_the_reading(rt: HostRuntime) -> Result<(), Fail> {
    for (step, reads) in READERS {
        check_failed_reads(&rt, step, reads);
    }
    Ok(())
}

#[test]
fn reading_stops_one_byte_past_the_limit(rt: HostRuntime) -> Result<(), Fail> {
    let reader = SlowReader::new(b"thirteen byte", 1, Failure::Never);
    let bytes = read_up_to(rt.alloc(), &mut Watched::new(reader), 13)
        .ok()
        .ok_or("refused")?;
    assert!(rt; bytes.as_slice() == b"thirteen byte".as_slice());

    let reader = SlowReader::new(b"thirteen bytes and more", 1, Failure::Never);
    let mut reader = Watched::new(reader);
    let fault = read_up_to(rt.alloc(), &mut reader, 13).err().ok_or("read")?;
    assert!(rt; fault == RunFault::Log(Fault::TooLong { pos: 0 }));
    assert!(rt; reader.device().calls == 14);
    assert!(rt; !reader.failed());
    Ok(())
}

#[test]
fn writes_all_bytes_by_short_writes(rt: HostRuntime) -> Result<(), Fail> {
    for (step, writes) in WRITERS {
        let calls = writes.saturating_add(1);
        check_put(&rt, (step, Failure::Never), Ok(()), calls, TEXT.len());
    }
    Ok(())
}

// Fails a write by each kind of error, and then by taking nothing.
fn check_failed_write<R: AllocGlobal + Abort>(rt: &R, step: usize, number: u64, taken: usize) {
    let wanted = Err(RunFault::Write);
    for kind in KINDS {
        let writer = (step, Failure::At(number, kind));
        check_put(rt, writer, wanted, number, taken);
    }
    let writer = (step, Failure::TakesNothingAt(number));
    check_put(rt, writer, wanted, number, taken);
}

// Fails each write in turn.
fn check_failed_writes<R: AllocGlobal + Abort>(rt: &R, step: usize, writes: u64) {
    let mut taken = 0usize;
    for number in 1..=writes {
        check_failed_write(rt, step, number, taken);
        taken = taken.saturating_add(step);
    }
}

#[test]
fn a_failed_write_ends_the_writing(rt: HostRuntime) -> Result<(), Fail> {
    for (step, writes) in WRITERS {
        check_failed_writes(&rt, step, writes);
    }
    Ok(())
}

// Fails the flush by each kind of error.
fn check_failed_flush<R: AllocGlobal + Abort>(rt: &R, step: usize, writes: u64) {
    let calls = writes.saturating_add(1);
    for kind in KINDS {
        let writer = (step, Failure::AtFlush(kind));
        check_put(rt, writer, Err(RunFault::Write), calls, TEXT.len());
    }
}

#[test]
fn a_failed_flush_comes_after_all_bytes(rt: HostRuntime) -> Result<(), Fail> {
    for (step, writes) in WRITERS {
        check_failed_flush(&rt, step, writes);
    }
    Ok(())
}

// Puts no bytes into a writer: it is called once.
fn check_put_nothing<R: AllocGlobal + Abort>(
    rt: &R,
    failure: Failure,
    wanted: Result<(), RunFault>,
) {
    let mut writer = Watched::new(SlowWriter::new(rt, ALL, failure));
    assert!(rt; put(&mut writer, b"") == wanted);
    assert!(rt; writer.device().calls == 1);
    assert!(rt; writer.device().taken.is_empty());
    assert!(rt; writer.failed() == wanted.is_err());
    check_mark(rt, writer.failed(), writer.device().failed_calls);
}

#[test]
fn no_bytes_are_flushed_once(rt: HostRuntime) -> Result<(), Fail> {
    check_put_nothing(&rt, Failure::Never, Ok(()));
    for kind in KINDS {
        check_put_nothing(&rt, Failure::AtFlush(kind), Err(RunFault::Write));
    }
    Ok(())
}

#[test]
fn a_watched_device_answers_its_own_errors(rt: HostRuntime) -> Result<(), Fail> {
    for kind in KINDS {
        let mut reader = Watched::new(SlowReader::new(TEXT, 1, Failure::At(1, kind)));
        let error = reader.read(&mut [0; 4]).err().ok_or("read")?;
        assert!(rt; error.kind() == kind);

        let mut writer = Watched::new(SlowWriter::new(&rt, ALL, Failure::At(1, kind)));
        let error = writer.write(TEXT).err().ok_or("written")?;
        assert!(rt; error.kind() == kind);

        let mut writer = Watched::new(SlowWriter::new(&rt, ALL, Failure::AtFlush(kind)));
        let error = writer.flush().err().ok_or("flushed")?;
        assert!(rt; error.kind() == kind);
    }
    Ok(())
}

#[test]
fn bytes_of_several_reads_go_through_memory(rt: HostRuntime) -> Result<(), Fail> {
    let mut bytes = TEXT.to_vec(rt.alloc())?;
    bytes.resize(150_000, b'.')?;
    let mut reader = Watched::new(bytes.as_slice());
    let read = read_log(rt.alloc(), &mut reader).ok().ok_or("refused")?;
    assert!(rt; read.as_slice() == bytes.as_slice());

    let mut limited = Watched::new(bytes.as_slice());
    let read = read_up_to(rt.alloc(), &mut limited, 150_000)
        .ok()
        .ok_or("refused")?;
    assert!(rt; read.as_slice() == bytes.as_slice());

    let mut writer = Watched::new(Vec::new(rt.alloc()));
    assert!(rt; put(&mut writer, &read) == Ok(()));
    assert!(rt; writer.device().as_slice() == bytes.as_slice());
    assert!(rt; !reader.failed() && !limited.failed() && !writer.failed());
    Ok(())
}

#[test]
fn a_chunk_is_written_where_more_does_not_fit(rt: HostRuntime) -> Result<(), Fail> {
    let mut chunk = TEXT.to_vec(rt.alloc())?;
    let room = chunk.capacity();
    let mut writer = Watched::new(SlowWriter::new(&rt, ALL, Failure::Never));
    let from = make_room(&mut writer, &mut chunk, 100, room)
        .ok()
        .ok_or("not written")?;
    assert!(rt; from == 116);
    assert!(rt; writer.device().taken.as_slice() == TEXT);
    assert!(rt; chunk.is_empty());

    assert!(rt; make_room(&mut writer, &mut chunk, from, room) == Ok(116));
    assert!(rt; writer.device().calls == 1);
    Ok(())
}
