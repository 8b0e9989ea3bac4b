//! What is printed for each failure, and what to do about it.

use binlog_arguments::ArgumentsFault;
use binlog_command::{Failure, NewLogFault};
use blog_device::{RunFault, Watched};
use blog_event::Fault;
use blog_split::SplitFault;
use blog_sum::SumFault;
use list_run::ListFault;
use std::alloc::Global;
use std::test::Fail;

/// The failure is printed as this line.
fn check(rt: &HostRuntime, failure: &Failure<Global>, line: &str) -> Result<(), Fail> {
    let wanted = format!(in rt.alloc(); "binlog: {line}\n")?;
    let mut errors = Watched::new(Vec::new(rt.alloc()));
    failure.print(&mut errors);
    if errors.device().as_slice() == wanted.as_bytes() {
        Ok(())
    } else {
        Err(Fail::new(format_args!("{line}")))
    }
}

/// Each fault of a log, with its line.
#[rattlefmt::skip]
static FAULTS: [(Fault, &str); 18] = [
    (Fault::NotABinlog { pos: 0 }, "NotABinlog at 0: the file is no binary log, or an encrypted one: give a binary log"),
    (Fault::CutEvent { pos: 5 }, "CutEvent at 5: the log ends inside an event, or is damaged: copy it from the server again"),
    (Fault::BadFormat { pos: 4 }, "BadFormat at 4: the first event is damaged, or of another kind of log: copy it from the server again"),
    (Fault::OldServer { pos: 4 }, "OldServer at 4: the server's version can't be read: give a server's own log"),
    (Fault::Checksums { pos: 4 }, "Checksums at 4: the log has checksums: make a plain copy, binlog plain LOG -r FILE, and give that"),
    (Fault::NoEventAt { pos: 5 }, "NoEventAt at 5: no event starts at this position: give a start position that binlog list prints"),
    (Fault::Statement { pos: 5 }, "Statement at 5: the change is logged as a statement, or changes a table's definition: choose a range without it"),
    (Fault::RolledBack { pos: 5 }, "RolledBack at 5: the transaction was rolled back, or a part of it: choose a range without it"),
    (Fault::OutOfPlace { pos: 5 }, "OutOfPlace at 5: the event can't follow the events before it: start the range where a transaction starts"),
    (Fault::Unended { pos: 5 }, "Unended at 5: the range ends inside a transaction: stop the range where a transaction stops"),
    (Fault::NoMap { pos: 5 }, "NoMap at 5: the rows event has no table map before it: start the range where a transaction starts"),
    (Fault::MapClash { pos: 5 }, "MapClash at 5: a table has two layouts in the range: choose a range with one of them"),
    (Fault::PartialImage { pos: 5 }, "PartialImage at 5: a row image lacks columns: choose a range without it, and set binlog_row_image to FULL on the server"),
    (Fault::UnknownType { pos: 5 }, "UnknownType at 5: a column has a type that can't be undone: choose a range without its table"),
    (Fault::BadBody { pos: 5 }, "BadBody at 5: the event is damaged: copy the log from the server again"),
    (Fault::UnknownEvent { pos: 5 }, "UnknownEvent at 5: the type of the event is unknown: choose a range without it"),
    (Fault::TooLong { pos: 0 }, "TooLong at 0: the log has more than 4294967295 bytes: use another tool"),
    (Fault::OutOfMemory, "OutOfMemory: run it where one and a half times the log's size is free in memory"),
];

#[test]
fn each_fault_of_a_log_has_its_line(rt: HostRuntime) -> Result<(), Fail> {
    for (fault, line) in &FAULTS {
        check(
            &rt,
            &Failure::List(None, ListFault::Run(RunFault::Log(*fault))),
            line,
        )?;
        check(
            &rt,
            &Failure::NewLog(NewLogFault::Run(RunFault::Log(*fault))),
            line,
        )?;
        check(
            &rt,
            &Failure::NewLog(NewLogFault::Sums(SumFault::Log(*fault))),
            line,
        )?;
    }
    Ok(())
}

/// What is printed of a log that can't be undone as a whole, after the fault.
const NOT_WHOLE: &str =
    ": the log can't be undone as a whole: cut the log that flashback writes of a range";

#[test]
fn logs_that_are_not_cut_have_their_lines(rt: HostRuntime) -> Result<(), Fail> {
    for (fault, line) in &FAULTS {
        let failure = Failure::NewLog(NewLogFault::Split(SplitFault::Log(*fault)));
        if matches!(
            fault,
            Fault::NotABinlog { .. }
                | Fault::CutEvent { .. }
                | Fault::BadFormat { .. }
                | Fault::OldServer { .. }
                | Fault::Checksums { .. }
                | Fault::NoEventAt { .. }
                | Fault::TooLong { .. }
                | Fault::OutOfMemory
        ) {
            check(&rt, &failure, line)?;
        } else {
            let name = fault.name();
            let line = format!(in rt.alloc(); "{name} at 5{NOT_WHOLE}")?;
            check(&rt, &failure, line.as_str())?;
        }
    }
    check(
        &rt,
        &Failure::NewLog(NewLogFault::Split(SplitFault::TooLong)),
        "TooLong: cut so small the log would have more than 4294967295 bytes: give a larger --size",
    )
}

/// A list of one log that ends early for this fault.
fn early_end(fault: Fault) -> Failure<'static, Global> {
    Failure::List(None, ListFault::EndsEarly(SumFault::Log(fault)))
}

#[test]
fn logs_that_end_early_have_their_lines(rt: HostRuntime) -> Result<(), Fail> {
    check(
        &rt,
        &early_end(Fault::CutEvent { pos: 5 }),
        "CutEvent at 5: the log ends inside an event: copy it from the server again, once it is closed",
    )?;
    check(
        &rt,
        &early_end(Fault::Unended { pos: 5 }),
        "Unended at 5: the log ends inside a transaction: copy it from the server again, once it is closed",
    )?;
    for (fault, line) in &FAULTS {
        if !matches!(fault, Fault::CutEvent { .. } | Fault::Unended { .. }) {
            check(&rt, &early_end(*fault), line)?;
        }
    }
    Ok(())
}

#[test]
fn other_failures_have_their_lines(rt: HostRuntime) -> Result<(), Fail> {
    let read = "read failed: see the log's disk, and try again";
    let write =
        "write failed: see whether the disk is full, or the program that reads the output has ended";
    check(
        &rt,
        &Failure::List(None, ListFault::Run(RunFault::Read)),
        read,
    )?;
    check(
        &rt,
        &Failure::NewLog(NewLogFault::Run(RunFault::Write)),
        write,
    )?;
    check(
        &rt,
        &Failure::NewLog(NewLogFault::Sums(SumFault::UnknownAlgorithm { pos: 4 })),
        "UnknownAlgorithm at 4: the log has checksums that aren't CRC32: use the server's own tools",
    )?;
    check(
        &rt,
        &Failure::NewLog(NewLogFault::Sums(SumFault::WrongSum { pos: 5 })),
        "WrongSum at 5: the event isn't what the server wrote: copy the log from the server again",
    )?;
    let memory = "OutOfMemory: run it where one and a half times the log's size is free in memory";
    check(
        &rt,
        &Failure::Arguments(ArgumentsFault::OutOfMemory),
        memory,
    )?;
    check(
        &rt,
        &Failure::Arguments(ArgumentsFault::NotText),
        "the arguments are not UTF-8: give names in UTF-8",
    )
}
