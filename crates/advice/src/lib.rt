//! What to do about each fault, in one sentence for people.
#![tactic(auto)]

mod schemas;

use blog_device::RunFault;
use blog_event::Fault;
use blog_sum::SumFault;
pub use schemas::no_schema;

const OUT_OF_MEMORY: &str = "run it where one and a half times the log's size is free in memory";

/// Returns what to do about the fault of a log, or of a range of it.
pub fn of_log(fault: &Fault) -> &'static str {
    match fault {
        Fault::NotABinlog { .. } =>
            "the file is no binary log, or an encrypted one: give a binary log",
        Fault::CutEvent { .. } =>
            "the log ends inside an event, or is damaged: copy it from the server again",
        Fault::BadFormat { .. } =>
            "the first event is damaged, or of another kind of log: copy it from the server again",
        Fault::OldServer { .. } => "the server's version can't be read: give a server's own log",
        Fault::Checksums { .. } =>
            "the log has checksums: make a plain copy, binlog plain LOG -r FILE, and give that",
        Fault::NoEventAt { .. } =>
            "no event starts at this position: give a start position that binlog list prints",
        Fault::Statement { .. } =>
            "the change is logged as a statement, or changes a table's definition: choose a range without it",
        Fault::RolledBack { .. } =>
            "the transaction was rolled back, or a part of it: choose a range without it",
        Fault::OutOfPlace { .. } =>
            "the event can't follow the events before it: start the range where a transaction starts",
        Fault::Unended { .. } =>
            "the range ends inside a transaction: stop the range where a transaction stops",
        Fault::NoMap { .. } =>
            "the rows event has no table map before it: start the range where a transaction starts",
        Fault::MapClash { .. } =>
            "a table has two layouts in the range: choose a range with one of them",
        Fault::PartialImage { .. } =>
            "a row image lacks columns: choose a range without it, and set binlog_row_image to FULL on the server",
        Fault::UnknownType { .. } =>
            "a column has a type that can't be undone: choose a range without its table",
        Fault::BadBody { .. } => "the event is damaged: copy the log from the server again",
        Fault::UnknownEvent { .. } => "the type of the event is unknown: choose a range without it",
        Fault::TooLong { .. } => "the log has more than 4294967295 bytes: use another tool",
        Fault::OutOfMemory => OUT_OF_MEMORY,
    }
}

/// Returns what to do about the fault of a log that has to be accepted as a whole.
pub fn of_whole_log(fault: &Fault) -> &'static str {
    match fault {
        Fault::NotABinlog { .. }
        | Fault::CutEvent { .. }
        | Fault::BadFormat { .. }
        | Fault::OldServer { .. }
        | Fault::Checksums { .. }
        | Fault::NoEventAt { .. }
        | Fault::TooLong { .. }
        | Fault::OutOfMemory => of_log(fault),
        Fault::Statement { .. }
        | Fault::RolledBack { .. }
        | Fault::OutOfPlace { .. }
        | Fault::Unended { .. }
        | Fault::NoMap { .. }
        | Fault::MapClash { .. }
        | Fault::PartialImage { .. }
        | Fault::UnknownType { .. }
        | Fault::BadBody { .. }
        | Fault::UnknownEvent { .. } =>
            "the log can't be undone as a whole: cut the log that flashback writes of a range",
    }
}

/// Returns what to do about a log that ends too early, as the fault says.
pub fn of_end(fault: &Fault) -> &'static str {
    match fault {
        Fault::CutEvent { .. } =>
            "the log ends inside an event: copy it from the server again, once it is closed",
        Fault::Unended { .. } =>
            "the log ends inside a transaction: copy it from the server again, once it is closed",
        Fault::NotABinlog { .. }
        | Fault::BadFormat { .. }
        | Fault::OldServer { .. }
        | Fault::Checksums { .. }
        | Fault::NoEventAt { .. }
        | Fault::Statement { .. }
        | Fault::RolledBack { .. }
        | Fault::OutOfPlace { .. }
        | Fault::NoMap { .. }
        | Fault::MapClash { .. }
        | Fault::PartialImage { .. }
        | Fault::UnknownType { .. }
        | Fault::BadBody { .. }
        | Fault::UnknownEvent { .. }
        | Fault::TooLong { .. }
        | Fault::OutOfMemory => of_log(fault),
    }
}

/// Returns what to do about a run that failed.
pub fn of_run(fault: &RunFault) -> &'static str {
    match fault {
        RunFault::Log(fault) => of_log(fault),
        RunFault::Read => "see the log's disk, and try again",
        RunFault::Write =>
            "see whether the disk is full, or the program that reads the output has ended",
    }
}

/// Returns what to do about a log that has no plain copy.
pub fn of_sums(fault: &SumFault) -> &'static str {
    match fault {
        SumFault::Log(fault) => of_log(fault),
        SumFault::UnknownAlgorithm { .. } =>
            "the log has checksums that aren't CRC32: use the server's own tools",
        SumFault::WrongSum { .. } =>
            "the event isn't what the server wrote: copy the log from the server again",
        SumFault::Encrypted { .. } =>
            "the log is encrypted: copy it by mariadb-binlog --read-from-remote-server --raw",
    }
}

/// Returns what to do about a log whose reading ended with this fault.
pub fn of_reading(fault: &SumFault) -> &'static str {
    match fault {
        SumFault::Log(fault) => of_end(fault),
        SumFault::UnknownAlgorithm { .. }
        | SumFault::WrongSum { .. }
        | SumFault::Encrypted { .. } => of_sums(fault),
    }
}
