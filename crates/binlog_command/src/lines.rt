//! The lines on standard error.

use crate::commands::{Failure, NewLogFault};
use crate::log_file::LogFault;
use binlog_arguments::ArgumentsFault;
use blog_device::{RunFault, Watched, put};
use blog_event::Fault;
use blog_split::SplitFault;
use console::put_line;
use list_run::ListFault;
use result_file::FileFault;
use std::alloc::Allocator;
use std::fmt;
use std::io::Write;
use undo_run::{FurtherFault, OpeningFault, PartFault};

impl<A: Allocator> Failure<'_, A> {
    /// Prints the failure, below what it comes with. What can't be printed is dropped.
    pub fn print<E: Write>(&self, errors: &mut Watched<E>) {
        let above = self.lines_above();
        if !above.is_empty() {
            let _ = put(errors, above);
        }
        let _ = match self {
            Failure::Arguments(ArgumentsFault::Wrong(text)) => put(errors, text.as_bytes()),
            _ => put_line(errors, "binlog", self),
        };
    }

    /// The lines above the failure's own: where what came later touches the part of a log.
    fn lines_above(&self) -> &[u8] {
        match self {
            Failure::Part(_, PartFault::ChangedSince(_, lines)) => lines,
            Failure::Part(_, PartFault::UnknownSince(lines)) => lines,
            Failure::Part(_, PartFault::Unmerged(lines)) => lines,
            _ => &[],
        }
    }
}

/// What failed, and one sentence what to do.
impl<A: Allocator> fmt::Display for Failure<'_, A> {
    fn fmt<W: fmt::Write>(&self, f: &mut fmt::Formatter<W>) -> fmt::Result {
        match self {
            Failure::Arguments(ArgumentsFault::Wrong(text)) => write!(f, "{text}"),
            Failure::Arguments(ArgumentsFault::NotText) => f.write_str(NOT_TEXT),
            Failure::Arguments(ArgumentsFault::OutOfMemory) => {
                let fault = Fault::OutOfMemory;
                write!(f, "{fault}: {}", advice::of_log(&fault))
            }
            Failure::NoLog(path, fault) => print_no_log(f, path, fault),
            Failure::Terminal => f.write_str(TERMINAL),
            Failure::ResultFile(fault) => print_file_fault(f, fault),
            Failure::NewLog(NewLogFault::Run(fault)) => print_run_fault(f, fault),
            Failure::NewLog(NewLogFault::Sums(fault)) => write!(
                f,
                "{fault}: {}",
                advice::of_sums(fault)
            ),
            Failure::GivenTwice(path, same) if path == same => write!(
                f,
                "the log is given twice: {path}: give it once"
            ),
            Failure::GivenTwice(path, same) => write!(
                f,
                "the log is given twice: {path} is {same}: give it once"
            ),
            Failure::Part(Some(path), fault) if has_place(fault) => {
                write!(f, "{path}: ")?;
                print_part_fault(f, fault)
            }
            Failure::Part(_, fault) => print_part_fault(f, fault),
            Failure::First(None, fault) => print_opening_fault(f, fault),
            Failure::First(Some(path), fault) => {
                write!(f, "{path}: ")?;
                print_opening_fault(f, fault)
            }
            Failure::Further(path, before, fault) => print_further_fault(f, path, before, fault),
            Failure::Later(path, fault) => {
                write!(f, "{path}: ")?;
                print_opening_fault(f, fault)
            }
            Failure::NoGtid(text) => write!(
                f,
                "NoUnitWithGtid: no transaction in this range has the GTID {text}: see binlog list --show-gtid"
            ),
            Failure::List(_, ListFault::Run(RunFault::Write)) => print_run_fault(
                f,
                &RunFault::Write,
            ),
            Failure::List(None, fault) => print_list_fault(f, fault),
            Failure::List(Some(path), fault) => {
                write!(f, "{path}: ")?;
                print_list_fault(f, fault)
            }
            Failure::NewLog(NewLogFault::Split(SplitFault::Log(fault))) => write!(
                f,
                "{fault}: {}",
                advice::of_whole_log(fault)
            ),
            Failure::NewLog(NewLogFault::Split(SplitFault::TooLong)) => f.write_str(CUT_TOO_LONG),
            Failure::NewLog(NewLogFault::NoSchema(text)) => f.write_str(text.as_str()),
        }
    }
}

/// Whether a fault has a place in one of the logs.
fn has_place<A: Allocator>(fault: &PartFault<A>) -> bool {
    match fault {
        PartFault::Sums(_) | PartFault::NoEventAt(_) | PartFault::NoUnitAt(_) => true,
        PartFault::Log(fault) => fault.at().is_some(),
        _ => false,
    }
}

/// Why a log can't be read behind another.
fn print_further_fault<W: fmt::Write>(
    f: &mut fmt::Formatter<W>,
    path: &str,
    before: &str,
    fault: &FurtherFault,
) -> fmt::Result {
    match fault {
        FurtherFault::Opening(fault) => {
            write!(f, "{path}: ")?;
            print_opening_fault(f, fault)
        }
        FurtherFault::Damaged(fault) => write!(f, "{before}: {fault}: {}", advice::of_sums(fault)),
        FurtherFault::OtherServer => write!(
            f,
            "OtherServer: {path} is of another server than {before}, or of another version: give logs of one server"
        ),
        FurtherFault::OutOfOrder => write!(
            f,
            "OutOfOrder: {path} is older than {before}: give the logs in order, the oldest first"
        ),
        FurtherFault::TooLong => write!(
            f,
            "TooLong: with {path} the logs have more than 4294967295 bytes: give fewer at a time"
        ),
    }
}

/// Why a part of a log isn't written.
fn print_part_fault<W: fmt::Write, A: Allocator>(
    f: &mut fmt::Formatter<W>,
    fault: &PartFault<A>,
) -> fmt::Result {
    match fault {
        PartFault::Run(fault) => print_run_fault(f, fault),
        PartFault::Sums(fault) => write!(f, "{fault}: {}", advice::of_sums(fault)),
        PartFault::NoEventAt(pos) => {
            let fault = Fault::NoEventAt { pos: *pos };
            write!(f, "{fault}: {}", advice::of_log(&fault))
        }
        PartFault::NoUnitAt(pos) => write!(
            f,
            "NoUnitAt at {pos}: no transaction in this range starts here, or has its BEGIN here: give a start that binlog list prints"
        ),
        PartFault::NoUnitWithGtid(_) => f.write_str(NO_UNIT_WITH_GTID),
        PartFault::Log(fault) => write!(f, "{fault}: {}", advice::of_log(fault)),
        PartFault::NothingSelected => f.write_str(NOTHING_SELECTED),
        PartFault::LaterLog(_, fault) => print_opening_fault(f, fault),
        PartFault::ChangedSince(1, _) => write!(
            f,
            "ChangedSince: 1 row that would be undone was changed since: {CHANGED_SINCE}"
        ),
        PartFault::ChangedSince(rows, _) => write!(
            f,
            "ChangedSince: {rows} rows that would be undone were changed since: {CHANGED_SINCE}"
        ),
        PartFault::UnknownSince(_) => f.write_str(UNKNOWN_SINCE),
        PartFault::Unmerged(_) => f.write_str(UNMERGED),
        PartFault::TooLong => f.write_str(CUT_TOO_LONG),
        PartFault::NoSchema(text) => f.write_str(text.as_str()),
    }
}

/// Why a log can't be read.
fn print_opening_fault<W: fmt::Write>(
    f: &mut fmt::Formatter<W>,
    fault: &OpeningFault,
) -> fmt::Result {
    match fault {
        OpeningFault::Run(fault) => print_run_fault(f, fault),
        OpeningFault::Sums(fault) => write!(f, "{fault}: {}", advice::of_sums(fault)),
    }
}

/// Why a list isn't whole.
fn print_list_fault<W: fmt::Write>(f: &mut fmt::Formatter<W>, fault: &ListFault) -> fmt::Result {
    match fault {
        ListFault::Run(fault) => print_run_fault(f, fault),
        ListFault::Unread(fault) => write!(f, "{fault}: {}", advice::of_sums(fault)),
        ListFault::EndsEarly(fault) => write!(f, "{fault}: {}", advice::of_reading(fault)),
    }
}

fn print_run_fault<W: fmt::Write>(f: &mut fmt::Formatter<W>, fault: &RunFault) -> fmt::Result {
    let sentence = advice::of_run(fault);
    match fault {
        RunFault::Log(fault) => write!(f, "{fault}: {sentence}"),
        RunFault::Read => write!(f, "read failed: {sentence}"),
        RunFault::Write => write!(f, "write failed: {sentence}"),
    }
}

/// Why a file can't be read as a log.
fn print_no_log<W: fmt::Write>(
    f: &mut fmt::Formatter<W>,
    path: &str,
    fault: &LogFault,
) -> fmt::Result {
    match fault {
        LogFault::Absent(cause) => write!(
            f,
            "cannot open the log {path}: {cause}: see its name and its folder"
        ),
        LogFault::NotPermitted(cause) => write!(
            f,
            "cannot open the log {path}: {cause}: run it as a user who may read it"
        ),
        LogFault::NotOpened(cause) => write!(
            f,
            "cannot open the log {path}: {cause}: see its name and whether you may read it"
        ),
        LogFault::Directory => write!(
            f,
            "the log is a directory: {path}: give a file in it, such as binlog.000042"
        ),
        LogFault::Empty => write!(f, "the log is empty: {path}: copy it from the server again"),
        LogFault::Index => write!(
            f,
            "the log is an index file: {path}: give one of the logs that it lists"
        ),
        LogFault::Encrypted => write!(f, "the log is encrypted: {path}: {ENCRYPTED}"),
    }
}

/// Returns whether a path is one by which systems name standard output.
fn is_output(path: &str) -> bool {
    path == "/dev/stdout" || path == "/dev/fd/1" || path == "/proc/self/fd/1"
}

/// Why there is no result file, or what is left beside it.
fn print_file_fault<W: fmt::Write, A: Allocator>(
    f: &mut fmt::Formatter<W>,
    fault: &FileFault<'_, A>,
) -> fmt::Result {
    match fault {
        FileFault::IsThere(path) => write!(
            f,
            "the result file is there: {path}: give another name, or --force"
        ),
        FileFault::IsLog(path) => write!(
            f,
            "the result file is the log: {path}: give another name"
        ),
        FileFault::IsLink(path) if is_output(path) => write!(
            f,
            "the result file is standard output: {path}: leave -r out"
        ),
        FileFault::IsLink(path) => write!(
            f,
            "the result file is a symbolic link: {path}: give the name of the file itself"
        ),
        FileFault::IsDirectory(path) => write!(
            f,
            "the result file is a directory: {path}: give the name of a file"
        ),
        FileFault::NamesTaken(path) => write!(
            f,
            "the temporary names beside the result file are taken: {path}: remove old files .NAME.PROCESS.NUMBER.tmp there"
        ),
        FileFault::OutOfMemory => {
            let fault = Fault::OutOfMemory;
            write!(f, "{fault}: {}", advice::of_log(&fault))
        }
        FileFault::NameLeft(path, name, cause) => write!(
            f,
            "cannot remove {name}: {cause}: the result file {path} is whole: remove the other name"
        ),
        FileFault::NotCreated(path, cause) => write!(
            f,
            "cannot create the result file {path}: {cause}: see its folder and whether you may write there"
        ),
        FileFault::NotWritten(path, cause) => write!(
            f,
            "cannot write the result file {path}: {cause}: see whether its disk is full"
        ),
        FileFault::NotSynced(path, cause) => write!(
            f,
            "cannot sync the result file {path}: {cause}: see its disk"
        ),
        FileFault::NotNamed(path, cause) => write!(
            f,
            "cannot give the result file its name {path}: {cause}: see its folder and whether you may write there"
        ),
    }
}

const NOT_TEXT: &str = "the arguments are not UTF-8: give names in UTF-8";

const TERMINAL: &str =
    "the new log is binary, and standard output is a terminal: use -r FILE or > FILE";

const ENCRYPTED: &str =
    "fetch it from its server by mysqlbinlog --read-from-remote-server --raw, which decrypts it";

const NO_UNIT_WITH_GTID: &str =
    "NoUnitWithGtid: no transaction in this range has one of the GTIDs: see binlog list --show-gtid";

const NOTHING_SELECTED: &str =
    "NothingSelected: no row of these tables is changed in this range: see binlog list";

const CHANGED_SINCE: &str =
    "undo these later changes first; --merge keeps them and undoes the rest, --leave undoes the other rows alone, and --anyway overwrites these";

const UNKNOWN_SINCE: &str =
    "UnknownSince: what came later may have changed these tables: give --anyway if it left these rows as they were";

const UNMERGED: &str =
    "Unmerged: rows that were changed since can't be merged: --leave undoes the other rows alone";

const CUT_TOO_LONG: &str =
    "TooLong: cut so small the log would have more than 4294967295 bytes: give a larger --size";
