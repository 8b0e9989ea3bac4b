//! Opening each LOG, and telling a file that is no log by its first bytes.

ghost use Rattle.std.specs.Prelude.{◌≡◌, [], IfErr, IfOk, None, Some, map};
ghost use Rattle.binlog_command.specs.Status.{status_of};
ghost use Rattle.binlog_command.specs.declared.log_file.LogFault.TheVariants.{Empty};

use crate::commands::Failure;
use blog_device::Watched;
use list_run::GivenLog;
use result_file::{FileId, first_repeated};
use std::alloc::{AllocError, Allocator};
use std::fs::{File, OpenFile};
use std::io;
use std::io::{Read, Seek, SeekFrom};
use std::rt::Files;

/// Why a file can't be read as a log.
#[derive(Clone, Copy, Debug)]
pub enum LogFault {
    /// There is no such file.
    Absent(io::Error),
    /// The user may not read it.
    NotPermitted(io::Error),
    /// It can't be opened for another reason.
    NotOpened(io::Error),
    /// It is a directory.
    Directory,
    /// It has no bytes.
    Empty,
    /// It is the index file of a server, which lists logs.
    Index,
    /// It is an encrypted log.
    Encrypted,
}

/// How many bytes of a file are looked at.
const FIRST: usize = 4096;

/// The first bytes of a log.
const MAGIC: &[u8] = b"\xFEbin";

/// The first bytes of an encrypted log.
const ENCRYPTED: &[u8] = b"\xFDbin";

/// The fewest digits of the number in a log's name.
const DIGITS: usize = 6;

/// Opens the log of this path.
pub fn open_log<'a, R: Files, A: Allocator>(
    rt: &R,
    path: &'a str,
) -> Result<Watched<R::File>, Failure<'a, A>>
    ensures status { IfErr result (λ f. status_of f ≡ 1) }
{
    match open_checked(rt, path) {
        Ok(log) => Ok(Watched::new(log)),
        Err(fault) => Err(Failure::NoLog(path, fault)),
    }
}

/// Opens the logs of these paths, in order, of which no two may be the same file.
pub fn open_logs<'a, R: Files, A: Allocator + Copy>(
    rt: &R,
    alloc: A,
    paths: &[&'a str],
) -> Result<Vec<GivenLog<'a, R::File>, A>, Failure<'a, A>>
    ensures logs { IfOk result (λ logs. map (λ log. log.name.now) logs.items ≡ map (λ path. path.now) paths.now) }
    ensures status { IfErr result (λ f. status_of f ≡ 1) }
{
    let mut logs = Vec::new(alloc);
    let mut ids = Vec::new(alloc);
    for path in paths {
        let reader = open_log(rt, path)?;
        let id = match reader.device().metadata() {
            Ok(metadata) => FileId::of(&metadata),
            Err(cause) => return Err(Failure::NoLog(path, LogFault::NotOpened(cause))),
        };
        if ids.push(id).is_err() || logs.push(GivenLog { name: path, reader }).is_err() {
            return Err(Failure::from(AllocError));
        }
    }
    let Some((earlier, later)) = first_repeated(&ids) else {
        return Ok(logs);
    };
    match (paths.get(earlier), paths.get(later)) {
        (Some(path), Some(same)) => Err(Failure::GivenTwice(path, same)),
        // there are as many ids as paths
        _ => Ok(logs),
    }
}

/// Opens a file that may be a log. What isn't a regular file, such as a pipe, is checked when it is read.
fn open_checked<R: Files>(rt: &R, path: &str) -> Result<R::File, LogFault> {
    let mut file = match File::open(rt, path) {
        Ok(file) => file,
        Err(cause) => return Err(fault_of(cause)),
    };
    let Ok(metadata) = file.metadata() else {
        return Ok(file);
    };
    if metadata.is_dir() {
        return Err(LogFault::Directory);
    }
    if !metadata.is_file() {
        return Ok(file);
    }
    let mut first = [0u8; FIRST];
    let fault = match file.read(&mut first) {
        Ok(len) => first_fault(&first[..len]),
        Err(_) => None,
    };
    if let Some(fault) = fault {
        return Err(fault);
    }
    match file.seek(SeekFrom::Start(0)) {
        Ok(_) => Ok(file),
        Err(cause) => Err(LogFault::NotOpened(cause)),
    }
}

/// Why a file can't be opened, by the system's cause.
fn fault_of(cause: io::Error) -> LogFault {
    match cause.kind() {
        io::ErrorKind::NotFound => LogFault::Absent(cause),
        io::ErrorKind::PermissionDenied => LogFault::NotPermitted(cause),
        _ => LogFault::NotOpened(cause),
    }
}

/// Returns why a file that begins with these bytes is no log, if they show it.
fn first_fault(first: &[u8]) -> Option<LogFault>
    ensures empty { first.now ≡ [] → result ≡ Some Empty }
{
    if first.is_empty() {
        Some(LogFault::Empty)
    } else if first.starts_with(MAGIC) {
        None
    } else if first.starts_with(ENCRYPTED) {
        Some(LogFault::Encrypted)
    } else if is_index(first) {
        Some(LogFault::Index)
    } else {
        None
    }
}

/// Whether these are the first bytes of an index file: text, of which the first line names a log.
fn is_index(first: &[u8]) -> bool {
    let line = match first.split(|byte| *byte == b'\n').next() {
        Some(line) => line,
        None => first,
    };
    names_log(line.trim_ascii_end()) && first.iter().all(|byte| is_text(*byte))
}

/// Whether a line ends in a dot and the number of a log.
fn names_log(line: &[u8]) -> bool {
    let mut parts = line.rsplit(|byte| *byte == b'.');
    match (parts.next(), parts.next()) {
        (Some(number), Some(_)) => number.len() >= DIGITS
            && number.iter().all(|byte| byte.is_ascii_digit()),
        _ => false,
    }
}

/// Whether a text may have this byte.
fn is_text(byte: u8) -> bool {
    match byte {
        b'\t' | b'\n' | b'\r' => true,
        127 => false,
        _ => byte >= b' ',
    }
}
