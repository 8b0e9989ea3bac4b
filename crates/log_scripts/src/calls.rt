//! What is asked of a log, by calls that have to agree.

use crate::readers::{ShortReader, Unwritten};
use crate::words::{Asked, asked_by, selected_by};
use blog_device::{RunFault, Watched};
use blog_event::Fault;
use blog_flash::{Mode, answer, run};
use blog_trans::Selection;
use log_calls::index_view::{entries_of, fault_of, groups_of, tables_of};
use std::alloc::AllocError;
use std::{fs, io};
use thiserror::Error;

/// Why nothing is written.
#[derive(Debug, Drop, Error)]
pub enum NotWritten {
    #[error("{0}")]
    Log(Fault),
    #[error("no such run")]
    Words,
    #[error("no such file")]
    File,
    /// A call answers otherwise than others do.
    #[error("{0} answers otherwise")]
    Differs(&'static str),
}

impl From<Fault> for NotWritten {
    fn from(fault: Fault) -> NotWritten {
        NotWritten::Log(fault)
    }
}

impl From<AllocError> for NotWritten {
    fn from(_refused: AllocError) -> NotWritten {
        NotWritten::Log(Fault::OutOfMemory)
    }
}

impl From<io::Error> for NotWritten {
    fn from(_error: io::Error) -> NotWritten {
        NotWritten::File
    }
}

/// What a run of these arguments writes.
pub fn called(rt: &HostRuntime, arguments: &[String]) -> Result<Vec<u8>, NotWritten> {
    let [_, word, options @ .., path] = arguments else {
        return Err(NotWritten::Words);
    };
    let asked = asked_by(word.as_str()).ok_or(NotWritten::Words)?;
    let selection = selected_by(options).ok_or(NotWritten::Words)?;
    let bytes = fs::read(rt, path.as_str())?;
    check_faults(rt, &bytes, &selection)?;
    match asked {
        Asked::Text(mode) => text_of(rt, &bytes, mode, &selection),
        Asked::Groups => {
            let mut lines = Vec::new(rt.alloc());
            for part in &groups_of(rt, &bytes, &selection)? {
                put_line(&mut lines, format!(in rt.alloc(); "{part:?}")?.as_str())?;
            }
            Ok(lines)
        }
        Asked::Entries => {
            let mut lines = Vec::new(rt.alloc());
            for at in &entries_of(rt, &bytes, &selection)? {
                put_line(&mut lines, format!(in rt.alloc(); "{at}")?.as_str())?;
            }
            Ok(lines)
        }
        Asked::Tables => tables_text(rt, &bytes, &selection),
    }
}

/// Appends a line.
fn put_line(lines: &mut Vec<u8>, line: &str) -> Result<(), AllocError> {
    lines.extend_from_slice(line.as_bytes())?;
    lines.extend_from_slice(b"\n")
}

/// The tables of a log, and how many of their rows are inserted, updated and deleted.
fn tables_text(
    rt: &HostRuntime,
    bytes: &[u8],
    selection: &Selection<'_>,
) -> Result<Vec<u8>, NotWritten> {
    let mut lines = Vec::new(rt.alloc());
    for table in &tables_of(rt, bytes, selection)? {
        lines.extend_from_slice(table.schema)?;
        lines.extend_from_slice(b".")?;
        lines.extend_from_slice(table.table)?;
        let numbers = format!(in rt.alloc();
            " {} {} {}",
            table.inserts, table.updates, table.deletes
        )?;
        put_line(&mut lines, numbers.as_str())?;
    }
    Ok(lines)
}

/// Checks that the index of a log, both ways of writing it, and a run answer the same fault, or none. The run calls no writer.
fn check_faults(
    rt: &HostRuntime,
    bytes: &[u8],
    selection: &Selection<'_>,
) -> Result<(), NotWritten> {
    let fault = fault_of(rt, bytes, selection);
    for mode in [Mode::Flashback, Mode::Forward] {
        if answer(rt.alloc(), bytes, mode, selection).err() != fault {
            return Err(NotWritten::Differs("a log"));
        }
    }
    let Some(fault) = fault else {
        return Ok(());
    };
    let mut reader = Watched::new(bytes);
    let mut writer = Watched::new(Unwritten);
    let ran = run(
        rt.alloc(),
        &mut reader,
        Mode::Flashback,
        selection,
        &mut writer,
    );
    if ran != Err(RunFault::Log(fault)) || reader.failed() || writer.failed() {
        return Err(NotWritten::Differs("a run"));
    }
    Err(NotWritten::Log(fault))
}

/// The most bytes that a call of the reader gives, in one run after the other.
const MOST: [usize; 3] = [1, 7, 4_096];

/// What a log is answered with in a mode: by a call, and by runs that read a few bytes a call.
fn text_of(
    rt: &HostRuntime,
    bytes: &[u8],
    mode: Mode,
    selection: &Selection<'_>,
) -> Result<Vec<u8>, NotWritten> {
    let text = answer(rt.alloc(), bytes, mode, selection)?;
    for most in MOST {
        let mut reader = Watched::new(ShortReader::new(bytes, most));
        let mut writer = Watched::new(Vec::new(rt.alloc()));
        let ran = run(rt.alloc(), &mut reader, mode, selection, &mut writer);
        if ran != Ok(()) || reader.failed() || writer.device().as_slice() != text.as_slice() {
            return Err(NotWritten::Differs("a run"));
        }
    }
    Ok(text)
}
