//! Runs in which one call of the file system is refused, each in turn.

use crate::folders::{Folder, OLD, TEXT, write_text};
use crate::refusing_files::{Call, Refusals, RefusingFiles};
use result_file::FileFault;
use std::alloc::Allocator;
use std::fs;
use std::process::Abort;
use std::test::Fail;

/// More calls than a run makes.
const CALLS: u64 = 40;

/// Whether a run may end like this where this call was refused: a file that is named already is whole.
fn may_follow<A: Allocator>(outcome: &Result<(), FileFault<'_, A>>, refused: Call) -> bool {
    match (outcome, refused) {
        // the folder isn't synced
        (Ok(()), Call::Open | Call::Sync) => true,
        (Err(FileFault::NotCreated(_, _)), Call::Look | Call::Open) => true,
        (Err(FileFault::IsThere(_)), Call::Look) => true,
        (Err(FileFault::NotWritten(_, _)), Call::Write) => true,
        (Err(FileFault::NotSynced(_, _)), Call::Sync) => true,
        (Err(FileFault::NotNamed(_, _)), Call::Link | Call::Rename) => true,
        (Err(FileFault::NameLeft(_, _, _)), Call::Remove) => true,
        _ => false,
    }
}

/// Runs with the call of this number refused. Returns which call that was, and `None` where there is no such call.
fn refuse(
    rt: &HostRuntime,
    replace: bool,
    has_links: bool,
    number: u64,
) -> Result<Option<Call>, Fail> {
    let folder = Folder::new(rt, "refused")?;
    if replace {
        fs::write(rt, folder.file.as_path(), OLD)?;
    }
    let refusals = Refusals::new(number);
    let files = RefusingFiles {
        rt,
        refusals: &refusals,
        has_links,
    };
    let outcome = write_text(&files, rt.alloc(), &folder.wanted(replace));
    let refused = refusals.refused();
    let allowed = match refused {
        Some(call) => may_follow(&outcome, call),
        None => outcome.is_ok(),
    };
    // what stands in the folder beside the log
    let (whole, left) = match &outcome {
        Ok(()) => (folder.has(rt, TEXT)?, 1),
        Err(FileFault::NameLeft(_, _, _)) => (folder.has(rt, TEXT)?, 2),
        Err(_) if replace => (folder.has(rt, OLD)?, 1),
        Err(_) => (!folder.is_there(rt)?, 0),
    };
    if !allowed || !whole || !folder.has_names(rt, left + 1)? {
        return Err(Fail::new(format_args!("call {number}, {refused:?}: {outcome:?}")));
    }
    folder.remove(rt)?;
    Ok(refused)
}

/// Refuses each call in turn. Returns whether each of these was among them.
fn refuse_each(
    rt: &HostRuntime,
    replace: bool,
    has_links: bool,
    wanted: &[Call],
) -> Result<bool, Fail> {
    let mut refused = Vec::new(rt.alloc());
    for number in 1..CALLS {
        match refuse(rt, replace, has_links, number)? {
            Some(call) => refused.push(call)?,
            None => return Ok(refused.as_slice() == wanted),
        }
    }
    Err(Fail::new("there are more calls"))
}

#[test]
fn a_refused_call_leaves_no_part_of_a_file(rt: HostRuntime) -> Result<(), Fail> {
    let writes = [
        Call::Open,
        Call::Write,
        Call::Write,
        Call::Write,
        Call::Write,
        Call::Sync,
    ];
    let folder = [Call::Open, Call::Sync];
    let mut new = Vec::new(rt.alloc());
    new.push(Call::Look)?;
    new.extend_from_slice(&writes)?;
    let mut without_links = new.clone()?;
    new.extend_from_slice(&[Call::Link, Call::Remove])?;
    new.extend_from_slice(&folder)?;
    assert!(rt; refuse_each(&rt, false, true, new.as_slice())?);
    without_links.extend_from_slice(&[Call::Look, Call::Rename])?;
    without_links.extend_from_slice(&folder)?;
    assert!(rt; refuse_each(&rt, false, false, without_links.as_slice())?);
    let mut replaced = Vec::new(rt.alloc());
    replaced.extend_from_slice(&[Call::Look, Call::Look, Call::Look])?;
    replaced.extend_from_slice(&writes)?;
    replaced.push(Call::Rename)?;
    replaced.extend_from_slice(&folder)?;
    assert!(rt; refuse_each(&rt, true, true, replaced.as_slice())?);
    Ok(())
}
