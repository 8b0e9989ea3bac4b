//! What is printed for each failure.

use crate::arguments::ArgumentsFault;
use crate::commands::Failure;
use crate::tests::check;
use blog_flash::{Fault, RunFault, Watched};
use std::alloc::Global;
use std::test::Fail;

/// The line of a failure.
fn printed(rt: &HostRuntime, failure: &Failure<Global>) -> Watched<Vec<u8>> {
    let mut errors = Watched::new(Vec::new(rt.alloc()));
    failure.print(&mut errors);
    errors
}

/// Each fault at the last position, with its name.
static FAULTS: [(Fault, &str); 17] = [
    (Fault::NotABinlog { pos: u32::MAX }, "NotABinlog"),
    (Fault::CutEvent { pos: u32::MAX }, "CutEvent"),
    (Fault::BadFormat { pos: u32::MAX }, "BadFormat"),
    (Fault::OldServer { pos: u32::MAX }, "OldServer"),
    (Fault::Checksums { pos: u32::MAX }, "Checksums"),
    (Fault::NoEventAt { pos: u32::MAX }, "NoEventAt"),
    (Fault::Statement { pos: u32::MAX }, "Statement"),
    (Fault::RolledBack { pos: u32::MAX }, "RolledBack"),
    (Fault::OutOfPlace { pos: u32::MAX }, "OutOfPlace"),
    (Fault::Unended { pos: u32::MAX }, "Unended"),
    (Fault::NoMap { pos: u32::MAX }, "NoMap"),
    (Fault::MapClash { pos: u32::MAX }, "MapClash"),
    (Fault::PartialImage { pos: u32::MAX }, "PartialImage"),
    (Fault::UnknownType { pos: u32::MAX }, "UnknownType"),
    (Fault::BadBody { pos: u32::MAX }, "BadBody"),
    (Fault::UnknownEvent { pos: u32::MAX }, "UnknownEvent"),
    (Fault::TooLong { pos: u32::MAX }, "TooLong"),
];

/// The fault is printed by this name.
fn check_fault(rt: &HostRuntime, fault: Fault, name: &str) -> Result<(), Fail> {
    let wanted = format!(in rt.alloc(); "flashback: {name} at 4294967295\n")?;
    let line = printed(rt, &Failure::Run(RunFault::Log(fault)));
    check(
        line.device().as_slice() == wanted.as_bytes(),
        "line",
        &[name],
    )?;
    Ok(())
}

#[test]
fn prints_each_fault(rt: HostRuntime) -> Result<(), Fail> {
    for (fault, name) in &FAULTS {
        check_fault(&rt, *fault, name)?;
    }
    Ok(())
}

/// The failure is want of memory.
fn check_memory(rt: &HostRuntime, failure: &Failure<Global>) -> Result<(), Fail> {
    check(failure.status() == 1, "status", &[])?;
    let line = printed(rt, failure);
    check(
        line.device().as_slice() == b"flashback: OutOfMemory\n".as_slice(),
        "line",
        &[],
    )
}

#[test]
fn prints_want_of_memory(rt: HostRuntime) -> Result<(), Fail> {
    check_memory(&rt, &Failure::Run(RunFault::Log(Fault::OutOfMemory)))?;
    check_memory(&rt, &Failure::Arguments(ArgumentsFault::OutOfMemory))
}
