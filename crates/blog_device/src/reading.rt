//! Reading up to a reader's end.

ghost use Rattle.std.specs.Prelude.{◌≡◌, ◌⊎◌, ◌||◌, ◌+◌, ◌≤◌, ◌<◌, length, IfOk, IfErr, vec_len};
ghost use Rattle.std.specs.Io.KnownBytes.{IsAtEnd};
ghost use Rattle.blog_event.specs.declared.fault.Fault.TheVariants.{OutOfMemory};
ghost use Rattle.blog_device.specs.Watched.{device_of, has_failed};
ghost use Rattle.blog_device.specs.Devices.{AppendsRead, ReadsUpTo, greatest_length, is_read_fault};

use crate::devices::Watched;
use crate::fault::RunFault;
use blog_event::Fault;
use std::alloc::Allocator;
use std::io::Read;

// The greatest length of a log, in bytes.
const GREATEST_LENGTH: usize = 4_294_967_295;

// How many bytes one read asks for, at most.
const STEP: usize = 65_536;

/// Reads a log to the reader's end.
///
/// `Log(TooLong)` at 0 where there are more than 4,294,967,295 bytes, of which one more than that
/// is then read; `Log(OutOfMemory)` where memory was refused; `Read` where a read failed. No
/// other fault.
pub fn read_log<A: Allocator, R: Read>(
    alloc: A,
    reader: &mut Watched<R>,
) -> Result<Vec<u8, A>, RunFault>
    ensures reads { ReadsUpTo greatest_length (R.remaining (device_of reader.old))
        (R.remaining (device_of reader.new)) result }
    ensures mark { has_failed reader.new ≡ (has_failed reader.old || is_read_fault result) }
{
    read_up_to(alloc, reader, GREATEST_LENGTH)
}

/// Reads the bytes up to the reader's end, as `read_log` does, but with another limit on their number. It is for tests.
pub fn read_up_to<A: Allocator, R: Read>(
    alloc: A,
    reader: &mut Watched<R>,
    limit: usize,
) -> Result<Vec<u8, A>, RunFault>
    requires { limit < usize.MAX }
    ensures reads { ReadsUpTo limit (R.remaining (device_of reader.old))
        (R.remaining (device_of reader.new)) result }
    ensures mark { has_failed reader.new ≡ (has_failed reader.old || is_read_fault result) }
{
    let mut part = [0u8; STEP];
    read_by_parts(alloc, reader, limit, &mut part)
}

// The same, by reads into the part.
fn read_by_parts<A: Allocator, R: Read>(
    alloc: A,
    reader: &mut Watched<R>,
    limit: usize,
    part: &mut [u8],
) -> Result<Vec<u8, A>, RunFault>
    requires bounded { limit < usize.MAX }
    requires some { 0 < length part.old }
    ensures reads { ReadsUpTo limit (R.remaining (device_of reader.old))
        (R.remaining (device_of reader.new)) result }
    ensures mark { has_failed reader.new ≡ (has_failed reader.old || is_read_fault result) }
{
    let mut bytes = Vec::new(alloc);
    while bytes.len() <= limit {
        let most = part.len().min(limit - bytes.len() + 1);
        if append_read(reader, &mut part[..most], &mut bytes)? == 0 {
            return Ok(bytes);
        }
    }
    Err(RunFault::Log(Fault::TooLong { pos: 0 }))
}

// Reads once, into the part, and appends what was read. Gives how many bytes.
fn append_read<A: Allocator, R: Read>(
    reader: &mut Watched<R>,
    part: &mut [u8],
    bytes: &mut Vec<u8, A>,
) -> Result<usize, RunFault>
    requires { 0 < length part.old }
    ensures read { IfOk result (λ n. AppendsRead (R.remaining (device_of reader.old))
        (R.remaining (device_of reader.new)) n bytes.old.items bytes.new.items) }
    ensures within { IfOk result (λ n. n ≤ length part.old) }
    ensures len { IfOk result (λ n. vec_len bytes.new ≡ vec_len bytes.old + n) }
    ensures end { IfOk result (λ n. n ≡ 0 → IsAtEnd (R.remaining (device_of reader.new))) }
    ensures fault { IfErr result (λ e. (e ≡ RunFault.Log OutOfMemory) ⊎ (e ≡ RunFault.Read)) }
    ensures mark { has_failed reader.new ≡ (has_failed reader.old || is_read_fault result) }
{
    let taken = reader.read(part).map_err(|_| RunFault::Read)?;
    bytes.extend_from_slice(&part[..taken])?;
    Ok(taken)
}
