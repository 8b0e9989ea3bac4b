//! The plain log of a server's log: the same log without checksums.

ghost use Rattle.std.specs.Prelude.{◌≡◌, ◌≤◌, length, take, IfOk};
ghost use Rattle.std.specs.Result.{result_err};
ghost use Rattle.blog_source.specs.Plain.{plain_log};
ghost use Rattle.blog_source.specs.Whole.{reading_fault};

use crate::form::Form;
use crate::front::open_front;
use crate::reading::Reading;
use crate::walk::hand_out;
use blog_sum::SumFault;
use std::alloc::Allocator;

/// Makes the plain log of a log in the front of its bytes, and returns how long it is. Fails as `plain`.
fn plain_in_place(bytes: &mut [u8]) -> Result<u32, SumFault>
    ensures exact { result_err result ≡ reading_fault bytes.old }
    ensures log { IfOk result (λ len. take len bytes.new ≡ plain_log bytes.old) }
    ensures within { IfOk result (λ len. len ≤ length bytes.new) }
    ensures len { length bytes.new ≡ length bytes.old }
{
    let front = open_front(bytes)?;
    let walked = hand_out(bytes, front.first, front.sums, Form::Plain, Reading::ALL);
    match walked.fault {
        Some(fault) => Err(fault),
        None => Ok(walked.len),
    }
}

/// Returns the same log without checksums, in the bytes themselves: each event without its checksum, its `log_pos` where it ends,
/// behind a format description with the checksum algorithm 0. A tagged GTID event becomes a Gtid event without the tag; of
/// MariaDB's events, the one that begins a transaction becomes `BEGIN`, and those that change nothing are left out. No memory is taken.
///
/// Fails at the first of these that holds: with `Log` if the bytes are no log of any algorithm (`TooLong` or `NotABinlog` at 0,
/// `CutEvent`, `BadFormat` or `OldServer` at 4); with `UnknownAlgorithm` at 4 if the checksum algorithm is neither 0 nor 1; with
/// `Log(CutEvent)` at an event that has no room for a checksum, `WrongSum` at one that doesn't end in its own, or `Encrypted` at one
/// behind which the log is encrypted, the first of these; with `Log(CutEvent)` where the events end before the log does.
pub fn plain<A: Allocator>(bytes: Vec<u8, A>) -> Result<Vec<u8, A>, SumFault>
    ensures exact { result_err result ≡ reading_fault bytes.items }
    ensures text { IfOk result (λ text. text.items ≡ plain_log bytes.items) }
{
    let mut bytes = bytes;
    let len = plain_in_place(&mut bytes)?;
    bytes.truncate(len as usize);
    Ok(bytes)
}
