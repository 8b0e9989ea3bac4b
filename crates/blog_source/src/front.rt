//! The front of a log: its magic number and its format description.

ghost use Rattle.std.specs.Prelude.{◌≡◌, ◌≤◌, ◌+◌, ◌-◌, ◌++◌, length, take, drop, Some, IfOk};
ghost use Rattle.std.specs.Result.{result_err};
ghost use Rattle.blog_event.specs.Event.{Event, event_at, event_size, event_text};
ghost use Rattle.blog_event.specs.File.{magic};
ghost use Rattle.blog_sum.specs.Plain.{plain_format};
ghost use Rattle.blog_source.specs.Found.{source_refusal};
ghost use Rattle.blog_source.specs.code.Fronts.{HasFront, IsFront};

use blog_event::format_description;
use blog_sum::{SumFault, check_format_sum, crc_not_in_use};
use byteorder::{ByteOrder, LittleEndian};

/// How many bytes the checksum algorithm and the sum of a format description have.
const TAIL_LEN: usize = 5;

/// What the front of a log says.
#[derive(Clone, Copy, Debug)]
pub(crate) struct Front {
    /// Where the second event begins.
    pub(crate) first: u32,
    /// Whether each event ends in its sum.
    pub(crate) sums: bool,
}

/// The last five bytes of the format description of a log, of so many bytes, once it says that there are no sums: the checksum
/// algorithm 0, and its own sum.
fn plain_tail(bytes: &[u8], size: u32) -> [u8; 5]
    requires mark { take 4 bytes.now ≡ magic }
    requires long { 24 ≤ size }
    requires within { 4 + size ≤ length bytes.now }
    ensures text { (e : Event) → event_at (drop 4 bytes.now) ≡ Some e → size ≡ event_size e
        → take (4 + size - 5) bytes.now ++ result ≡ magic ++ event_text (plain_format e) }
{
    let place = 4 + size as usize - TAIL_LEN;
    let mut crc = crc_not_in_use(&bytes[4..place]);
    crc.update(&[0]);
    let mut tail = [0u8; 5];
    LittleEndian::write_u32(&mut tail[1..], crc.value());
    tail
}

/// Makes the format description of a log, of so many bytes, say that there are no sums.
fn clear_algorithm(bytes: &mut [u8], size: u32)
    requires mark { take 4 bytes.old ≡ magic }
    requires long { 24 ≤ size }
    requires within { 4 + size ≤ length bytes.old }
    ensures text { (e : Event) → event_at (drop 4 bytes.old) ≡ Some e → size ≡ event_size e → take (4 + size) bytes.new ≡ magic ++ event_text (plain_format e) }
    ensures behind { drop (4 + size) bytes.new ≡ drop (4 + size) bytes.old }
    ensures len { length bytes.new ≡ length bytes.old }
{
    let end = 4 + size as usize;
    let tail = plain_tail(bytes, size);
    bytes[end - TAIL_LEN..end].copy_from_slice(&tail);
}

/// Reads the front of a log. Fails with `Log` if the bytes are no log of any algorithm (`TooLong` or `NotABinlog` at 0,
/// `CutEvent`, `BadFormat` or `OldServer` at 4); with `UnknownAlgorithm` at 4 if the algorithm is neither 0 nor 1; with
/// `WrongSum` at 4 if the format description of a log with sums doesn't end in its own.
#[tactic(auto, unfolding(crate::specs::Found::source_refusal))]
fn read_front(bytes: &[u8]) -> Result<Front, SumFault>
    ensures exact { result_err result ≡ source_refusal bytes.now }
    ensures front { IfOk result (λ front. IsFront front bytes.now) }
{
    let (format, algorithm) = format_description(bytes)?;
    let first = 4 + format.header.size;
    match algorithm {
        0 => Ok(Front { first, sums: false }),
        1 => {
            check_format_sum(bytes, &format)?;
            Ok(Front { first, sums: true })
        }
        _ => Err(SumFault::UnknownAlgorithm { pos: 4 }),
    }
}

/// Reads the front of a log, and makes it say that there are no sums. Fails as `read_front`, and changes nothing then.
pub(crate) fn open_front(bytes: &mut [u8]) -> Result<Front, SumFault>
    ensures exact { result_err result ≡ source_refusal bytes.old }
    ensures front { IfOk result (λ front. HasFront front bytes.old bytes.new) }
{
    let front = read_front(bytes)?;
    if front.sums {
        clear_algorithm(bytes, front.first - 4);
    }
    Ok(front)
}
