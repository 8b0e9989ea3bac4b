//! A log that was opened: its bytes, as far as its first event a log of this profile.

ghost use Rattle.std.specs.Prelude.{◌≡◌, ◌≤◌, ◌<◌, ◌+◌, ◌^◌, length, take, drop, true, bytes_eq, Some, None, IfOk};
ghost use Rattle.std.specs.Result.{result_err};
ghost use Rattle.blog_event.specs.Event.{event_of, event_at, event_size};
ghost use Rattle.blog_event.specs.File.{magic};
ghost use Rattle.blog_event.specs.Format.{algorithm, format_fault};
ghost use Rattle.blog_event.specs.Opening.{opening_by, front_fault, unchecked};

use crate::event::Event;
use crate::fault::Fault;
use crate::format::{check_description, check_format};
use crate::reading::event_at;

/// The four bytes with which each log begins.
const MAGIC: &[u8] = b"\xfebin";

/// A log: the bytes of a file, which begins with the magic number and, at the byte position 4, a format description of
/// this profile. What comes after that event is unread.
#[derive(Clone, Copy, Debug)]
pub struct Log<'a> {
    bytes: &'a [u8],
    format: Event<'a>,
    seed: u64,
    pub ghost short: { length bytes.now < 2 ^ 32 },
    pub ghost mark: { bytes_eq (take 4 bytes.now) magic ≡ true },
    pub ghost stands: { event_at (drop 4 bytes.now) ≡ Some (event_of format) },
    pub ghost accepted: { format_fault (event_of format) ≡ None },
    pub ghost at: { format.pos ≡ 4 },
    pub ghost size: { format.header.size ≡ event_size (event_of format) },
    pub ghost within: { 4 + format.header.size ≤ length bytes.now },
}

/// Whether bytes begin with the magic number.
fn has_magic(bytes: &[u8]) -> bool
    ensures { result ≡ bytes_eq (take 4 bytes.now) magic }
{
    bytes.starts_with(MAGIC)
}

/// The event behind the magic number of a file. Fails with `TooLong` at 0 if there are more than 4,294,967,295 bytes, with
/// `NotABinlog` at 0 if they don't begin with the magic number, and with `CutEvent` at 4 if no event stands there.
fn first_event(bytes: &[u8]) -> Result<Event<'_>, Fault>
    ensures exact { result_err result ≡ opening_by unchecked bytes.now }
    ensures short { IfOk result (λ _. length bytes.now < 2 ^ 32) }
    ensures mark { IfOk result (λ _. bytes_eq (take 4 bytes.now) magic ≡ true) }
    ensures event { IfOk result (λ e. event_at (drop 4 bytes.now) ≡ Some (event_of e)) }
    ensures pos { IfOk result (λ e. e.pos ≡ 4) }
    ensures size { IfOk result (λ e. e.header.size ≡ event_size (event_of e)) }
    ensures within { IfOk result (λ e. 4 + e.header.size ≤ length bytes.now) }
{
    if bytes.len() > u32::MAX as usize {
        return Err(Fault::TooLong { pos: 0 });
    }
    if !has_magic(bytes) {
        return Err(Fault::NotABinlog { pos: 0 });
    }
    match event_at(bytes, 4) {
        Some(event) => Ok(event),
        None => Err(Fault::CutEvent { pos: 4 }),
    }
}

/// The format description of a file, the event at the byte position 4, and the checksum algorithm of the file's events: 0
/// none, 1 CRC-32; 0 for a server below 5.6.1. Fails as `Log::open` does, but never with `Checksums`.
#[tactic(auto, unfolding(crate::specs::Opening::front_fault))]
pub fn format_description(bytes: &[u8]) -> Result<(Event<'_>, u8), Fault>
    ensures exact { result_err result ≡ front_fault bytes.now }
    ensures short { IfOk result (λ _. length bytes.now < 2 ^ 32) }
    ensures event { IfOk result (λ found. event_at (drop 4 bytes.now) ≡ Some (event_of found.0)) }
    ensures pos { IfOk result (λ found. found.0.pos ≡ 4) }
    ensures size { IfOk result (λ found. found.0.header.size ≡ event_size (event_of found.0)) }
    ensures within { IfOk result (λ found. 4 + found.0.header.size ≤ length bytes.now) }
    ensures algorithm { IfOk result (λ found. found.1 ≡ algorithm found.0.body.now) }
{
    let event = first_event(bytes)?;
    let algorithm = check_description(&event)?;
    Ok((event, algorithm))
}

impl<'a> Log<'a> {
    ghost use Rattle.std.specs.Prelude.{Option, option_map, Ok, Err, IfErr};
    ghost use Rattle.std.specs.Result.{result_ok};
    ghost use Rattle.blog_event.specs.declared.fault.Fault.TheVariants.{CutEvent};
    ghost use Rattle.blog_event.specs.Opening.{opening_fault};
    ghost use Rattle.blog_event.specs.code.LogView.{log_bytes, log_seed};

    /// Opens the bytes of a file as a log. Fails at the first of these that holds: with `TooLong` at 0 if there are more
    /// than 4,294,967,295; with `NotABinlog` at 0 if they don't begin with the magic number; with `CutEvent` at 4 if no event
    /// stands there; with `BadFormat`, `OldServer` or `Checksums` at 4 if that event isn't a format description of this
    /// profile.
    #[tactic(auto, unfolding(crate::specs::Opening::opening_fault))]
    pub fn open(bytes: &'a [u8]) -> Result<Log<'a>, Fault>
        ensures exact { result_err result ≡ opening_fault bytes.now }
        ensures bytes { IfOk result (λ log. log_bytes log ≡ bytes.now) }
        ensures seed { IfOk result (λ log. log_seed log ≡ 0) }
    {
        let format = first_event(bytes)?;
        check_format(&format)?;
        Ok(Log {
            bytes,
            format,
            seed: 0,
        })
    }

    /// Returns the same log with another seed for hashing the names and ids of its tables. Nobody who doesn't know the
    /// seed can choose names or ids that collide. It changes how long calls take, but none of their results.
    pub fn with_seed(self, seed: u64) -> Log<'a>
        ensures bytes { log_bytes result ≡ log_bytes self.entry }
        ensures seed { log_seed result ≡ seed }
    {
        Log {
            bytes: self.bytes,
            format: self.format,
            seed,
        }
    }

    /// Returns the seed for hashing, which is 0 after `open`.
    pub fn seed(&self) -> u64
        ensures { result ≡ log_seed self.now }
    {
        self.seed
    }

    /// The bytes of the file.
    pub fn bytes(&self) -> &'a [u8]
        ensures bytes { result.now ≡ log_bytes self.now }
    {
        self.bytes
    }

    /// The format description, the event at the byte position 4.
    pub fn format(&self) -> Event<'a>
        ensures event { event_at (drop 4 (log_bytes self.now)) ≡ Some (event_of result) }
        ensures pos { result.pos ≡ 4 }
        ensures size { result.header.size ≡ event_size (event_of result) }
        ensures accepted { format_fault (event_of result) ≡ None }
        ensures opened { opening_fault (log_bytes self.now) ≡ None }
    {
        self.format
    }

    /// Where the second event begins, in bytes from the file's start: the first byte after the format description.
    pub fn first(&self) -> u32
        ensures event { option_map (λ e. 4 + event_size e) (event_at (drop 4 (log_bytes self.now))) ≡ Some result }
        ensures within { result ≤ length (log_bytes self.now) }
    {
        4 + self.format.header.size
    }

    /// How many bytes the log has: the byte position of its end.
    pub fn end(&self) -> u32
        ensures len { result ≡ length (log_bytes self.now) }
    {
        self.bytes.len() as u32
    }

    /// The event whose header begins at the byte position `at`. Fails with `CutEvent` at `at` if none stands there: fewer
    /// than 19 bytes are left, or the event's size is below 19 or reaches past the log's end.
    pub fn event_at(&self, at: u32) -> Result<Event<'a>, Fault>
        ensures event { option_map event_of (result_ok result) ≡ event_at (drop at (log_bytes self.now)) }
        ensures fault { IfErr result (λ fault. fault ≡ CutEvent at) }
        ensures pos { IfOk result (λ e. e.pos ≡ at) }
        ensures size { IfOk result (λ e. e.header.size ≡ event_size (event_of e)) }
        ensures within { IfOk result (λ e. at + e.header.size ≤ length (log_bytes self.now)) }
    {
        match event_at(self.bytes, at) {
            Some(event) => Ok(event),
            None => Err(Fault::CutEvent { pos: at }),
        }
    }
}
