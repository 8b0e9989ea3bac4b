//! Logs, event by event.

use crate::sums::Ending;
use blog_sum::crc32;
use sample_logs::builder::NEWER_FRONT;
use sample_logs::summed::CLOSED;
use std::alloc::{AllocError, Global};

/// A log that is made event by event.
#[derive(Drop)]
pub struct Events {
    /// Its bytes.
    pub bytes: Vec<u8>,
    /// The timestamp of events to come.
    pub time: u32,
    sums: bool,
}

/// A number in four bytes, the lowest first.
fn four_bytes(number: usize) -> [u8; 4] {
    let [first, second, third, fourth, ..] = number.to_le_bytes();
    [first, second, third, fourth]
}

/// A number of four bytes.
pub fn low_half(number: usize) -> u32 {
    u32::from_le_bytes(four_bytes(number))
}

impl Events {
    /// A log that has nothing yet.
    pub fn new(alloc: Global) -> Events {
        Events {
            bytes: Vec::new(alloc),
            time: 0,
            sums: false,
        }
    }

    /// Begins the next log, with checksums or without.
    pub fn start(&mut self, time: u32, sums: bool) -> Result<(), AllocError> {
        self.bytes.clear();
        self.time = time;
        self.sums = sums;
        if sums {
            self.bytes.extend_from_slice(&CLOSED[..127])
        } else {
            self.bytes.extend_from_slice(&NEWER_FRONT)
        }
    }

    /// How long the log is.
    pub fn len(&self) -> usize {
        self.bytes.len()
    }

    /// Appends an event.
    pub fn put(&mut self, kind: u8, flags: u16, body: &[&[u8]]) -> Result<(), AllocError> {
        let sum = self.put_unsummed(kind, flags, body, &[])?;
        self.put_sum(sum)
    }

    /// Appends an event whose body ends with bytes of which this is known.
    pub fn put_ending(
        &mut self,
        kind: u8,
        flags: u16,
        body: &[&[u8]],
        rest: &[u8],
        ending: &Ending,
    ) -> Result<(), AllocError> {
        let sum = self.put_unsummed(kind, flags, body, rest)?;
        self.bytes.extend_from_slice(rest)?;
        self.put_sum(if self.sums { ending.sum_after(sum) } else { 0 })
    }

    /// Appends an event without the rest of its body and its checksum. Returns the CRC-32 of that if events have checksums,
    /// else 0.
    fn put_unsummed(
        &mut self,
        kind: u8,
        flags: u16,
        body: &[&[u8]],
        rest: &[u8],
    ) -> Result<u32, AllocError> {
        let start = self.bytes.len();
        let fixed = if self.sums { 23 } else { 19usize };
        let size = body
            .iter()
            .fold(fixed.wrapping_add(rest.len()), |size, part| {
                size.wrapping_add(part.len())
            });
        self.bytes.extend_from_slice(&self.time.to_le_bytes())?;
        self.bytes.extend_from_slice(&[kind, 1, 0, 0, 0])?;
        self.bytes.extend_from_slice(&four_bytes(size))?;
        let end = start.wrapping_add(size);
        self.bytes.extend_from_slice(&four_bytes(end))?;
        self.bytes.extend_from_slice(&flags.to_le_bytes())?;
        for part in body {
            self.bytes.extend_from_slice(part)?;
        }
        Ok(match self.bytes.as_slice().get(start..) {
            Some(event) if self.sums => crc32(event),
            _ => 0,
        })
    }

    /// Appends the checksum of an event, if events have one.
    fn put_sum(&mut self, sum: u32) -> Result<(), AllocError> {
        if self.sums {
            self.bytes.extend_from_slice(&sum.to_le_bytes())?;
        }
        Ok(())
    }

    /// Appends the GTID event of a transaction of this number.
    pub fn put_gtid(&mut self, number: u64) -> Result<(), AllocError> {
        // of the first transaction of the sample: the flags, the server's UUID and what follows the number
        let gtid = &CLOSED[217..273];
        self.put(33, 0, &[&gtid[..17], &number.to_le_bytes(), &gtid[25..]])
    }

    /// Appends a query of this thread in the schema `shop`, by the parts of its text.
    pub fn put_query(
        &mut self,
        thread: u32,
        flags: u16,
        text: [&[u8]; 3],
    ) -> Result<(), AllocError> {
        // of the same transaction: what is between the thread and the text
        let [head, middle, tail] = text;
        let thread = thread.to_le_bytes();
        self.put(2, flags, &[&thread, &CLOSED[300..343], head, middle, tail])
    }

    /// Begins a transaction of this number: its GTID event and its `BEGIN` in the schema `shop`.
    pub fn begin(&mut self, number: u64, thread: u32) -> Result<(), AllocError> {
        self.put_gtid(number)?;
        self.put_query(thread, 8, [b"BEGIN", b"", b""])
    }

    /// Ends a transaction of this number.
    pub fn end(&mut self, number: u64) -> Result<(), AllocError> {
        self.put(16, 0, &[&number.to_le_bytes()])
    }
}
