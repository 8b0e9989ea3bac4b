//! Devices that remember whether one of their calls failed.

ghost use Rattle.std.specs.Prelude.{◌≡◌, ◌||◌, false};
ghost use Rattle.std.specs.Result.{is_err};
ghost use Rattle.std.specs.Io.{ReadsAtMost, WritesAtMost};
ghost use Rattle.std.specs.Io.KnownBytes.{Keeps, ReadConsumes, WriteAppends};
ghost use Rattle.blog_device.specs.Watched.{device_of, has_failed, is_failed_write};

use std::io;
use std::io::{Read, Write};

/// A device and a mark: whether a call of the device has failed. Nothing clears the mark.
/// An interrupted call counts as failed. Takes no memory of its own.
#[derive(Debug, Drop)]
pub struct Watched<D> {
    device: D,
    failed: bool,
}

impl<D> Watched<D> {
    /// Watches the device, of which no call has failed yet.
    pub fn new(device: D) -> Self
        ensures device { device_of result ≡ device }
        ensures mark { has_failed result ≡ false }
    {
        Watched {
            device,
            failed: false,
        }
    }

    /// The mark: whether a call of the device has failed since it was put under watch.
    pub fn failed(&self) -> bool
        ensures { result ≡ has_failed self.now }
    {
        self.failed
    }

    /// The device itself.
    pub fn device(&self) -> &D
        ensures { result.now ≡ device_of self.now }
    {
        &self.device
    }
}

impl<D: Read> Watched<D> {
    /// Reads once: the device's own call and answer. An error sets the mark.
    pub fn read(&mut self, buf: &mut [u8]) -> io::Result<usize>
        ensures bound { ReadsAtMost result buf.new }
        ensures bytes { ReadConsumes (D.remaining (device_of self.old)) (D.remaining (device_of self.new))
            result buf.new }
        ensures mark { has_failed self.new ≡ (has_failed self.old || is_err result) }
    {
        let result = self.device.read(buf);
        self.failed = self.failed || result.is_err();
        result
    }
}

impl<D: Write> Watched<D> {
    /// Writes once: the device's own call and answer. An error sets the mark, and so does a write
    /// that takes nothing of bytes that are there.
    pub fn write(&mut self, buf: &[u8]) -> io::Result<usize>
        ensures bound { WritesAtMost result buf.now }
        ensures bytes { WriteAppends (D.contents (device_of self.old)) (D.contents (device_of self.new))
            result buf.now }
        ensures mark { has_failed self.new ≡ (has_failed self.old || is_failed_write result buf.now) }
    {
        let result = self.device.write(buf);
        let failed = match &result {
            Ok(taken) => *taken == 0 && !buf.is_empty(),
            Err(_) => true,
        };
        self.failed = self.failed || failed;
        result
    }

    /// Flushes: the device's own call and answer. An error sets the mark.
    pub fn flush(&mut self) -> io::Result<()>
        ensures bytes { Keeps (D.contents (device_of self.old)) (D.contents (device_of self.new)) }
        ensures mark { has_failed self.new ≡ (has_failed self.old || is_err result) }
    {
        let result = self.device.flush();
        self.failed = self.failed || result.is_err();
        result
    }
}
