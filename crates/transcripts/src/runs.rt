//! Runs of a program, and what they have to write.

use crate::wrong::Wrong;
use std::process::ExitCode;
use testkit::runs::Outcome;

/// A program in tests.
pub trait Program {
    /// Returns its name.
    fn name(&self) -> &'static str;

    /// Runs it with these arguments, of which the first is its name.
    fn run(&self, rt: &HostRuntime, arguments: Vec<String>) -> Outcome;
}

/// A run, and what it has to be.
#[derive(Drop)]
pub(crate) struct Run {
    pub(crate) status: ExitCode,
    pub(crate) wanted_status: u8,
    pub(crate) output: Output,
    pub(crate) errors: Output,
}

impl Run {
    /// Checks the status, and what was written.
    pub(crate) fn check(&self, rt: &HostRuntime) -> Result<(), Wrong> {
        if self.status != ExitCode::from(self.wanted_status) {
            return Err(Wrong::Status(self.errors.text(rt)?));
        }
        self.output.check(rt)?;
        self.errors.check(rt)
    }
}

/// What a run wrote to standard output, or to standard error, and what it has to be.
#[derive(Drop)]
pub(crate) struct Output {
    /// What it wrote, in which the path of the folder is `@`.
    pub(crate) written: Vec<u8>,
    /// What it has to be.
    wanted: Vec<u8>,
    /// How many of its lines were looked at, from the first on.
    seen_lines: usize,
    /// Whether it is looked at in another way.
    is_seen: bool,
}

impl Output {
    pub(crate) fn new(rt: &HostRuntime, written: Vec<u8>) -> Output {
        Output {
            written,
            wanted: Vec::new(rt.alloc()),
            seen_lines: 0,
            is_seen: false,
        }
    }

    /// It has to have these bytes next.
    pub(crate) fn expect(&mut self, bytes: &[u8]) -> Result<(), Wrong> {
        self.wanted.extend_from_slice(bytes)?;
        Ok(())
    }

    /// It has to have this line next.
    pub(crate) fn expect_line(&mut self, line: &str) -> Result<(), Wrong> {
        self.expect(line.as_bytes())?;
        self.expect(b"\n")
    }

    /// Takes whether something else holds of it.
    pub(crate) fn see(&mut self, rt: &HostRuntime, holds: bool, what: &str) -> Result<(), Wrong> {
        self.is_seen = true;
        if holds {
            Ok(())
        } else {
            Err(Wrong::NotWritten(String::from_str(rt.alloc(), what)?))
        }
    }

    /// Takes whether its next line begins so. The last one has an end.
    pub(crate) fn see_line(&mut self, rt: &HostRuntime, text: &str) -> Result<(), Wrong> {
        let line = str::from_utf8(&self.written)?.lines().nth(self.seen_lines);
        let begins = line.is_some_and(|line| line.starts_with(text));
        let is_ended = self.written.ends_with(b"\n");
        self.seen_lines = self.seen_lines.saturating_add(1);
        self.see(rt, begins && is_ended, text)
    }

    fn check(&self, rt: &HostRuntime) -> Result<(), Wrong> {
        let is_wanted = self.written == self.wanted;
        if is_wanted || (self.is_seen && self.wanted.is_empty()) {
            Ok(())
        } else {
            Err(Wrong::Written(self.text(rt)?))
        }
    }

    /// What is written, as far as it is text.
    fn text(&self, rt: &HostRuntime) -> Result<String, Wrong> {
        Ok(String::from_str(rt.alloc(), str::from_utf8(&self.written)?)?)
    }
}
