//! What is known of a unit before its changes are looked at.

ghost use Rattle.std.specs.Prelude.{◌≤◌};
ghost use Rattle.blog_event.specs.code.LogView.{log_bytes};
ghost use Rattle.blog_units.specs.code.Boundaries.{IsBoundary};

use crate::unit::GlobalId;
use blog_event::Log;

/// What is known of a unit of a log, before its changes are looked at. A unit is a transaction, or what stands outside of transactions
/// and can't be undone, with the Gtid event in front of it.
#[derive(Clone, Copy)]
pub struct UnitFacts<'a> {
    /// Where it starts, in bytes from the file's start.
    pub start: u32,
    /// Where it stops: the byte position behind its last event.
    pub stop: u32,
    /// The time of its first Query or rows event, or of its first event where there is none: seconds since 1970, in UTC.
    pub time: u32,
    /// The thread that wrote its first Query event, if it has one that can be read.
    pub thread: Option<u32>,
    /// Its global transaction id, where it begins with one.
    pub id: Option<GlobalId<'a>>,
    /// Whether it is whole: no transaction without an end, and no Gtid event without a transaction or a statement. The log goes
    /// on behind such a unit with another one, or ends there.
    pub whole: bool,
    pub(crate) log: Log<'a>,
    ghost boundary: { IsBoundary (log_bytes log) start },
    ghost order: { start ≤ stop },
}
