//! Which transactions the arguments of `undo` and `redo` choose.

ghost use Rattle.std.specs.Prelude.{◌≡◌, IfErr, IfOk, codes, map};
ghost use Rattle.clap.specs.Words.{found_of};
ghost use Rattle.jiff.specs.Words.{plain_zone};
ghost use Rattle.binlog_arguments.specs.Request.{AreIds, HasUnits, IsUnitChoice, RefusesIds, RefusesUnits, all_values, chooses_units};

use crate::arguments::ArgumentsFault;
use crate::list_arguments::{THREAD_ID, read_gtids, read_numbers, read_paths, read_times};
use crate::options::{AT, GTID, THREAD};
use blog_choice::TableChoice;
use blog_request::{GlobalIds, Wanted};
use clap::{ArgMatches, Command};
use console::POSITION;
use jiff::tz::TimeZone;
use std::alloc::Allocator;

/// Which transactions of a part of a log are chosen: those that meet each condition that is given.
#[derive(Drop)]
pub struct UnitChoice<'a, A: Allocator> {
    /// Those that start at one of these positions, or have their `BEGIN` there; any if there are none.
    pub at: Vec<u32, A>,
    /// Those of this time or later, in seconds since 1970 in UTC.
    pub from_time: Option<u32>,
    /// Those before this time.
    pub to_time: Option<u32>,
    /// Those of these threads; of any if there are none.
    pub threads: Vec<u32, A>,
    /// Those with one of these global transaction ids; with any or none if there are none.
    pub gtids: Vec<GlobalIds<'a>, A>,
    /// These ids as they were given, in order.
    pub gtid_texts: Vec<&'a str, A>,
}

impl<A: Allocator> UnitChoice<'_, A> {
    /// Returns which units are wanted, wherever they start: of those at the asked positions, if there are some. Returns None if all of
    /// them are, and they aren't asked for one by one: no position, time, thread or id is given, and `each` is false.
    pub fn wanted(&self, each: bool) -> Option<Wanted<'_>>
        ensures { HasUnits each self.now result }
    {
        if !each && !self.chooses_some() {
            return None;
        }
        Some(Wanted {
            start: None,
            stop: None,
            from_time: self.from_time,
            to_time: self.to_time,
            threads: self.threads.as_slice(),
            gtids: self.gtids.as_slice(),
            choice: TableChoice {
                database: None,
                tables: &[],
                excluded: &[],
            },
        })
    }

    /// Whether a position, a time, a thread or an id is given.
    fn chooses_some(&self) -> bool
        ensures { result ≡ chooses_units self.now }
    {
        !self.at.is_empty()
            || self.from_time.is_some()
            || self.to_time.is_some()
            || !self.threads.is_empty()
            || !self.gtids.is_empty()
    }
}

/// Reads which transactions the arguments choose, with times in a zone.
pub(crate) fn read_unit_choice<'a, A: Allocator + Copy>(
    alloc: A,
    command: &mut Command<'a>,
    found: &ArgMatches<'a>,
    zone: TimeZone<'_>,
) -> Result<UnitChoice<'a, A>, ArgumentsFault<A>>
    ensures asked { IfOk result (IsUnitChoice (found_of found.now) (plain_zone zone.entry)) }
    ensures refused { IfErr result (RefusesUnits (found_of found.now)) }
{
    let times = read_times(alloc, command, found, zone)?;
    let at = read_numbers(alloc, command, found, AT, "POS", POSITION)?;
    let threads = read_numbers(alloc, command, found, THREAD, "N", THREAD_ID)?;
    let ids = read_asked_ids(alloc, command, found)?;
    Ok(UnitChoice {
        at,
        from_time: times.from,
        to_time: times.to,
        threads,
        gtids: ids.gtids,
        gtid_texts: ids.texts,
    })
}

/// Global transaction ids that are asked for.
#[derive(Drop)]
struct AskedIds<'a, A: Allocator> {
    gtids: Vec<GlobalIds<'a>, A>,
    /// As they were given.
    texts: Vec<&'a str, A>,
}

/// The global transaction ids that the arguments ask for, in order.
fn read_asked_ids<'a, A: Allocator + Copy>(
    alloc: A,
    command: &mut Command<'a>,
    found: &ArgMatches<'a>,
) -> Result<AskedIds<'a, A>, ArgumentsFault<A>>
    ensures gtids { IfOk result (λ ids. AreIds (all_values (found_of found.now) (codes "gtid")) ids.gtids.items) }
    ensures texts { IfOk result (λ ids. map (λ text. text.now) ids.texts.items ≡ all_values (found_of found.now) (codes "gtid")) }
    ensures refused { IfErr result (RefusesIds (all_values (found_of found.now) (codes "gtid"))) }
{
    Ok(AskedIds {
        gtids: read_gtids(alloc, command, found)?,
        texts: read_paths(alloc, found, GTID)?,
    })
}
