//! A list of the units of a log, which is written while it is made.

ghost use Rattle.std.specs.Prelude.{◌≡◌, ◌||◌, ◌⊎◌, ◌∷◌, [], IfErr, IfOk, IsSome, None, OnErr, OnOk, map};
ghost use Rattle.jiff.specs.Words.{plain_zone};
ghost use Rattle.blog_event.specs.Opening.{opening_fault};
ghost use Rattle.blog_event.specs.code.LogView.{log_bytes};
ghost use Rattle.blog_event.specs.declared.fault.Fault.TheVariants.{OutOfMemory};
ghost use Rattle.blog_device.specs.Devices.{is_write_fault};
ghost use Rattle.blog_device.specs.Watched.{device_of, has_failed};
ghost use Rattle.blog_source.specs.code.SourceView.{damaged_of, log_of};
ghost use Rattle.blog_units.specs.Units.{facts_of, units};
ghost use Rattle.blog_list.specs.Lists.{Lists};
ghost use Rattle.blog_list.specs.Shown.{last_whole, log_list};
ghost use Rattle.blog_list.specs.Texts.{AppendsList, AppendsListBeginning};
ghost use Rattle.blog_list.specs.code.Told.{end_listed, listed, source_place};

use crate::list_end::early_end;
use crate::list_writer::{ListWriter, open_log};
use crate::places::wanted_inside;
use crate::totals::Totals;
use blog_device::{RunFault, Watched, put};
use blog_event::Log;
use blog_request::Wanted;
use blog_source::Source;
use blog_sum::SumFault;
use jiff::tz::TimeZone;
use std::alloc::{Allocator, Global};
use std::io::Write;

/// In which form units are listed.
#[derive(Clone, Copy, Debug, PartialEq, Eq)]
pub enum Form {
    /// A line of text for each, below a header.
    Text,
    /// An object of JSON for each, on a line of its own.
    Json,
}

/// In which order the units of a log are listed.
#[derive(Clone, Copy, Debug, PartialEq, Eq)]
pub enum Sorting {
    /// In that of the log.
    Place,
    /// The most rows of chosen tables first, and those with as many in the order of the log. A unit that can't be undone has none.
    Rows,
}

/// How a list is written.
#[derive(Clone, Copy)]
pub struct Style<'z> {
    /// Its form.
    pub form: Form,
    /// The time zone of the clock that its times are those of.
    pub zone: TimeZone<'z>,
    /// Whether lines of text have global transaction ids. Those of JSON always have.
    pub gtids: bool,
    /// In which order units are listed. By rows, memory is taken for the lines of a log.
    pub sorting: Sorting,
    /// The seed by which names and ids of tables are hashed (`Log::with_seed`). No line depends on it.
    pub seed: u64,
}

/// Lists the wanted units of a log: a line for each, a line that counts them, and a line each for the statements and for the
/// damaged events that were passed over, if there were any. In the order of the log they are written while they are found; they are
/// written by some 64 KB at once.
///
/// The log is that of a source. Positions that are given and written are those of the server's log.
///
/// Returns why the list ends early, if it does: the fault with which the reading of the source ended, or `Unended` where the
/// log ends inside a transaction. Where units stop being wanted at a position, what begins there or behind it is neither listed
/// nor reported.
///
/// Fails with `Log` of the fault of a log that can't be opened, of which nothing is written, with `Log(OutOfMemory)`, and with
/// `Write` where a write failed. Memory is taken from `alloc`, and for some strings in lines of JSON from `global`.
pub fn list<A: Allocator + Copy, O: Write>(
    global: Global,
    alloc: A,
    source: &Source<A>,
    wanted: &Wanted<'_>,
    style: &Style<'_>,
    writer: &mut Watched<O>,
) -> Result<Option<SumFault>, RunFault>
    ensures refused { IsSome (opening_fault (log_of source.now)) → writer.new ≡ writer.old }
    ensures lists { Lists (log_of source.now) result }
    ensures mark { has_failed writer.new ≡ (has_failed writer.old || is_write_fault result) }
    ensures text { OnOk result (AppendsList style.now.form (plain_zone style.now.zone) style.now.gtids (listed None style.now.sorting source.now wanted.now ∷ []) (O.contents (device_of writer.old)) (O.contents (device_of writer.new))) }
    ensures beginning { OnErr result (AppendsListBeginning style.now.form (plain_zone style.now.zone) style.now.gtids (listed None style.now.sorting source.now wanted.now ∷ []) (O.contents (device_of writer.old)) (O.contents (device_of writer.new))) }
    ensures end { IfOk result (λ end. end ≡ end_listed source.now wanted.now) }
{
    let mut totals = Totals::NONE;
    list_counted(global, alloc, source, wanted, style, &mut totals, writer)
}

/// The same as `list`, and returns the totals that it wrote in `totals`, which mean nothing after a failure.
pub fn list_counted<A: Allocator + Copy, O: Write>(
    global: Global,
    alloc: A,
    source: &Source<A>,
    wanted: &Wanted<'_>,
    style: &Style<'_>,
    totals: &mut Totals,
    writer: &mut Watched<O>,
) -> Result<Option<SumFault>, RunFault>
    ensures refused { IsSome (opening_fault (log_of source.now)) → writer.new ≡ writer.old }
    ensures lists { Lists (log_of source.now) result }
    ensures mark { has_failed writer.new ≡ (has_failed writer.old || is_write_fault result) }
    ensures text { OnOk result (AppendsList style.now.form (plain_zone style.now.zone) style.now.gtids (listed None style.now.sorting source.now wanted.now ∷ []) (O.contents (device_of writer.old)) (O.contents (device_of writer.new))) }
    ensures beginning { OnErr result (AppendsListBeginning style.now.form (plain_zone style.now.zone) style.now.gtids (listed None style.now.sorting source.now wanted.now ∷ []) (O.contents (device_of writer.old)) (O.contents (device_of writer.new))) }
    ensures end { IfOk result (λ end. end ≡ end_listed source.now wanted.now) }
{
    let log = match open_log(source, style.seed) {
        Ok(log) => log,
        Err(fault) => return Err(RunFault::Log(fault)),
    };
    let inside = wanted_inside(source, wanted);
    match list_opened(global, alloc, source, &log, &inside, style, totals, writer)? {
        Some(whole) => Ok(early_end(source, whole, wanted.stop)),
        None => Ok(None),
    }
}

/// Lists the wanted units of the log of a source, which is opened, by positions of that log. Returns whether its last unit is
/// whole, and None where units stopped being wanted before.
fn list_opened<A: Allocator + Copy, O: Write>(
    global: Global,
    alloc: A,
    source: &Source<A>,
    log: &Log<'_>,
    wanted: &Wanted<'_>,
    style: &Style<'_>,
    totals: &mut Totals,
    writer: &mut Watched<O>,
) -> Result<Option<bool>, RunFault>
    ensures fault { IfErr result (λ e. (e ≡ RunFault.Log OutOfMemory) ⊎ (e ≡ RunFault.Write)) }
    ensures mark { has_failed writer.new ≡ (has_failed writer.old || is_write_fault result) }
    ensures text { OnOk result (AppendsList style.now.form (plain_zone style.now.zone) style.now.gtids (log_list None style.now.sorting wanted.now (log_bytes log.now) (source_place source.now) (damaged_of source.now) ∷ []) (O.contents (device_of writer.old)) (O.contents (device_of writer.new))) }
    ensures beginning { OnErr result (AppendsListBeginning style.now.form (plain_zone style.now.zone) style.now.gtids (log_list None style.now.sorting wanted.now (log_bytes log.now) (source_place source.now) (damaged_of source.now) ∷ []) (O.contents (device_of writer.old)) (O.contents (device_of writer.new))) }
    ensures end { IfOk result (λ whole. whole ≡ last_whole wanted.now.stop (map facts_of (units (log_bytes log.now)))) }
{
    let list = ListWriter::new(global, alloc, style)?;
    let mut text = Vec::new(alloc);
    *totals = Totals::NONE;
    list.put_header(&mut text)?;
    let whole = list.put_log(&mut text, source, log, None, wanted, totals, writer)?;
    list.put_totals(&mut text, totals)?;
    put(writer, &text)?;
    Ok(whole)
}
