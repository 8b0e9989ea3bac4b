//! Showing the rows of logs in turn.

ghost use Rattle.std.specs.Prelude.{◌≡◌, ◌⊎◌, ◌<◌, IfErr, IfOk, length};
ghost use Rattle.blog_device.specs.Watched.{device_of};
ghost use Rattle.list_run.specs.Listed.{IsRead, MayFollow, NamedLog, end_of};
ghost use Rattle.show_run.specs.Shown.{IsFormOf, ShowsLogs, ShowsNamed, listing_in};
ghost use Rattle.show_run.specs.code.Turns.{EndsWith, FailsOne, showing_of};

use crate::source_rows::{Page, Shown, show_source};
use crate::turns::{Asked, Turn};
use blog_device::Watched;
use blog_reasons::Reasons;
use blog_request::Wanted;
use blog_show::{RowForm, RowStyle};
use blog_source::Reading;
use blog_sum::SumFault;
use list_run::{GivenLog, ListFault, earlier, look, read_source};
use std::alloc::Allocator;
use std::io::{Read, Write};

/// Shows the rows that the wanted units of logs change, a line each, and why a wanted unit is none of which rows are known. The logs are read in
/// turn, one at a time in memory. Where there are several, what is shown of each is below its name, on lines for people; in JSON each object has the
/// name of its log, in place of that of the form; and in CSV the columns are named above the first row, and where their names change. If there are positions in `at`, units are wanted
/// that have an event at one of them. Returns how many units were shown.
///
/// A start of what is wanted is one of the first log, and a stop one of the last. Each log is shown up to its end, and so are
/// those behind a log that ends early, or is damaged behind what was shown: `EndsEarly` of the first of these, by its number from
/// 0 on. Of a log that can't be read, or of which nothing can be read, and of those behind it nothing is shown: `Run` and `Unread` by its
/// number. `Run(Write)` where a write failed.
///
/// Where no unit is shown, `reasons` are of all logs then, and say why. They are taken away where a unit is shown, and where memory
/// for them was refused.
pub fn show_logs<A: Allocator + Copy, R: Read + Drop, W: Write>(
    alloc: A,
    logs: Vec<GivenLog<'_, R>, A>,
    how: Reading,
    wanted: &Wanted<'_>,
    at: &[u32],
    seed: u64,
    style: &RowStyle<'_>,
    reasons: &mut Option<Reasons<'_, A>>,
    writer: &mut Watched<W>,
) -> Result<u64, (usize, ListFault)>
    ensures shown { ShowsLogs R.remaining style.now.form
        (record { how = how; wanted = wanted.now; places = at.now; count = length logs.entry.items }) logs.entry.items
        (W.contents (device_of writer.old)) (W.contents (device_of writer.new)) result }

    // Where nothing can be read of the first log, nothing is written.
    ensures unwritten { IfErr result (λ e. (0 < e.0) ⊎ (writer.new ≡ writer.old) ⊎ MayFollow e.1) }
{
    let mut turn = Turn {
        how,
        all: Asked {
            wanted: *wanted,
            at,
            seed,
        },
        count: logs.len(),
        n: 0,
    };
    let mut page = Page::new(alloc);
    let mut units = 0u64;
    let mut end = None;
    'logs: for given in logs {
        match show_one(alloc, &mut page, given, &turn, style, reasons, writer) {
            Ok(shown) => {
                units = units.saturating_add(shown.units);
                end = earlier(end, turn.n, shown.end);
            }
            Err(fault) => return Err((turn.n, fault)),
        }
        turn.n += 1;
    }
    ended(units, end)
}

/// What comes of showing all logs: how many units were shown, or the first early end.
fn ended(units: u64, end: Option<(usize, SumFault)>) -> Result<u64, (usize, ListFault)>
    ensures end { EndsWith end result }
    ensures follows { IfErr result (λ e. MayFollow e.1) }
{
    match end {
        Some((n, fault)) => Err((n, ListFault::EndsEarly(fault))),
        None => Ok(units),
    }
}

/// Reads a log when its turn comes, and shows it.
fn show_one<A: Allocator + Copy, R: Read + Drop, W: Write>(
    alloc: A,
    page: &mut Page<A>,
    given: GivenLog<'_, R>,
    turn: &Turn<'_>,
    style: &RowStyle<'_>,
    reasons: &mut Option<Reasons<'_, A>>,
    writer: &mut Watched<W>,
) -> Result<Shown, ListFault>
    requires { turn.now.n < turn.now.count }
    ensures shown { IfOk result (λ shown. (log : NamedLog) × IsRead R.remaining given.entry log
        × (shown.end ≡ end_of (listing_in (showing_of turn.now)) turn.now.n log)
        × ShowsNamed style.now.form (showing_of turn.now) turn.now.n log (W.contents (device_of writer.old)) (W.contents (device_of writer.new))) }
    ensures fault { IfErr result (FailsOne R.remaining given.entry) }
    ensures unwritten { IfErr result (λ e. (writer.new ≡ writer.old) ⊎ MayFollow e) }
{
    let name = turn.name(given.name);
    let style = RowStyle {
        form: form_of(&style.form, given.name),
        ..*style
    };
    let source = read_source(alloc, given.reader, turn.how)?;
    let asked = turn.asked();
    match show_source(alloc, page, &source, name, &asked, &style, writer) {
        Ok(shown) => {
            if shown.units > 0 || look(reasons, &source, asked.seed, &asked.wanted).is_none() {
                *reasons = None;
            }
            Ok(shown)
        }
        Err(fault) => Err(ListFault::Run(fault)),
    }
}

/// The form in which the rows of the log of a name are shown.
fn form_of<'n>(form: &RowForm<'_>, name: &'n str) -> RowForm<'n>
    ensures { IsFormOf form.now name.now result }
{
    match form {
        RowForm::Lines => RowForm::Lines,
        RowForm::Json { .. } => RowForm::Json {
            log: name.as_bytes(),
        },
        RowForm::Csv => RowForm::Csv,
    }
}
