//! A report of logs in turn.

ghost use Rattle.std.specs.Prelude.{◌≡◌, ◌<◌, ◌+◌, IfOk, length};
ghost use Rattle.blog_list.specs.declared.listing.Sorting.TheVariants.{Place};
ghost use Rattle.blog_report.specs.Sums.{at_most};
ghost use Rattle.blog_report.specs.code.ReportView.{IsWhole, said_of};
ghost use Rattle.blog_source.specs.Found.{found_of};
ghost use Rattle.blog_source.specs.Handed.{handed_log};
ghost use Rattle.list_run.specs.Listed.{IsRead, NamedLog, end_of};
ghost use Rattle.show_run.specs.Reported.{IsReportOf, wanted_units, with_log};
ghost use Rattle.show_run.specs.Shown.{listing_in, wanted_in};
ghost use Rattle.show_run.specs.code.Becomes.{Becomes};
ghost use Rattle.show_run.specs.code.Turns.{showing_of};

use crate::source_report::report_source;
use crate::source_rows::Shown;
use crate::turns::{Asked, Turn};
use blog_reasons::Reasons;
use blog_report::Report;
use blog_request::Wanted;
use blog_source::Reading;
use blog_sum::SumFault;
use list_run::{GivenLog, ListFault, earlier, look, read_source};
use std::alloc::Allocator;
use std::io::Read;

/// A report of logs, and how their reading ended.
#[derive(Drop)]
pub struct Reported<A: Allocator> {
    pub report: Report<A>,
    /// How many units it is of.
    pub units: u64,
    /// The first log that ends early, by its number from 0 on, and why.
    pub end: Option<(usize, SumFault)>,
}

/// Reports the wanted units of logs. The logs are read in turn, one at a time in memory. Rows are counted by intervals of so many seconds; by as
/// many as the report chooses, if they aren't given.
///
/// A start of what is wanted is one of the first log, and a stop one of the last. Each log is reported up to its end, and so are those after a log
/// that ends early, or is damaged after what was reported. Fails with `Run` and `Unread`, by the number of the log, for one that can't be read, or of
/// which nothing can be read.
///
/// Where no unit is reported, `reasons` are of all logs then, and say why. They are taken away where a unit is reported, and where memory for them
/// was refused.
pub fn report_logs<A: Allocator + Copy, R: Read + Drop>(
    alloc: A,
    logs: Vec<GivenLog<'_, R>, A>,
    how: Reading,
    wanted: &Wanted<'_>,
    interval: Option<u32>,
    seed: u64,
    reasons: &mut Option<Reasons<'_, A>>,
) -> Result<Reported<A>, (usize, ListFault)>
    ensures reported { IfOk result (λ reported. IsReportOf R.remaining
        (record { how = how; wanted = wanted.now; sorting = Place; count = length logs.entry.items }) logs.entry.items
        reported.end reported.units (said_of reported.report)) }

    // The rows of all intervals, and those of all tables, are the totals.
    ensures whole { IfOk result (λ reported. IsWhole reported.report) }
{
    let mut turn = Turn {
        how,
        all: Asked {
            wanted: *wanted,
            at: &[],
            seed,
        },
        count: logs.len(),
        n: 0,
    };
    let mut report = Report::new(alloc, seed, interval);
    let mut units = 0u64;
    let mut end = None;
    'logs: for given in logs {
        match report_one(alloc, &mut report, given, &turn, reasons) {
            Ok(shown) => {
                units = units_with(units, shown.units);
                end = earlier(end, turn.n, shown.end);
            }
            Err(fault) => return Err((turn.n, fault)),
        }
        turn.n += 1;
    }
    Ok(Reported { report, units, end })
}

/// So many units and more, or the greatest number of 64 bits.
fn units_with(units: u64, more: u64) -> u64
    ensures { result ≡ at_most (units + more) }
{
    units.saturating_add(more)
}

/// Reads a log when its turn comes, and reports it.
fn report_one<A: Allocator + Copy, R: Read + Drop>(
    alloc: A,
    report: &mut Report<A>,
    given: GivenLog<'_, R>,
    turn: &Turn<'_>,
    reasons: &mut Option<Reasons<'_, A>>,
) -> Result<Shown, ListFault>
    requires { turn.now.n < turn.now.count }
    ensures { IfOk result (λ shown. (log : NamedLog) × IsRead R.remaining given.entry log
        × (shown.end ≡ end_of (listing_in (showing_of turn.now)) turn.now.n log)
        × (shown.units ≡ at_most (length (wanted_units (wanted_in (showing_of turn.now) turn.now.n) (handed_log turn.now.how log.bytes))))
        × Becomes report.old report.new (with_log turn.now.n (wanted_in (showing_of turn.now) turn.now.n)
        (handed_log turn.now.how log.bytes) (found_of turn.now.how log.bytes).end (said_of report.old))) }
{
    let source = read_source(alloc, given.reader, turn.how)?;
    let asked = turn.asked();
    match report_source(alloc, report, &source, turn.n, &asked) {
        Ok(shown) => {
            if shown.units > 0 || look(reasons, &source, asked.seed, &asked.wanted).is_none() {
                *reasons = None;
            }
            Ok(shown)
        }
        Err(fault) => Err(ListFault::Run(fault)),
    }
}
