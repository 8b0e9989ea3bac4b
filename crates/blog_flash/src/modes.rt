//! What is answered to a log.

ghost use Rattle.std.specs.Prelude.{◌≡◌, ◌≤◌, IfOk, IfErr, IsTrue, IsFalse, length, map};
ghost use Rattle.std.specs.Result.{result_err};
ghost use Rattle.blog_event.specs.File.{end_of, read};
ghost use Rattle.blog_event.specs.Opening.{opening_fault};
ghost use Rattle.blog_event.specs.code.LogView.{log_bytes};
ghost use Rattle.blog_trans.specs.Selection.{selection_of};
ghost use Rattle.blog_trans.specs.Acceptance.{IsAccepted, fault, IsRefusal};
ghost use Rattle.blog_trans.specs.Groups.{groups};
ghost use Rattle.blog_trans.specs.code.IndexView.{index_bytes, index_groups, index_selection};
ghost use Rattle.blog_flash.specs.Answers.{Answers};
ghost use Rattle.blog_flash.specs.code.LaidOut.{groups_in, transactions_of};
ghost use Rattle.blog_flash.specs.Printed.{sql_text, summary_text};
ghost use Rattle.blog_flash.specs.Texts.{group_events, laid_out_after};
ghost use Rattle.blog_flash.specs.code.Measured.{HasSizes};
ghost use Rattle.blog_flash.specs.Written.{event_written, groups_written};

use crate::laid_out::{front, lay_out};
use crate::log_sizes::{LogSizes, sizes_of};
use crate::put_sql::put_sql;
use crate::put_summary::put_summary;
use crate::written_events::WrittenGroups;
use blog_event::{Fault, Log};
use blog_row::Order;
use blog_trans::{Index, Selection, index};
use std::alloc::Allocator;

/// What is to be made of a log.
#[derive(Clone, Copy, Debug, PartialEq, Eq)]
pub enum Mode {
    /// The log that undoes the selected changes.
    Flashback,
    /// The selected changes in normal form, as a log.
    Forward,
    /// The log that undoes the selected changes, as pseudo-SQL.
    FlashbackSql,
    /// The selected changes, as pseudo-SQL.
    ForwardSql,
    /// How many rows of each table the selected changes insert, update and delete.
    Summary,
}

/// Opens a log, with a seed by which its tables are looked up.
fn opened(bytes: &[u8], seed: u64) -> Result<Log<'_>, Fault>
    ensures exact { result_err result ≡ opening_fault bytes.now }
    ensures bytes { IfOk result (λ log. log_bytes log ≡ bytes.now) }
{
    match Log::open(bytes) {
        Ok(log) => Ok(log.with_seed(seed)),
        Err(fault) => Err(fault),
    }
}

/// The index of a log under a selection, with the errors of `answer`. Names and ids of tables are hashed by a seed
/// (`Log::with_seed`); no result depends on it.
pub fn selected<'a, 's, A: Allocator + Copy>(
    alloc: A,
    bytes: &'a [u8],
    sel: &Selection<'s>,
    seed: u64,
) -> Result<Index<'a, 's, A>, Fault>
    ensures accepted { IfOk result (λ groups. IsAccepted bytes.now (selection_of sel.now)) }
    ensures bytes { IfOk result (λ groups. index_bytes groups ≡ bytes.now) }
    ensures selection { IfOk result (λ groups. index_selection groups ≡ selection_of sel.now) }
    ensures refused { IfErr result (IsRefusal (fault bytes.now (selection_of sel.now))) }
{
    let log = opened(bytes, seed)?;
    index(alloc, &log, sel)
}

/// The sizes of the groups of an index in an order, behind their front.
fn group_sizes<A: Allocator>(index: &Index<'_, '_, A>, front: &[u8], order: Order) -> LogSizes
    requires within { length front.now ≤ 4294967295 }
    requires short { end_of (length front.now) (group_events (transactions_of order (index_groups index.now))) ≤ 4294967295 }
    ensures { HasSizes (length front.now) (map event_written (groups_written (transactions_of order (index_groups index.now)))) result }
{
    let Some(sizes) = sizes_of(front.len(), &mut WrittenGroups::new(index, order)) else {
        unreachable!();
    };
    sizes
}

/// The selected groups of a log as a log, in an order.
fn laid_out<A: Allocator + Copy>(
    alloc: A,
    bytes: &[u8],
    sel: &Selection<'_>,
    order: Order,
    seed: u64,
) -> Result<Vec<u8, A>, Fault>
    ensures accepted { IfOk result (λ text. IsAccepted bytes.now (selection_of sel.now)) }
    ensures text { IfOk result (λ text. text.items ≡ laid_out_after (read bytes.now (selection_of sel.now).stop) (groups_in order (groups bytes.now (selection_of sel.now)))) }
    ensures refused { IfErr result (IsRefusal (fault bytes.now (selection_of sel.now))) }
{
    let groups = selected(alloc, bytes, sel, seed)?;
    let front = front(&groups);
    let sizes = group_sizes(&groups, front, order);
    Ok(lay_out(alloc, front, &mut WrittenGroups::new(&groups, order), sizes)?)
}

/// The selected groups of a log as pseudo-SQL.
fn printed<A: Allocator + Copy>(
    alloc: A,
    bytes: &[u8],
    sel: &Selection<'_>,
    seed: u64,
) -> Result<Vec<u8, A>, Fault>
    ensures accepted { IfOk result (λ text. IsAccepted bytes.now (selection_of sel.now)) }
    ensures text { IfOk result (λ text. text.items ≡ sql_text (groups bytes.now (selection_of sel.now))) }
    ensures refused { IfErr result (IsRefusal (fault bytes.now (selection_of sel.now))) }
{
    let groups = selected(alloc, bytes, sel, seed)?;
    match put_sql(alloc, &groups) {
        Ok(text) => Ok(text),
        Err(_) => Err(Fault::OutOfMemory),
    }
}

/// The changes that undo the selected ones, as pseudo-SQL: the log that undoes them, printed.
fn flashback_sql<A: Allocator + Copy>(
    alloc: A,
    bytes: &[u8],
    sel: &Selection<'_>,
    seed: u64,
) -> Result<Vec<u8, A>, Fault>
    ensures { Answers bytes.now Mode.FlashbackSql (selection_of sel.now) result }
{
    let written = laid_out(alloc, bytes, sel, Order::Backward, seed)?;
    printed(alloc, &written, &Selection::all(), seed)
}

/// The selected changes as pseudo-SQL.
fn forward_sql<A: Allocator + Copy>(
    alloc: A,
    bytes: &[u8],
    sel: &Selection<'_>,
    seed: u64,
) -> Result<Vec<u8, A>, Fault>
    ensures { Answers bytes.now Mode.ForwardSql (selection_of sel.now) result }
{
    printed(alloc, bytes, sel, seed)
}

/// The selected groups of a log in numbers.
fn counted<A: Allocator + Copy>(
    alloc: A,
    bytes: &[u8],
    sel: &Selection<'_>,
    seed: u64,
) -> Result<Vec<u8, A>, Fault>
    ensures accepted { IfOk result (λ text. IsAccepted bytes.now (selection_of sel.now)) }
    ensures text { IfOk result (λ text. text.items ≡ summary_text (groups bytes.now (selection_of sel.now))) }
    ensures refused { IfErr result (IsRefusal (fault bytes.now (selection_of sel.now))) }
{
    let groups = selected(alloc, bytes, sel, seed)?;
    match put_summary(alloc, &groups) {
        Ok(text) => Ok(text),
        Err(_) => Err(Fault::OutOfMemory),
    }
}

/// The log that undoes the selected changes.
fn flashback_log<A: Allocator + Copy>(
    alloc: A,
    bytes: &[u8],
    sel: &Selection<'_>,
    seed: u64,
) -> Result<Vec<u8, A>, Fault>
    ensures { Answers bytes.now Mode.Flashback (selection_of sel.now) result }
{
    laid_out(alloc, bytes, sel, Order::Backward, seed)
}

/// The selected changes in normal form.
fn forward_log<A: Allocator + Copy>(
    alloc: A,
    bytes: &[u8],
    sel: &Selection<'_>,
    seed: u64,
) -> Result<Vec<u8, A>, Fault>
    ensures { Answers bytes.now Mode.Forward (selection_of sel.now) result }
{
    laid_out(alloc, bytes, sel, Order::Forward, seed)
}

/// The selected changes in numbers.
fn summary_text<A: Allocator + Copy>(
    alloc: A,
    bytes: &[u8],
    sel: &Selection<'_>,
    seed: u64,
) -> Result<Vec<u8, A>, Fault>
    ensures { Answers bytes.now Mode.Summary (selection_of sel.now) result }
{
    counted(alloc, bytes, sel, seed)
}

/// `answer`, where names and ids of tables are hashed by a seed (`Log::with_seed`). The answer doesn't depend on it.
pub fn answer_seeded<A: Allocator + Copy>(
    alloc: A,
    bytes: &[u8],
    mode: Mode,
    sel: &Selection<'_>,
    seed: u64,
) -> Result<Vec<u8, A>, Fault>
    ensures { Answers bytes.now mode (selection_of sel.now) result }
{
    match mode {
        Mode::Flashback => flashback_log(alloc, bytes, sel, seed),
        Mode::Forward => forward_log(alloc, bytes, sel, seed),
        Mode::FlashbackSql => flashback_sql(alloc, bytes, sel, seed),
        Mode::ForwardSql => forward_sql(alloc, bytes, sel, seed),
        Mode::Summary => summary_text(alloc, bytes, sel, seed),
    }
}

/// What the mode makes of a log under a selection.
///
/// A log that is refused is answered with its first fault, in every mode. `OutOfMemory` where memory was refused. Tables are
/// looked up by the seed 0: for logs of others there is `answer_seeded`.
pub fn answer<A: Allocator + Copy>(
    alloc: A,
    bytes: &[u8],
    mode: Mode,
    sel: &Selection<'_>,
) -> Result<Vec<u8, A>, Fault>
    ensures { Answers bytes.now mode (selection_of sel.now) result }
{
    answer_seeded(alloc, bytes, mode, sel, 0)
}

/// The log that undoes the selected changes of a log (MariaDB Knowledge Base, "Flashback"): `answer` for
/// `Mode::Flashback`, with its errors.
pub fn flashback<A: Allocator + Copy>(
    alloc: A,
    bytes: &[u8],
    sel: &Selection<'_>,
) -> Result<Vec<u8, A>, Fault>
    ensures { Answers bytes.now Mode.Flashback (selection_of sel.now) result }
{
    flashback_log(alloc, bytes, sel, 0)
}

/// The selected changes of a log in normal form, as a log: `answer` for `Mode::Forward`, with its errors.
pub fn forward<A: Allocator + Copy>(
    alloc: A,
    bytes: &[u8],
    sel: &Selection<'_>,
) -> Result<Vec<u8, A>, Fault>
    ensures { Answers bytes.now Mode.Forward (selection_of sel.now) result }
{
    forward_log(alloc, bytes, sel, 0)
}

/// The selected changes of a log as pseudo-SQL, or backwards those that undo them: `answer` for `Mode::ForwardSql` or
/// `Mode::FlashbackSql`, with its errors.
pub fn sql<A: Allocator + Copy>(
    alloc: A,
    bytes: &[u8],
    sel: &Selection<'_>,
    backwards: bool,
) -> Result<Vec<u8, A>, Fault>
    ensures backward { IsTrue backwards → Answers bytes.now Mode.FlashbackSql (selection_of sel.now) result }
    ensures forward { IsFalse backwards → Answers bytes.now Mode.ForwardSql (selection_of sel.now) result }
{
    if backwards {
        flashback_sql(alloc, bytes, sel, 0)
    } else {
        forward_sql(alloc, bytes, sel, 0)
    }
}

/// How many rows of each table the selected changes of a log insert, update and delete: `answer` for `Mode::Summary`,
/// with its errors.
pub fn summary<A: Allocator + Copy>(
    alloc: A,
    bytes: &[u8],
    sel: &Selection<'_>,
) -> Result<Vec<u8, A>, Fault>
    ensures { Answers bytes.now Mode.Summary (selection_of sel.now) result }
{
    summary_text(alloc, bytes, sel, 0)
}
