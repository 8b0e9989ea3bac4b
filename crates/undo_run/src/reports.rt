//! What is reported of changes that are made once more, or undone.

ghost use Rattle.std.specs.Prelude.{◌≡◌, ◌++◌, IfOk, OnOk, length, option_map};
ghost use Rattle.std.specs.List.{list_any};
ghost use Rattle.blog_text.specs.code.Counted.{counts_in};
ghost use Rattle.blog_trans.specs.code.IndexView.{index_groups, table_counted};
ghost use Rattle.undo_run.specs.Reports.{cascades_text, changes_told, has_followers, names_text, next_name, report, rows_told, since_text, transactions_text, turned, unlooked_text, verb};
ghost use Rattle.undo_run.specs.code.NamesView.{begun_told, names_told};
ghost use Rattle.undo_run.specs.code.SinceView.{since_seen};

use crate::log_names::{Begun, Names};
use crate::since::{Since, put_since};
use blog_row::Order;
use blog_text::{put_count, put_escaped, put_number, put_text};
use blog_trans::{Index, TableCount};
use std::alloc::{AllocError, Allocator};

/// Returns the report of the groups of an index of logs of these names, which are written in this order.
pub(crate) fn report_of<A: Allocator, N: Allocator, B: Allocator>(
    alloc: A,
    logs: &Names<'_, N>,
    order: Order,
    index: &Index<'_, '_, B>,
    since: &Option<Since<'_, A>>,
) -> Result<Vec<u8, A>, AllocError>
    ensures { IfOk result (λ told. told.items ≡ report order (names_told logs.now) (length (index_groups index.now)) (counts_in index.now) (option_map since_seen since.now)) }
{
    report_of_many(alloc, logs, order, index.transactions(), index, since)
}

/// Returns the report of the groups of an index, told as so many transactions.
pub(crate) fn report_of_many<A: Allocator, N: Allocator, B: Allocator>(
    alloc: A,
    logs: &Names<'_, N>,
    order: Order,
    transactions: usize,
    index: &Index<'_, '_, B>,
    since: &Option<Since<'_, A>>,
) -> Result<Vec<u8, A>, AllocError>
    ensures { IfOk result (λ told. told.items ≡ report order (names_told logs.now) transactions (counts_in index.now) (option_map since_seen since.now)) }
{
    let mut out = Vec::new(alloc);
    put_changes(&mut out, logs, order, transactions, index)?;
    put_later(&mut out, order, since)?;
    put_text(&mut out, cascades_text(order, index))?;
    Ok(out)
}

/// Appends the first line of a report.
fn put_changes<A: Allocator, N: Allocator, B: Allocator>(
    out: &mut Vec<u8, A>,
    logs: &Names<'_, N>,
    order: Order,
    transactions: usize,
    index: &Index<'_, '_, B>,
) -> Result<(), AllocError>
    ensures { OnOk result (out.new.items ≡ out.old.items ++ changes_told order (names_told logs.now) transactions (counts_in index.now)) }
{
    put_text(out, verb(order))?;
    put_transactions(out, transactions)?;
    put_text(out, b" of ")?;
    put_names(out, logs)?;
    put_text(out, b": ")?;
    put_rows(out, order, index)?;
    put_text(out, b"\n")
}

/// Appends the names of logs.
fn put_names<A: Allocator, N: Allocator>(
    out: &mut Vec<u8, A>,
    logs: &Names<'_, N>,
) -> Result<(), AllocError>
    ensures { OnOk result (out.new.items ≡ out.old.items ++ names_text (names_told logs.now)) }
{
    put_escaped(out, logs.first)?;
    for n in 0..logs.more.len() {
        put_next_name(out, logs.more[n])?;
    }
    Ok(())
}

/// Appends the name of a further log.
fn put_next_name<A: Allocator>(out: &mut Vec<u8, A>, begun: Begun<'_>) -> Result<(), AllocError>
    ensures { OnOk result (out.new.items ≡ out.old.items ++ next_name (begun_told begun.entry)) }
{
    put_text(out, b", ")?;
    put_escaped(out, begun.name)
}

/// What is done with changes in an order.
fn verb(order: Order) -> &'static [u8]
    ensures { result.now ≡ verb order }
{
    match order {
        Order::Forward => b"redoes ",
        Order::Backward => b"undoes ",
    }
}

/// What is told of later changes, which weren't looked at.
fn unlooked_text(order: Order) -> &'static [u8]
    ensures { result.now ≡ unlooked_text order }
{
    match order {
        Order::Forward => b"",
        Order::Backward =>
            b"changes made to these rows since are not looked for, and are overwritten\n",
    }
}

/// Appends what is told of later changes.
fn put_later<A: Allocator, B: Allocator>(
    out: &mut Vec<u8, A>,
    order: Order,
    since: &Option<Since<'_, B>>,
) -> Result<(), AllocError>
    ensures { OnOk result (out.new.items ≡ out.old.items ++ since_text order (option_map since_seen since.now)) }
{
    match since {
        Some(since) => put_since(out, since),
        None => put_text(out, unlooked_text(order)),
    }
}

/// What is told of child rows, if rows are updated or deleted.
fn cascades_text<A: Allocator>(order: Order, index: &Index<'_, '_, A>) -> &'static [u8]
    ensures { result.now ≡ cascades_text order (counts_in index.now) }
{
    if has_any_followers(order, index) {
        b"child rows of foreign keys that cascade follow the updated and deleted rows, and are not counted\n"
    } else {
        b""
    }
}

/// Whether rows of a table are updated or deleted.
fn has_followers(count: &TableCount<'_>) -> bool
    ensures { result ≡ has_followers (table_counted count.now) }
{
    count.updates > 0 || count.deletes > 0
}

/// Whether rows of any table are.
fn has_any_followers<A: Allocator>(order: Order, index: &Index<'_, '_, A>) -> bool
    ensures { result ≡ list_any (λ c. has_followers (turned order c)) (counts_in index.now) }
{
    for n in 0..index.tables() {
        if has_followers(&turned(order, &index.table(n))) {
            return true;
        }
    }
    false
}

/// Appends a number of transactions.
fn put_transactions<A: Allocator>(out: &mut Vec<u8, A>, n: usize) -> Result<(), AllocError>
    ensures { OnOk result (out.new.items ≡ out.old.items ++ transactions_text n) }
{
    put_number(out, n as u64)?;
    put_text(
        out,
        if n == 1 {
            b" transaction"
        } else {
            b" transactions"
        },
    )
}

/// The rows of a table: as they are changed, and undone the other way round.
fn turned<'a>(order: Order, count: &TableCount<'a>) -> TableCount<'a>
    ensures { table_counted result ≡ turned order (table_counted count.now) }
{
    match order {
        Order::Forward => *count,
        Order::Backward => TableCount {
            inserts: count.deletes,
            deletes: count.inserts,
            ..*count
        },
    }
}

/// Appends the rows by table.
fn put_rows<A: Allocator, B: Allocator>(
    out: &mut Vec<u8, A>,
    order: Order,
    index: &Index<'_, '_, B>,
) -> Result<(), AllocError>
    ensures { OnOk result (out.new.items ≡ out.old.items ++ rows_told order (counts_in index.now)) }
{
    if index.tables() == 0 {
        return Ok(());
    }
    put_count(out, &turned(order, &index.table(0)))?;
    for n in 1..index.tables() {
        put_text(out, b"; ")?;
        put_count(out, &turned(order, &index.table(n)))?;
    }
    Ok(())
}
