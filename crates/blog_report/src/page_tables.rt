//! The rows by table on the page.

ghost use Rattle.std.specs.Prelude.{◌≡◌, ◌++◌, OnOk};
ghost use Rattle.blog_report.specs.Html.{table_html};

use crate::html::{put_escaped, put_grouped};
use crate::report::Report;
use crate::sums::RowSums;
use crate::tables::TableLine;
use blog_text::put_text;
use std::alloc::{AllocError, Allocator};

/// So many tables are listed.
pub(crate) const MOST_TABLES: usize = 300;

/// Appends the names of a table, escaped.
pub(crate) fn put_table_name<A: Allocator>(
    out: &mut Vec<u8, A>,
    schema: &[u8],
    table: &[u8],
) -> Result<(), AllocError>
    ensures { OnOk result (out.new.items ≡ out.old.items ++ table_html schema.now table.now) }
{
    put_escaped(out, schema)?;
    put_text(out, b".")?;
    put_escaped(out, table)
}

/// Appends the rows by table, those with the most rows first.
pub(crate) fn put_tables<A: Allocator + Copy>(
    out: &mut Vec<u8, A>,
    report: &Report<A>,
    lines: &[TableLine],
) -> Result<(), AllocError> {
    put_text(out, b"<section>\n<h2>Rows by table</h2>\n")?;
    if lines.is_empty() {
        return put_text(out, b"<p>No rows are changed.</p>\n</section>\n");
    }
    put_text(
        out,
        b"<div class=\"wide\"><table>\n<thead><tr><th scope=\"col\">Table</th><th scope=\"col\">Inserted</th>",
    )?;
    put_text(
        out,
        b"<th scope=\"col\">Updated</th><th scope=\"col\">Deleted</th></tr></thead>\n<tbody>\n",
    )?;
    let mut others = RowSums::none();
    let mut left_out = 0_u64;
    'lines: for n in 0..lines.len() {
        if let Some(table) = report.tables.table(lines[n].number) {
            if n < MOST_TABLES {
                put_text(out, b"<tr><th scope=\"row\"><bdi>")?;
                put_table_name(out, table.schema, table.table)?;
                put_text(out, b"</bdi></th>")?;
                put_row_numbers(out, table.rows)?;
            } else {
                others = others.plus(table.rows);
                left_out = left_out.saturating_add(1);
            }
        }
    }
    if left_out > 0 {
        put_text(out, b"<tr><th scope=\"row\">")?;
        put_grouped(out, left_out)?;
        put_text(out, b" more tables</th>")?;
        put_row_numbers(out, others)?;
    }
    put_text(out, b"</tbody>\n</table></div>\n</section>\n")
}

/// Appends numbers of rows as the rest of a row.
fn put_row_numbers<A: Allocator>(out: &mut Vec<u8, A>, rows: RowSums) -> Result<(), AllocError> {
    put_text(out, b"<td>")?;
    put_grouped(out, rows.inserts)?;
    put_text(out, b"</td><td>")?;
    put_grouped(out, rows.updates)?;
    put_text(out, b"</td><td>")?;
    put_grouped(out, rows.deletes)?;
    put_text(out, b"</td></tr>\n")
}
