//! The names of columns, made ready to be appended in front of their values.

use crate::csv_fields::put_csv_field;
use crate::forms::RowForm;
use crate::names::put_name;
use blog_columns::Column;
use blog_text::{put_number, put_string, put_text};
use std::alloc::{AllocError, Allocator};

/// For which form names are made ready.
#[derive(Clone, Copy, Debug, PartialEq, Eq)]
pub(crate) enum Naming {
    /// Lines for people: `  name=`.
    Lines,
    /// JSON: `"name":`, behind a comma unless it is the first.
    Json,
    /// CSV: a comma and the name.
    Csv,
}

/// For which form it is.
pub(crate) fn naming_of(form: &RowForm<'_>) -> Naming {
    match form {
        RowForm::Lines => Naming::Lines,
        RowForm::Json { .. } => Naming::Json,
        RowForm::Csv => Naming::Csv,
    }
}

/// Appends the number of a column, from 1 on, after `@`.
fn put_place<A: Allocator>(out: &mut Vec<u8, A>, n: usize) -> Result<(), AllocError> {
    put_text(out, b"@")?;
    put_number(out, (n as u64).saturating_add(1))
}

/// Appends the name of a column, or its number from 1 on after `@`, for lines.
fn put_for_lines<A: Allocator>(
    out: &mut Vec<u8, A>,
    column: &Column<'_>,
    n: usize,
) -> Result<(), AllocError> {
    put_text(out, b"  ")?;
    match column.name {
        Some(name) => put_name(out, name)?,
        None => put_place(out, n)?,
    }
    put_text(out, b"=")
}

/// Appends the same for JSON.
fn put_for_json<A: Allocator>(
    out: &mut Vec<u8, A>,
    column: &Column<'_>,
    n: usize,
) -> Result<(), AllocError> {
    if n > 0 {
        put_text(out, b",")?;
    }
    match column.name {
        Some(name) => put_string(out, name)?,
        None => {
            put_text(out, b"\"")?;
            put_place(out, n)?;
            put_text(out, b"\"")?;
        }
    }
    put_text(out, b":")
}

/// Appends the same for CSV.
fn put_for_csv<A: Allocator>(
    out: &mut Vec<u8, A>,
    column: &Column<'_>,
    n: usize,
) -> Result<(), AllocError> {
    put_text(out, b",")?;
    match column.name {
        Some(name) => put_csv_field(out, name),
        None => put_place(out, n),
    }
}

/// Appends the name of a column, which is the nth from 0 on, as it stands in front of a value.
pub(crate) fn put_label<A: Allocator>(
    out: &mut Vec<u8, A>,
    naming: Naming,
    column: &Column<'_>,
    n: usize,
) -> Result<(), AllocError> {
    match naming {
        Naming::Lines => put_for_lines(out, column, n),
        Naming::Json => put_for_json(out, column, n),
        Naming::Csv => put_for_csv(out, column, n),
    }
}
