//! Logs as servers write them.

use crate::events::{Events, low_half};
use crate::random::Source;
use crate::rows::{Action, Bodies, Sizes};
use crate::tables::{COLUMNS, Column, OPTIONAL, Table, WIDE};
use std::alloc::{AllocError, Global};

/// The tables of an online shop.
static NAMES: [&[u8]; 12] = [
    b"orders",
    b"order_lines",
    b"customers",
    b"articles",
    b"stock",
    b"payments",
    b"addresses",
    b"baskets",
    b"prices",
    b"deliveries",
    b"sessions",
    b"visits",
];

/// How many columns they have.
static WIDTHS: [usize; 12] = [8, 6, 14, 20, 5, 9, 12, 7, 6, 16, 10, 40];

/// The name of the schema of the transactions.
pub const SCHEMA: &[u8] = b"shop";

/// The time of the first events of the logs, in seconds since 1970.
const TIME: u32 = 1_770_000_000;

/// A table of the shop.
pub fn table_of(number: usize) -> Table<'static> {
    table_with(number, &COLUMNS)
}

/// A table of the shop that has the first ones of these columns.
pub fn table_with(number: usize, columns: &'static [Column; 40]) -> Table<'static> {
    let width = WIDTHS.get(number).copied().unwrap_or(8).min(40);
    Table {
        id: 90u32.wrapping_add(low_half(number)),
        schema: SCHEMA,
        name: NAMES.get(number).copied().unwrap_or(b"t"),
        columns: &columns[..width],
    }
}

/// Rows events of the shop's tables.
#[derive(Drop)]
pub struct Shop {
    /// Inserts, updates and deletes of each table.
    bodies: Vec<Bodies>,
    /// How many transactions there were.
    number: u64,
}

impl Shop {
    /// Makes rows events of these sizes.
    pub fn new(alloc: Global, source: &mut Source, sizes: Sizes) -> Result<Shop, AllocError> {
        let mut bodies = Vec::new(alloc);
        for number in 0..12 {
            for action in [Action::Insert, Action::Update, Action::Delete] {
                let table = table_with(number, sizes.columns);
                bodies.push(Bodies::new(alloc, source, &table, action, sizes)?)?;
            }
        }
        Ok(Shop { bodies, number: 0 })
    }

    /// Begins a transaction.
    fn begin(&mut self, source: &mut Source, events: &mut Events) -> Result<(), AllocError> {
        self.number = self.number.wrapping_add(1);
        if source.below(8) == 0 {
            events.time = events.time.wrapping_add(1);
        }
        events.begin(self.number, 10u32.wrapping_add(low_half(source.index(64))))
    }

    /// Appends a transaction of one to three statements, of which each has about so many bytes.
    fn put_transaction(
        &mut self,
        source: &mut Source,
        events: &mut Events,
        bytes: usize,
    ) -> Result<(), AllocError> {
        self.begin(source, events)?;
        for _ in 0..source.index(3).wrapping_add(1) {
            if let Some(bodies) = self.bodies.as_slice().get(source.index(self.bodies.len())) {
                let end = events.len().wrapping_add(source.index(bytes));
                bodies.put_statement(source, events, end)?;
            }
        }
        events.end(self.number)
    }

    /// Appends transactions till the log has so many bytes.
    pub fn put_transactions(
        &mut self,
        source: &mut Source,
        events: &mut Events,
        bytes: usize,
        end: usize,
    ) -> Result<(), AllocError> {
        for _ in events.len()..end {
            if events.len() >= end {
                break;
            }
            self.put_transaction(source, events, bytes)?;
        }
        Ok(())
    }

    /// Appends one transaction that changes rows of one table till the log has so many bytes. Returns where it begins.
    pub fn put_large(
        &mut self,
        source: &mut Source,
        events: &mut Events,
        bodies: &Bodies,
        end: usize,
    ) -> Result<u32, AllocError> {
        let start = low_half(events.len());
        self.begin(source, events)?;
        bodies.put_statement(source, events, end)?;
        events.end(self.number)?;
        Ok(start)
    }
}

/// Rows events of 100 to 500 bytes.
pub const SMALL: Sizes = Sizes {
    bodies: 16,
    least: 60,
    more: 400,
    nulls: 40,
    columns: &COLUMNS,
};

/// Rows events of about 8 KB.
pub const LARGE: Sizes = Sizes {
    bodies: 8,
    least: 8_000,
    more: 100,
    nulls: 40,
    columns: &COLUMNS,
};

/// Rows events of one row.
pub const ONE_ROW: Sizes = Sizes {
    bodies: 64,
    least: 1,
    more: 1,
    nulls: 40,
    columns: &COLUMNS,
};

/// The same of tables with optional columns.
pub const OPTIONAL_ONE_ROW: Sizes = Sizes {
    nulls: 0,
    columns: &OPTIONAL,
    ..ONE_ROW
};

/// Rows events of about 8 KB of such tables.
pub const OPTIONAL_LARGE: Sizes = Sizes {
    nulls: 0,
    columns: &OPTIONAL,
    ..LARGE
};

/// Starts a log.
pub fn start(source: &mut Source, events: &mut Events, sums: bool) -> Result<(), AllocError> {
    events.start(TIME.wrapping_add(low_half(source.index(1 << 24))), sums)
}

/// Appends one statement: maps of four tables, and rows events of one row, in any order.
pub fn put_cascade(
    alloc: Global,
    source: &mut Source,
    events: &mut Events,
    end: usize,
) -> Result<(), AllocError> {
    let mut tables = Vec::new(alloc);
    for number in [0, 1, 4, 5] {
        let table = table_of(number);
        let bodies = Bodies::new(alloc, source, &table, Action::Delete, ONE_ROW)?;
        tables.push(bodies)?;
    }
    events.begin(1, 7)?;
    for table in tables.as_slice() {
        table.put_map(events)?;
    }
    for _ in events.len()..end {
        if events.len() >= end {
            break;
        }
        if let Some(table) = tables.as_slice().get(source.index(4)) {
            table.put_rows(source, events, false)?;
        }
    }
    if let Some(table) = tables.as_slice().first() {
        table.put_rows(source, events, true)?;
    }
    events.end(1)
}

/// Appends transactions of one statement, each of a table in a schema of its own.
pub fn put_tenants(
    alloc: Global,
    source: &mut Source,
    events: &mut Events,
    end: usize,
) -> Result<(), AllocError> {
    let mut tables = Vec::new(alloc);
    for number in 0..4 {
        let table = table_of(number);
        tables.push(Bodies::new(alloc, source, &table, Action::Update, SMALL)?)?;
    }
    let first = source.index(1 << 20);
    for number in 0..end {
        if events.len() >= end {
            break;
        }
        let schema = format!(in alloc; "tenant_{:07}", first.wrapping_add(number))?;
        let table = Table {
            id: low_half(number).wrapping_add(1000),
            schema: schema.as_bytes(),
            ..table_of(number % 4)
        };
        events.begin(number as u64, 7)?;
        events.put(19, 0, &[&table.map_body(alloc)?])?;
        if let Some(bodies) = tables.as_slice().get(number % 4) {
            bodies.put_rows_of(table.id, source, events, true)?;
        }
        events.end(number as u64)?;
    }
    Ok(())
}

/// Appends transactions of one statement in tables of 200 and of 4,096 columns, of which half are NULL.
pub fn put_wide(
    alloc: Global,
    source: &mut Source,
    events: &mut Events,
    end: usize,
) -> Result<(), AllocError> {
    let mut tables = Vec::new(alloc);
    for (id, width) in [(90, 200), (91, 4_096)] {
        let name: &[u8] = if width == 200 { b"wide" } else { b"very_wide" };
        let mut columns: Vec<Column> = Vec::new(alloc);
        for _ in 0..width / 8 {
            columns.extend_from_slice(&WIDE)?;
        }
        let table = Table {
            id,
            schema: SCHEMA,
            name,
            columns: &columns,
        };
        let sizes = Sizes {
            nulls: 128,
            ..LARGE
        };
        tables.push(Bodies::new(alloc, source, &table, Action::Update, sizes)?)?;
    }
    for number in 0..end as u64 {
        if events.len() >= end {
            break;
        }
        events.begin(number, 7)?;
        if let Some(table) = tables.as_slice().get(source.index(2)) {
            let end = events.len().wrapping_add(100_000);
            table.put_statement(source, events, end)?;
        }
        events.end(number)?;
    }
    Ok(())
}
