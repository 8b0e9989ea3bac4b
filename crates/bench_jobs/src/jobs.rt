//! The jobs: what is done on which logs.

use crate::calls::{
    Output, cut, list_all, list_table, make_plain, of_range, of_table, print, undo, undone, zone,
};
use crate::digest::Digest;
use crate::events::{Events, low_half};
use crate::failure::Failure;
use crate::random::Source;
use crate::rows::{Action, Bodies, Sizes};
use crate::shapes::{
    LARGE, ONE_ROW, OPTIONAL_LARGE, OPTIONAL_ONE_ROW, SCHEMA, SMALL, Shop, put_cascade,
    put_tenants, put_wide, start, table_of, table_with,
};
use crate::statements::Mixed;
use crate::words::{Job, Task};
use blog_device::Watched;
use blog_flash::{Mode, Selection};
use blog_list::Form;
use jiff::tz::TimeZone;
use std::alloc::Global;

/// What was written and returned.
#[derive(Clone, Copy)]
pub struct Written {
    /// How many bytes.
    pub len: u64,
    /// The digest of them.
    pub digest: u64,
}

/// What the logs of a job share. Each log goes one way: no call has the same input twice.
#[derive(Drop)]
struct Bench {
    alloc: Global,
    source: Source,
    events: Events,
    output: Output,
    /// The zone of times that are written.
    zone: TimeZone<'static>,
    /// How large a log is made, in bytes.
    size: usize,
}

/// Does a job on each of its logs.
pub fn work(alloc: Global, task: &Task) -> Result<Written, Failure> {
    let mut bench = Bench {
        alloc,
        source: Source::new(task.seed),
        events: Events::new(alloc),
        output: Watched::new(Digest::new(alloc)?),
        zone: zone()?,
        size: (task.kilobytes as usize).saturating_mul(1000),
    };
    match task.job {
        Job::List => bench.list(task.logs)?,
        Job::Undo => bench.undo(task.logs)?,
        Job::Apply => bench.apply(task.logs)?,
        Job::Rows => bench.print_rows(task.logs)?,
        Job::Sums => bench.check_sums(task.logs)?,
        Job::Awkward => bench.do_awkward(task.logs)?,
        Job::Optional => bench.do_optional(task.logs)?,
        Job::Statements => bench.list_statements(task.logs)?,
    }
    let digest = bench.output.device();
    Ok(Written {
        len: digest.len(),
        digest: digest.value(),
    })
}

/// The numbers of the tables with large transactions: 8, 20 and 40 columns.
static LARGE_TABLES: [usize; 3] = [0, 3, 11];

/// Where a large transaction is.
#[derive(Clone, Copy)]
struct Large {
    table: usize,
    start: u32,
    stop: u32,
}

impl Bench {
    /// Makes the rows events of a large transaction of a table.
    fn large_bodies(&mut self, round: u32, sizes: Sizes) -> Result<(usize, Bodies), Failure> {
        let number = LARGE_TABLES.get(round as usize % 3).copied().unwrap_or(0);
        let action = if round % 2 == 0 {
            Action::Delete
        } else {
            Action::Update
        };
        let table = table_with(number, sizes.columns);
        let bodies = Bodies::new(self.alloc, &mut self.source, &table, action, sizes)?;
        Ok((number, bodies))
    }

    /// Makes a log without checksums, of which a large transaction has seven tenths.
    fn make_large(&mut self, shop: &mut Shop, round: u32) -> Result<Large, Failure> {
        let (table, bodies) = self.large_bodies(round, LARGE)?;
        let part = self.size / 10;
        start(&mut self.source, &mut self.events, false)?;
        let before = part.saturating_mul(2);
        shop.put_transactions(&mut self.source, &mut self.events, 16_000, before)?;
        let end = part.saturating_mul(9);
        let start = shop.put_large(&mut self.source, &mut self.events, &bodies, end)?;
        let stop = low_half(self.events.len());
        shop.put_transactions(&mut self.source, &mut self.events, 16_000, self.size)?;
        Ok(Large { table, start, stop })
    }

    /// Makes a log that undoes a large transaction.
    fn make_undo(&mut self, shop: &mut Shop, round: u32) -> Result<Vec<u8>, Failure> {
        let large = self.make_large(shop, round)?;
        let range = of_range(large.start, large.stop);
        let log = self.events.bytes.as_slice();
        undone(self.alloc, log, &range, &mut self.output)
    }

    /// Makes a log of small transactions with checksums, and a bulk load among them.
    fn make_small(&mut self, shop: &mut Shop, round: u32) -> Result<(), Failure> {
        let (_, bodies) = self.large_bodies(round.wrapping_mul(2), LARGE)?;
        let part = self.size / 10;
        start(&mut self.source, &mut self.events, true)?;
        let before = part.saturating_mul(7);
        shop.put_transactions(&mut self.source, &mut self.events, 500, before)?;
        let end = part.saturating_mul(8);
        shop.put_large(&mut self.source, &mut self.events, &bodies, end)?;
        Ok(shop.put_transactions(&mut self.source, &mut self.events, 500, self.size)?)
    }

    /// Lists of logs of small transactions, with checksums: of all as text, of one table as text, of all as JSON.
    fn list(&mut self, logs: u32) -> Result<(), Failure> {
        let mut shop = Shop::new(self.alloc, &mut self.source, SMALL)?;
        for number in 0..logs {
            self.make_small(&mut shop, number / 3)?;
            let log = self.events.bytes.as_slice();
            let output = &mut self.output;
            match number % 3 {
                0 => list_all(self.alloc, log, self.zone, Form::Text, output)?,
                1 => list_table(self.alloc, log, SCHEMA, b"stock", output)?,
                _ => list_all(self.alloc, log, self.zone, Form::Json, output)?,
            }
        }
        Ok(())
    }

    /// Logs that undo a large DELETE or UPDATE by its positions and by its table, normal forms and summaries.
    fn undo(&mut self, logs: u32) -> Result<(), Failure> {
        let mut shop = Shop::new(self.alloc, &mut self.source, LARGE)?;
        for number in 0..logs {
            let large = self.make_large(&mut shop, number / 4)?;
            let (mode, selection) = match number % 4 {
                0 => (Mode::Flashback, of_range(large.start, large.stop)),
                1 => (
                    Mode::Flashback,
                    of_table(SCHEMA, table_of(large.table).name),
                ),
                2 => (Mode::Forward, Selection::all()),
                _ => (Mode::Summary, Selection::all()),
            };
            let log = self.events.bytes.as_slice();
            undo(self.alloc, log, mode, &selection, &mut self.output)?;
        }
        Ok(())
    }

    /// Logs that are printed as SQL, and cut: those that undo a large transaction, and those of small transactions.
    fn apply(&mut self, logs: u32) -> Result<(), Failure> {
        let mut large_shop = Shop::new(self.alloc, &mut self.source, LARGE)?;
        let mut small_shop = Shop::new(self.alloc, &mut self.source, SMALL)?;
        for number in 0..logs {
            let round = number / 4;
            match number % 4 {
                0 => {
                    let undo = self.make_undo(&mut large_shop, round)?;
                    print(self.alloc, &undo, false, &mut self.output)?;
                }
                1 => {
                    let undo = self.make_undo(&mut large_shop, round)?;
                    cut(self.alloc, &undo, &mut self.output)?;
                }
                2 => {
                    self.make_small(&mut small_shop, round)?;
                    print(self.alloc, &self.events.bytes, true, &mut self.output)?;
                }
                _ => {
                    self.make_small(&mut small_shop, round)?;
                    cut(self.alloc, &self.events.bytes, &mut self.output)?;
                }
            }
        }
        Ok(())
    }

    /// Pseudo-SQL of what undoes a large transaction.
    fn print_rows(&mut self, logs: u32) -> Result<(), Failure> {
        let mut shop = Shop::new(self.alloc, &mut self.source, LARGE)?;
        for round in 0..logs {
            let large = self.make_large(&mut shop, round)?;
            let log = self.events.bytes.as_slice();
            let range = of_range(large.start, large.stop);
            undo(
                self.alloc,
                log,
                Mode::FlashbackSql,
                &range,
                &mut self.output,
            )?;
        }
        Ok(())
    }

    /// Lists and plain logs of large events, with checksums; and such logs cut.
    fn check_sums(&mut self, logs: u32) -> Result<(), Failure> {
        let mut shop = Shop::new(self.alloc, &mut self.source, LARGE)?;
        for number in 0..logs {
            start(&mut self.source, &mut self.events, true)?;
            shop.put_transactions(&mut self.source, &mut self.events, 16_000, self.size)?;
            let log = self.events.bytes.as_slice();
            let output = &mut self.output;
            match number % 3 {
                0 => list_all(self.alloc, log, self.zone, Form::Text, output)?,
                1 => make_plain(self.alloc, log, output)?,
                _ => cut(self.alloc, log, output)?,
            }
        }
        Ok(())
    }

    /// One statement of many events of one row; many tables; tables of many columns.
    fn do_awkward(&mut self, logs: u32) -> Result<(), Failure> {
        let (alloc, size) = (self.alloc, self.size);
        let (source, events, output) = (&mut self.source, &mut self.events, &mut self.output);
        let all = Selection::all();
        for number in 0..logs {
            let way = number % 7;
            start(source, events, false)?;
            match way {
                0 | 1 => put_cascade(alloc, source, events, size)?,
                2 | 3 | 4 => put_tenants(alloc, source, events, size)?,
                _ => put_wide(alloc, source, events, size)?,
            }
            let log = events.bytes.as_slice();
            match way {
                0 | 2 | 5 => undo(alloc, log, Mode::Flashback, &all, output)?,
                3 | 6 => undo(alloc, log, Mode::Summary, &all, output)?,
                1 => cut(alloc, log, output)?,
                _ => list_all(alloc, log, self.zone, Form::Text, output)?,
            }
        }
        Ok(())
    }

    /// Makes a log without checksums of tables with optional columns: statements of many events of one row, or, in each second
    /// round, one statement in events of 8 KB.
    fn make_optional(&mut self, shop: &mut Shop, round: u32) -> Result<(), Failure> {
        start(&mut self.source, &mut self.events, false)?;
        if round % 2 == 0 {
            shop.put_transactions(&mut self.source, &mut self.events, 200_000, self.size)?;
        } else {
            let (_, bodies) = self.large_bodies(round / 2, OPTIONAL_LARGE)?;
            shop.put_large(&mut self.source, &mut self.events, &bodies, self.size)?;
        }
        Ok(())
    }

    /// Lists, summaries and reversed logs of tables with optional columns.
    fn do_optional(&mut self, logs: u32) -> Result<(), Failure> {
        let mut shop = Shop::new(self.alloc, &mut self.source, OPTIONAL_ONE_ROW)?;
        for number in 0..logs {
            self.make_optional(&mut shop, number / 3)?;
            let (alloc, all) = (self.alloc, Selection::all());
            let (log, output) = (self.events.bytes.as_slice(), &mut self.output);
            match number % 3 {
                0 => list_all(alloc, log, self.zone, Form::Text, output)?,
                1 => undo(alloc, log, Mode::Summary, &all, output)?,
                _ => undo(alloc, log, Mode::Flashback, &all, output)?,
            }
        }
        Ok(())
    }

    /// Lists of statements and of rows in three languages, as JSON.
    fn list_statements(&mut self, logs: u32) -> Result<(), Failure> {
        let alloc = self.alloc;
        let mixed = Mixed::new(alloc, &mut self.source, ONE_ROW)?;
        for _ in 0..logs {
            start(&mut self.source, &mut self.events, true)?;
            mixed.put_transactions(alloc, &mut self.source, &mut self.events, self.size)?;
            let log = self.events.bytes.as_slice();
            list_all(alloc, log, self.zone, Form::Json, &mut self.output)?;
        }
        Ok(())
    }
}
