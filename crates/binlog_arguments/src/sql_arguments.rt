//! Which arguments of `sql` mean what.

ghost use Rattle.std.specs.Prelude.{◌≡◌, IfErr, IfOk, codes};
ghost use Rattle.blog_sql.specs.Changed.{HaveShortNames};
ghost use Rattle.blog_sql.specs.declared.options.SqlOptions.{SqlOptions};
ghost use Rattle.clap.specs.Words.{first_value, found_of};
ghost use Rattle.binlog_arguments.specs.Request.{AreSchemas, HasSqlOptions, IsSizeOf, IsSqlTask, IsWrong, RefusesSchemas, RefusesSql, all_values, as_sql};
ghost use Rattle.binlog_arguments.specs.declared.arguments.ArgumentsFault.TheVariants.{OutOfMemory};

use crate::arguments::{ArgumentsFault, is_given, read_size};
use crate::options::{EACH_TRANSACTION, FORCE, KEEP_TIMES, LOG, RESULT_FILE, REWRITTEN};
use blog_row::Order;
use blog_run::Writing;
use blog_sql::{Renamed, SqlOptions};
use clap::{ArgMatches, Command};
use console::wrong_value;
use std::alloc::{AllocError, Allocator};

/// A log as SQL.
#[derive(Drop)]
pub struct SqlTask<'a, A: Allocator> {
    /// The path of the log.
    pub log: &'a str,
    /// The path of the file for the SQL; none where that goes to standard output.
    pub result_file: Option<&'a str>,
    /// Whether that file may be there.
    pub force: bool,
    /// How many bytes a statement may have.
    pub size: u32,
    /// Whether each transaction of the log is one of its own.
    pub each_transaction: bool,
    /// Whether events keep their times.
    pub keep_times: bool,
    /// The schemas with another name.
    pub schemas: Vec<Renamed<'a>, A>,
}

impl<A: Allocator> SqlTask<'_, A> {
    /// Returns how the log is printed at this time, in seconds since 1970.
    pub(crate) fn options(&self, now: u32) -> SqlOptions<'_>
        ensures { HasSqlOptions self.now now result }
    {
        SqlOptions {
            each_transaction: self.each_transaction,
            time: if self.keep_times { None } else { Some(now) },
            schemas: self.schemas.as_slice(),
        }
    }

    /// Returns how its changes are written at this time.
    pub fn writing(&self, now: u32) -> Writing<'_>
        ensures { (how : SqlOptions) × HasSqlOptions self.now now how × (result ≡ as_sql self.now.size how) }
    {
        Writing {
            order: Order::Forward,
            limit: self.size as usize,
            sql: Some(self.options(now)),
        }
    }
}

/// Reads what the arguments of `sql` ask for.
pub(crate) fn read_sql<'a, A: Allocator + Copy>(
    alloc: A,
    command: &mut Command<'a>,
    found: &ArgMatches<'a>,
) -> Result<SqlTask<'a, A>, ArgumentsFault<A>>
    ensures asked { IfOk result (IsSqlTask (found_of found.now)) }
    ensures names { IfOk result (λ task. HaveShortNames task.schemas.items) }
    ensures refused { IfErr result (RefusesSql (found_of found.now)) }
{
    Ok(SqlTask {
        // the parser has refused arguments without a LOG
        log: found.get_str(LOG).unwrap_or(""),
        result_file: found.get_str(RESULT_FILE),
        force: is_given(found, FORCE),
        size: read_size(alloc, command, found)?,
        each_transaction: is_given(found, EACH_TRANSACTION),
        keep_times: is_given(found, KEEP_TIMES),
        schemas: read_schemas(alloc, command, found)?,
    })
}

/// The schemas with another name, in order.
fn read_schemas<'a, A: Allocator + Copy>(
    alloc: A,
    command: &mut Command<'a>,
    found: &ArgMatches<'a>,
) -> Result<Vec<Renamed<'a>, A>, ArgumentsFault<A>>
    ensures found { IfOk result (λ schemas. AreSchemas (all_values (found_of found.now) (codes "rewrite-db")) schemas.items) }
    ensures names { IfOk result (λ schemas. HaveShortNames schemas.items) }
    ensures wrong { IfErr result (RefusesSchemas (all_values (found_of found.now) (codes "rewrite-db"))) }
{
    let mut schemas = Vec::new(alloc);
    if let Some(values) = found.get_strs(REWRITTEN) {
        for text in values {
            let Some(renamed) = Renamed::read(text.as_bytes()) else {
                return Err(wrong_schemas(alloc, command, text)?);
            };
            if schemas.push(renamed).is_err() {
                return Err(ArgumentsFault::OutOfMemory);
            }
        }
    }
    Ok(schemas)
}

/// What two schemas are, as it is reported of a value that is none.
const TWO_NAMES: &str =
    "two names of databases with a colon between them, such as shop:scratch, of 1 to 255 bytes each";

/// Why a text is no two schemas.
fn wrong_schemas<A: Allocator + Copy>(
    alloc: A,
    command: &mut Command<'_>,
    text: &str,
) -> Result<ArgumentsFault<A>, AllocError>
    ensures { IfOk result (λ fault. IsWrong fault) }
{
    let option = format!(in alloc; "{REWRITTEN} <FROM:TO>")?;
    let told = wrong_value(alloc, command, option.as_str(), text, TWO_NAMES)?;
    Ok(ArgumentsFault::Wrong(told))
}
