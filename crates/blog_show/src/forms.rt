//! How rows are shown.

ghost use Rattle.std.specs.Prelude.{◌≡◌, ◌∷◌, ◌++◌, [], OnOk};
ghost use Rattle.blog_show.specs.Shown.{front_of, json_front, mark_of};

use blog_text::{put_string, put_text};
use jiff::tz::TimeZone;
use std::alloc::{AllocError, Allocator};

/// What the line of a row looks like.
#[derive(Clone, Copy, Debug)]
pub enum RowForm<'n> {
    /// A line for people, on which an update has the columns that it changes. Texts are cut to a width.
    Lines,
    /// An object of JSON (RFC 8259), with the images of the row whole. Integers of at most 2^53, FLOAT, DOUBLE and YEAR are numbers, and
    /// a document of MySQL's JSON stands as it is. The other values are strings: bytes as `0x..`, and those that aren't what their type
    /// says as `?0x..`. The number of an ENUM or a SET stands for its text where the map doesn't have it, and an integer is read with a
    /// sign where the map doesn't say that it has none.
    Json {
        /// The name of the log, as it was given.
        log: &'n [u8],
    },
    /// Values with commas between them (RFC 4180), below a line with the names of their columns. That line comes again where they
    /// change, so this is for one table. An update has two lines. Values have the texts that they have in JSON; NULL is an empty field,
    /// and an empty text is `""`.
    Csv,
}

/// How rows are shown.
#[derive(Clone, Copy)]
pub struct RowStyle<'z> {
    /// The time zone in which times are shown.
    pub zone: TimeZone<'z>,
    /// What the line of a row looks like.
    pub form: RowForm<'z>,
    /// Whether an update shows the columns that it leaves too, on a line for people.
    pub all_columns: bool,
    /// In how many columns of a terminal a text is shown on a line for people; what is longer is cut.
    pub width: usize,
}

/// Appends what is in front of the place on a line.
pub(crate) fn put_front<A: Allocator>(
    out: &mut Vec<u8, A>,
    form: &RowForm<'_>,
) -> Result<(), AllocError>
    ensures { OnOk result (out.new.items ≡ out.old.items ++ front_of form.now) }
{
    match form {
        RowForm::Lines => Ok(()),
        RowForm::Json { log } => put_log(out, *log),
        RowForm::Csv => Ok(()),
    }
}

/// Appends the name of a log, in front of a place in JSON.
fn put_log<A: Allocator>(out: &mut Vec<u8, A>, log: &[u8]) -> Result<(), AllocError>
    ensures { OnOk result (out.new.items ≡ out.old.items ++ json_front log.now) }
{
    put_text(out, b"{\"log\":")?;
    put_string(out, log)?;
    put_text(out, b",\"position\":")
}

/// What stands behind the place on a line.
pub(crate) fn mark_of(form: &RowForm<'_>) -> u8
    ensures { result ≡ mark_of form.now }
{
    match form {
        RowForm::Lines => b' ',
        RowForm::Json { .. } => b',',
        RowForm::Csv => b',',
    }
}
