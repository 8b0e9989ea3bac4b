//! How changes are written.

use blog_row::Order;
use blog_sql::SqlOptions;

/// How changes are written.
#[derive(Clone, Copy, Debug)]
pub struct Writing<'w> {
    /// As they are (forward), or what undoes them (backward).
    pub order: Order,
    /// How many bytes a statement has at most: its maps and rows events, headers included. A single rows event with its map can have
    /// more.
    pub limit: usize,
    /// How they are printed as SQL; none where they are written as a log.
    pub sql: Option<SqlOptions<'w>>,
}
