//! What is promised of reports of logs.

ghost use Rattle.std.specs.Prelude.{◌≡◌, List, filter, ℕ};
ghost use Rattle.blog_report.specs.Said.{nothing_said};
ghost use Rattle.list_run.specs.Listed.{Listing, NamedLog};
ghost use Rattle.show_run.specs.Reported.{counts_from, is_of_key, rows_at, sum_rows, with_logs};

/// The rows that a report counts are those of chosen tables that the wanted units of its logs change, all together. The call does nothing.
pub fn reported_rows_are_sums()
    ensures { (l : Listing) (logs : List NamedLog) → (with_logs l 0 logs nothing_said).rows ≡ sum_rows (counts_from l 0 logs) }
{}

/// So are the rows that it counts of each table, by the table's key: its rows in these units. The call does nothing.
pub fn rows_of_each_table_are_sums()
    ensures { (l : Listing) (logs : List NamedLog) (key : List ℕ)
        → rows_at key (with_logs l 0 logs nothing_said).tables ≡ sum_rows (filter (is_of_key key) (counts_from l 0 logs)) }
{}
