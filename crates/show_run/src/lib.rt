//! The runs behind `show` and `report`: the rows that the units of one log or of several change, each log read when its turn comes.
#![tactic(auto)]

mod ends;
mod laws;
mod reported;
mod shown;
mod source_report;
mod source_rows;
mod turns;

pub use laws::{reported_rows_are_sums, rows_of_each_table_are_sums};
pub use reported::{Reported, report_logs};
pub use shown::show_logs;
