//! What MySQL binary logs have, as a picture: when rows were inserted, updated and deleted, and of which table, which
//! transactions are the largest and the longest, and which can't be undone. As a page of HTML, or as lines for a terminal.
#![tactic(auto)]

mod bars;
mod cells;
mod facts;
mod html;
mod laws;
mod line_units;
mod lines;
mod page;
mod page_picture;
mod page_script;
mod page_style;
mod page_tables;
mod page_units;
mod ranking;
mod report;
mod seeded;
mod shell;
mod sums;
mod tables;
mod timeline;

pub use facts::{TableRows, UnitFact};
pub use laws::{names_make_no_tags, rankings_are_sorted, words_are_read_as_names};
pub use report::{Report, ReportTotals};
pub use sums::RowSums;
