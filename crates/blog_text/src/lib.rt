//! Texts of what a log has, for people and as JSON: bytes escaped, names, the numbers of rows by table.
#![tactic(auto)]

mod escapes;
mod json_text;
mod laws;
mod marks;
mod tables;
mod texts;

pub use escapes::{put_beginning, put_escaped, put_table};
pub use json_text::{put_char, put_lossy, put_str, put_string};
pub use laws::{short_texts_are_whole, shown_tables_fit};
pub use tables::{put_count, put_rows};
pub use texts::{put_byte, put_hex, put_number, put_text};
