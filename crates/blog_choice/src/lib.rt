//! Which tables a user chooses by name, and whether a statement names one of them.
#![tactic(auto)]

mod choice;
mod chosen_names;
mod laws;
mod name_set;
mod naming;
mod words;

pub use choice::{TableChoice, TableName};
pub use chosen_names::ChosenNames;
pub use laws::{names_are_read, statements_about_chosen_tables_name_them, words_are_found_exactly};
