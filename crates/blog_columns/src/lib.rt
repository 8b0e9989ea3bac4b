//! The columns of a table map: their types, and what the map says of them beside that: names, signs, character sets, the texts of
//! ENUM and SET, and the primary key.
#![tactic(auto)]

mod character_set;
mod column;
mod fields;
mod packed;
mod reading;

pub use character_set::CharacterSet;
pub use column::{Column, Sign};
pub use packed::{Text, text_at};
pub use reading::read_columns;
