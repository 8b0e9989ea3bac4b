//! Documents of MySQL's binary JSON as JSON text, as MySQL prints them (MySQL's sources, sql-common/json_binary.h).
#![tactic(auto)]

mod containers;
mod decimals;
mod documents;
mod doubles;
mod kinds;
mod lengths;
mod opaques;
mod scalars;
mod slices;
mod strings;
mod texts;
mod times;

pub use documents::put_document;
