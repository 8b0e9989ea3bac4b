//! What the value of a column in a row image means, and its text.
#![tactic(auto)]

mod bit_values;
mod constants;
mod dates;
mod datetimes;
mod decimal_groups;
mod decimal_texts;
mod decimals;
mod floats;
mod fractions;
mod integers;
mod kinds;
mod laws;
mod texts;
mod times;
mod values;

pub use bit_values::{Bits, put_bits};
pub use dates::{Date, put_date, put_year};
pub use datetimes::{DateTime, Timestamp, put_datetime};
pub use decimal_texts::put_decimal;
pub use decimals::Decimal;
pub use floats::{put_double, put_float};
pub use fractions::{Fraction, put_fraction};
pub use integers::{put_signed, put_unsigned};
pub use kinds::ColumnType;
pub use laws::dates_are_read;
pub use times::{Time, put_time};
pub use values::{Value, put_value, read_value};
