//! What the programs have in common at their edge: the lines on standard error, the options of a command, byte positions among their values, what the parser of arguments answers in place of matches, and
//! the seed of a run.
#![tactic(auto)]

mod arguments;
mod escapes;
mod lines;
mod positions;
mod seed;

pub use arguments::{Described, FLAG, Takes, Told, add_arguments, read_error};
pub use escapes::{are_harmless, escaped_arguments};
pub use lines::put_line;
pub use positions::{POSITION, position_of, wrong_value};
pub use seed::seed_of_run;

/// The version of the programs, and the toolchain that proved them.
pub const VERSION: &str = "0.1.0 (proved with rattle-kit-13f)";
