//! Byte positions among the values of options, and what is told of a wrong value.

ghost use Rattle.std.specs.Prelude.{SomeIff};
ghost use Rattle.std.specs.Str.Parse.{digits_value};
ghost use Rattle.console.specs.Positions.{IsPosition};

use crate::escapes::escaped;
use clap::Command;
use clap::error::ErrorKind;
use std::alloc::{AllocError, Allocator};

/// What a position is, as it is told of a value that is none.
pub const POSITION: &str = "a position: decimal digits, 0 to 4294967295";

/// The byte position that a value means: decimal digits and nothing else, below 2^32. None of any other value.
pub fn position_of(value: &str) -> Option<u32>
    ensures { SomeIff result (IsPosition value.now) (digits_value 10 value.now) }
{
    // the parser of numbers takes a plus
    match value.as_bytes().first() {
        Some(b'+') => None,
        _ => value.parse().ok(),
    }
}

/// What the parser of arguments tells of a wrong value of an option, such as `name <POS>`; `has_to_be` says what a value is. The
/// value is escaped.
pub fn wrong_value<A: Allocator + Copy>(
    alloc: A,
    command: &mut Command<'_>,
    option: &str,
    value: &str,
    has_to_be: &str,
) -> Result<String<A>, AllocError> {
    let value = escaped(alloc, value)?;
    let text = format!(in alloc; "invalid value '{value}' for '--{option}': not {has_to_be}")?;
    let error = command.error(ErrorKind::ValueValidation, text.as_str())?;
    error.to_string(alloc)
}
