//! Texts for a terminal: no character of them changes what it shows of others.

ghost use Rattle.std.specs.Prelude.{◌≤◌};

use std::alloc::{AllocError, Allocator};

/// The hexadecimal digits.
const DIGITS: &[u8; 16] = b"0123456789abcdef";

/// How many bytes a character has at most, escaped.
const MOST: usize = 8;

/// A character as it is shown: itself, or its escape.
#[derive(Clone, Copy, Debug)]
pub(crate) struct Shown {
    bytes: [u8; MOST],
    len: usize,
    ghost within: { len ≤ 8 },
}

impl Shown {
    /// Returns what is shown of a character. It is escaped as in lists: a backslash is doubled, and no control character and none
    /// that hides, joins or turns what stands beside it is shown as it is.
    pub(crate) fn new(c: char) -> Shown {
        let mut shown = Shown {
            bytes: [0; MOST],
            len: 0,
        };
        match c {
            '\\' => shown.put(b"\\\\"),
            '\n' => shown.put(b"\\n"),
            '\t' => shown.put(b"\\t"),
            '\r' => shown.put(b"\\r"),
            _ if c.is_control() => {
                for byte in c.encode_utf8(&mut [0; 4]).as_bytes() {
                    shown.put(b"\\x");
                    shown.put_hex(*byte);
                }
            }
            _ if is_layout(c) => {
                let number = u32::from(c);
                shown.put(b"\\u{");
                shown.put_hex((number >> 8 & 0xFF) as u8);
                shown.put_hex((number & 0xFF) as u8);
                shown.put(b"}");
            }
            _ => shown.put(c.encode_utf8(&mut [0; 4]).as_bytes()),
        }
        shown
    }

    /// Returns its bytes, which are UTF-8.
    pub(crate) fn bytes(&self) -> &[u8] {
        &self.bytes[..self.len]
    }

    /// Appends bytes for which there is room.
    fn put(&mut self, part: &[u8]) {
        for byte in part {
            if self.len < MOST {
                self.bytes[self.len] = *byte;
                self.len += 1;
            }
        }
    }

    /// Appends the two digits of a byte.
    fn put_hex(&mut self, byte: u8) {
        self.put(&[
            DIGITS[usize::from(byte >> 4)],
            DIGITS[usize::from(byte & 15)],
        ]);
    }
}

/// Returns whether a character hides, joins or turns what stands beside it.
fn is_layout(c: char) -> bool {
    matches!(c, '\u{61C}' | '\u{200B}'..='\u{200F}' | '\u{2028}'..='\u{202E}' | '\u{2060}'..='\u{2069}' | '\u{FEFF}')
}

/// Returns whether no character of a text could change what a terminal shows of others.
fn is_harmless(text: &str) -> bool {
    text.chars().all(|c| !c.is_control() && !is_layout(c))
}

/// Returns whether this holds of all arguments.
pub fn are_harmless(arguments: &[String]) -> bool {
    arguments
        .iter()
        .all(|argument| is_harmless(argument.as_str()))
}

/// Returns a text with each character escaped that could change what a terminal shows of others.
pub(crate) fn escaped<A: Allocator>(alloc: A, text: &str) -> Result<String<A>, AllocError> {
    let mut shown = String::new(alloc);
    for c in text.chars() {
        // a character as it is shown is UTF-8
        shown.push_str(str::from_utf8(Shown::new(c).bytes()).unwrap_or(""))?;
    }
    Ok(shown)
}

/// Returns arguments that differ from these in that such characters are escaped.
pub fn escaped_arguments<A: Allocator + Copy>(
    alloc: A,
    arguments: &[String],
) -> Result<Vec<String<A>, A>, AllocError> {
    let mut shown = Vec::new(alloc);
    for argument in arguments {
        shown.push(escaped(alloc, argument.as_str())?)?;
    }
    Ok(shown)
}
