//! Names as words of a shell's command.

ghost use Rattle.std.specs.Prelude.{◌≡◌, ◌++◌, OnOk};
ghost use Rattle.blog_report.specs.Shell.{is_plain, is_word, quoted_byte, shell_file, shell_word, show_command, undo_command};

use blog_text::{put_number, put_text};
use std::alloc::{AllocError, Allocator};

/// Whether a byte stands for itself in a shell's word: a letter, a digit, or one of `% + , - . / : = @ _`.
fn is_plain(byte: u8) -> bool
    ensures { result ≡ is_plain byte }
{
    byte.is_ascii_alphanumeric()
        || matches!(
            byte,
            b'%' | b'+' | b',' | b'-' | b'.' | b'/' | b':' | b'=' | b'@' | b'_'
        )
}

/// Whether each byte of a text does, and there is one.
fn is_word(text: &[u8]) -> bool
    ensures { result ≡ is_word text.now }
{
    'bytes: for i in 0..text.len() {
        if !is_plain(text[i]) {
            return false;
        }
    }
    !text.is_empty()
}

/// Appends a byte between single quotes.
fn put_between_quotes<A: Allocator>(out: &mut Vec<u8, A>, byte: u8) -> Result<(), AllocError>
    ensures { OnOk result (out.new.items ≡ out.old.items ++ quoted_byte byte) }
{
    if byte == b'\'' {
        put_text(out, b"'\\''")
    } else {
        put_text(out, &[byte])
    }
}

/// Appends a text as a shell's word: as it is, or between single quotes.
fn put_word<A: Allocator>(out: &mut Vec<u8, A>, text: &[u8]) -> Result<(), AllocError>
    ensures { OnOk result (out.new.items ≡ out.old.items ++ shell_word text.now) }
{
    if is_word(text) {
        return put_text(out, text);
    }
    put_text(out, b"'")?;
    for byte in text {
        put_between_quotes(out, *byte)?;
    }
    put_text(out, b"'")
}

/// Appends the name of a file as a shell's word that no command takes for an option.
#[tactic(auto, unfolding(crate::specs::Shell::shell_file))]
pub(crate) fn put_file<A: Allocator>(out: &mut Vec<u8, A>, name: &[u8]) -> Result<(), AllocError>
    ensures { OnOk result (out.new.items ≡ out.old.items ++ shell_file name.now) }
{
    if name.first() == Some(&b'-') {
        put_text(out, b"./")?;
    }
    put_word(out, name)
}

/// Appends the command that shows a unit.
pub(crate) fn put_show<A: Allocator>(
    out: &mut Vec<u8, A>,
    position: u32,
    log: &[u8],
) -> Result<(), AllocError>
    ensures { OnOk result (out.new.items ≡ out.old.items ++ show_command position log.now) }
{
    put_text(out, b"binlog show --at ")?;
    put_number(out, u64::from(position))?;
    put_text(out, b" ")?;
    put_file(out, log)
}

/// Appends the command that writes SQL that undoes a unit.
pub(crate) fn put_undo<A: Allocator>(
    out: &mut Vec<u8, A>,
    position: u32,
    log: &[u8],
) -> Result<(), AllocError>
    ensures { OnOk result (out.new.items ≡ out.old.items ++ undo_command position log.now) }
{
    put_text(out, b"binlog undo --at ")?;
    put_number(out, u64::from(position))?;
    put_text(out, b" -r undo.sql ")?;
    put_file(out, log)
}
