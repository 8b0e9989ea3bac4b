//! The words of a line, and bytes that are changed by words.

use crate::wrong::Wrong;

/// The words of a line, between blanks. One in apostrophes may have blanks.
pub(crate) fn words_of<'a>(rt: &HostRuntime, line: &'a str) -> Result<Vec<&'a str>, Wrong> {
    let mut words = Vec::new(rt.alloc());
    let mut is_quoted = false;
    for part in line.split('\'') {
        if is_quoted {
            words.push(part)?;
        } else {
            for word in part.split_ascii_whitespace() {
                words.push(word)?;
            }
        }
        is_quoted = !is_quoted;
    }
    Ok(words)
}

/// Changes bytes as this word says.
pub(crate) fn change(bytes: &mut Vec<u8>, word: &str) -> Result<(), Wrong> {
    if let Some(len) = word.strip_prefix("..") {
        bytes.truncate(number(len)?);
        return Ok(());
    }
    if let Some(at) = word.strip_prefix("^") {
        *byte_at(bytes, at)? ^= 1;
        return Ok(());
    }
    let (at, byte) = word.split_once('=').ok_or(Wrong::Change)?;
    *byte_at(bytes, at)? = u8::try_from(number(byte)?)?;
    Ok(())
}

fn byte_at<'b>(bytes: &'b mut Vec<u8>, at: &str) -> Result<&'b mut u8, Wrong> {
    Ok(bytes.get_mut(number(at)?).ok_or(Wrong::Change)?)
}

fn number(text: &str) -> Result<usize, Wrong> {
    Ok(text.parse::<usize>()?)
}
