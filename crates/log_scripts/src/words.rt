//! The words of a run.

use blog_flash::Mode;
use blog_trans::Selection;

/// What is asked of a log.
#[derive(Clone, Copy)]
pub enum Asked {
    Text(Mode),
    Groups,
    Entries,
    Tables,
}

/// What the first word of a run asks for.
pub fn asked_by(word: &str) -> Option<Asked> {
    match word {
        "undo" => Some(Asked::Text(Mode::Flashback)),
        "forward" => Some(Asked::Text(Mode::Forward)),
        "undo-sql" => Some(Asked::Text(Mode::FlashbackSql)),
        "sql" => Some(Asked::Text(Mode::ForwardSql)),
        "summary" => Some(Asked::Text(Mode::Summary)),
        "groups" => Some(Asked::Groups),
        "entries" => Some(Asked::Entries),
        "tables" => Some(Asked::Tables),
        _ => None,
    }
}

/// The value of an option, if it is given.
fn value_of<'a>(words: &'a [String], option: &str) -> Option<&'a str> {
    for pair in words.chunks(2) {
        if let [name, value] = pair {
            if name.as_str() == option {
                return Some(value.as_str());
            }
        }
    }
    None
}

/// Whether these are options and their values.
fn are_options(words: &[String]) -> bool {
    for pair in words.chunks(2) {
        let [name, _] = pair else {
            return false;
        };
        if !matches!(name.as_str(), "-j" | "--stop-position" | "-d" | "-T") {
            return false;
        }
    }
    true
}

/// The selection that options and their values make.
pub fn selected_by(words: &[String]) -> Option<Selection<'_>> {
    if !are_options(words) {
        return None;
    }
    let start = value_of(words, "-j").unwrap_or("4").parse::<u32>().ok()?;
    let stop = match value_of(words, "--stop-position") {
        Some(text) => Some(text.parse::<u32>().ok()?),
        None => None,
    };
    Some(Selection {
        start,
        stop,
        database: value_of(words, "-d").map(str::as_bytes),
        table: value_of(words, "-T").map(str::as_bytes),
    })
}
