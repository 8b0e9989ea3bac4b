//! The arguments of the program.

/// What is measured.
#[derive(Clone, Copy)]
pub enum Layer {
    /// Going through events, and copying them.
    Events,
    /// Reading rows events, and writing their images in reverse order.
    Rows,
    /// The index of a whole log.
    Index,
    /// The CRC-32 of the whole log.
    Sums,
    /// All of these, one after the other.
    All,
}

impl Layer {
    /// The layer of this name.
    fn of_word(word: &str) -> Option<Layer> {
        match word {
            "events" => Some(Layer::Events),
            "rows" => Some(Layer::Rows),
            "index" => Some(Layer::Index),
            "sums" => Some(Layer::Sums),
            "all" => Some(Layer::All),
            _ => None,
        }
    }

    /// Whether events are measured.
    pub fn has_events(self) -> bool {
        matches!(self, Layer::Events | Layer::All)
    }

    /// Whether rows events are measured.
    pub fn has_rows(self) -> bool {
        matches!(self, Layer::Rows | Layer::All)
    }

    /// Whether the index is measured.
    pub fn has_index(self) -> bool {
        matches!(self, Layer::Index | Layer::All)
    }

    /// Whether sums are measured.
    pub fn has_sums(self) -> bool {
        matches!(self, Layer::Sums | Layer::All)
    }
}

/// What the arguments ask for.
#[derive(Drop)]
pub struct Task<'w> {
    /// What is measured.
    pub layer: Layer,
    /// The name of the log's file.
    pub log: &'w str,
    /// How often each is measured; with 0 it is done once, and only what was seen is printed.
    pub times: u32,
}

/// Reads `LAYER LOG [TIMES]` behind the program's name.
pub fn read_words(words: &[String]) -> Option<Task<'_>> {
    let times = match words.get(3) {
        Some(times) => times.as_str().parse().ok()?,
        None => 0,
    };
    if words.len() > 4 {
        return None;
    }
    Some(Task {
        layer: Layer::of_word(words.get(1)?.as_str())?,
        log: words.get(2)?.as_str(),
        times,
    })
}
