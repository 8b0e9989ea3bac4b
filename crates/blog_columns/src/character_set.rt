//! Character sets, by the numbers of their collations.

/// How the bytes of a text are characters, as far as texts are shown by it.
#[derive(Clone, Copy, Debug, PartialEq, Eq)]
pub enum CharacterSet {
    /// The map doesn't say.
    Unknown,
    /// They are no characters.
    Binary,
    /// ASCII, or UTF-8 of three or four bytes.
    Utf8,
    /// One byte for each character (ISO 8859-1, with the characters of Windows from 128 to 159).
    Latin1,
    /// Another one.
    Other,
}

impl CharacterSet {
    /// Returns the character set of a collation by its number (`information_schema.COLLATIONS`, of MySQL and MariaDB).
    pub(crate) fn of_collation(number: u64) -> CharacterSet {
        match number {
            63 => CharacterSet::Binary,
            // ascii
            11 | 65 | 1035 | 1089 => CharacterSet::Utf8,
            // utf8mb3
            33 | 76 | 83 | 192..=223 | 352 | 576..=578 | 1057 | 1107 | 1216..=1247 =>
                CharacterSet::Utf8,
            // utf8mb4
            45 | 46 | 224..=247 | 255..=323 | 608..=610 | 1069 | 1070 | 1248..=1271 =>
                CharacterSet::Utf8,
            // MariaDB's UCA 14.0.0 of utf8mb3 and utf8mb4
            2048..=2559 => CharacterSet::Utf8,
            5 | 8 | 15 | 31 | 47..=49 | 94 | 1032 | 1071 => CharacterSet::Latin1,
            _ => CharacterSet::Other,
        }
    }
}
