//! The types of values.

ghost use Rattle.std.specs.Prelude.{◌≡◌};
ghost use Rattle.blog_json.specs.Kinds.{is_inlined, kind_of, width_bytes};

/// How many bytes a count, a size or an offset in an object or an array takes.
#[derive(Clone, Copy, Debug)]
pub(crate) enum Width {
    /// Two bytes.
    Small,
    /// Four bytes.
    Large,
}

impl Width {
    /// Returns that number of bytes.
    pub(crate) fn bytes(self) -> usize
        ensures { result ≡ width_bytes self }
    {
        match self {
            Width::Small => 2,
            Width::Large => 4,
        }
    }
}

/// The type of a value.
#[derive(Clone, Copy, Debug)]
pub(crate) enum Kind {
    /// Members, each with a key.
    Object(Width),
    /// Elements in order.
    Array(Width),
    /// `null`, `true` or `false`.
    Literal,
    /// A signed number of two bytes.
    Int16,
    /// An unsigned number of two bytes.
    Uint16,
    /// A signed number of four bytes.
    Int32,
    /// An unsigned number of four bytes.
    Uint32,
    /// A signed number of eight bytes.
    Int64,
    /// An unsigned number of eight bytes.
    Uint64,
    /// A floating-point number of eight bytes.
    Double,
    /// A string.
    Text,
    /// A value of a type of columns that JSON lacks.
    Opaque,
}

impl Kind {
    /// Returns the type that a byte stands for (MySQL's sources, json_binary.cc, `JSONB_TYPE_SMALL_OBJECT` and what follows).
    pub(crate) fn of(byte: u8) -> Option<Kind>
        ensures { result ≡ kind_of byte }
    {
        match byte {
            0x00 => Some(Kind::Object(Width::Small)),
            0x01 => Some(Kind::Object(Width::Large)),
            0x02 => Some(Kind::Array(Width::Small)),
            0x03 => Some(Kind::Array(Width::Large)),
            0x04 => Some(Kind::Literal),
            0x05 => Some(Kind::Int16),
            0x06 => Some(Kind::Uint16),
            0x07 => Some(Kind::Int32),
            0x08 => Some(Kind::Uint32),
            0x09 => Some(Kind::Int64),
            0x0A => Some(Kind::Uint64),
            0x0B => Some(Kind::Double),
            0x0C => Some(Kind::Text),
            0x0F => Some(Kind::Opaque),
            _ => None,
        }
    }

    /// Returns whether an entry of this width has the value itself in place of its offset (json_binary.cc, `inlined_type`).
    pub(crate) fn is_inlined(self, width: Width) -> bool
        ensures { result ≡ is_inlined self width }
    {
        match self {
            Kind::Literal | Kind::Int16 | Kind::Uint16 => true,
            Kind::Int32 | Kind::Uint32 => matches!(width, Width::Large),
            _ => false,
        }
    }
}
