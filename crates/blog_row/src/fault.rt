//! Why a body is refused.

/// Why the body of a table map or a rows event is refused.
#[derive(Clone, Copy, Debug, PartialEq, Eq)]
pub enum RowFault {
    /// A column isn't in the images.
    PartialImage,
    /// A column type that the profile lacks.
    UnknownType,
    /// A body that doesn't have its layout.
    BadBody,
}
