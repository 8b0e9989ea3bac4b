//! Checks of what bytes mean in a column.

use blog_value::{ColumnType, Value, put_value, read_value};
use std::process::Abort;
use std::test::Fail;

/// Returns whether a value is unknown.
pub(crate) fn is_unknown(value: &Value<'_>) -> bool {
    matches!(value, Value::Unknown(_))
}

/// Checks the text of bytes, given as hexadecimal digits, in a column.
pub(crate) fn check_of(
    rt: &(impl AllocGlobal + Abort),
    column: &ColumnType<'_>,
    unsigned: bool,
    digits: &str,
    text: &str,
) -> Result<(), Fail> {
    let bytes = hex::decode(rt.alloc(), digits)?;
    let value = read_value(column, unsigned, bytes.as_slice());
    let mut out = Vec::new(rt.alloc());
    let has_text = put_value(&mut out, &value)?;
    assert!(rt; has_text, "{digits}");
    let shown = str::from_utf8(out.as_slice())?;
    assert_eq!(rt; shown, text, "{digits}");
    Ok(())
}

/// Checks the text of bytes in a column of a type with metadata.
pub(crate) fn check(
    rt: &(impl AllocGlobal + Abort),
    kind: u8,
    metadata: &[u8],
    digits: &str,
    text: &str,
) -> Result<(), Fail> {
    check_of(rt, &ColumnType { kind, metadata }, false, digits, text)
}

/// Checks that bytes aren't a value of a column.
pub(crate) fn check_unknown(
    rt: &(impl AllocGlobal + Abort),
    kind: u8,
    metadata: &[u8],
    digits: &str,
) -> Result<(), Fail> {
    let bytes = hex::decode(rt.alloc(), digits)?;
    let value = read_value(&ColumnType { kind, metadata }, false, bytes.as_slice());
    assert!(rt; is_unknown(&value), "{digits}");
    let mut out = Vec::new(rt.alloc());
    assert!(rt; !put_value(&mut out, &value)?, "{digits}");
    assert!(rt; out.is_empty(), "{digits}");
    Ok(())
}
