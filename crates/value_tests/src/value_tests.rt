//! ENUM and SET columns, and those of text and bytes.

use crate::checks::is_unknown;
use blog_value::{ColumnType, Value, put_value, read_value};
use std::process::Abort;
use std::test::Fail;

/// What bytes are in a column, without them.
#[derive(Clone, Copy, Debug, PartialEq, Eq)]
enum Shape {
    Enum(u64),
    Set(u64),
    Text,
    Blob,
    Json,
    Geometry,
    Unknown,
    Other,
}

/// Returns what bytes are in a column. The bytes of a text or the like have to be these.
fn shape_of(column: &ColumnType<'_>, bytes: &[u8]) -> Shape {
    match read_value(column, false, bytes) {
        Value::Enum(n) => Shape::Enum(n),
        Value::Set(n) => Shape::Set(n),
        Value::Text(text) if text == bytes => Shape::Text,
        Value::Blob(text) if text == bytes => Shape::Blob,
        Value::Json(text) if text == bytes => Shape::Json,
        Value::Geometry(text) if text == bytes => Shape::Geometry,
        Value::Unknown(text) if text == bytes => Shape::Unknown,
        _ => Shape::Other,
    }
}

/// Checks what bytes are in a column, and that they have no text.
fn check_shape(
    rt: &(impl AllocGlobal + Abort),
    kind: u8,
    metadata: &[u8],
    bytes: &[u8],
    expected: Shape,
) -> Result<(), Fail> {
    let column = ColumnType { kind, metadata };
    assert_eq!(rt; shape_of(&column, bytes), expected, "{kind}");
    let mut out = Vec::new(rt.alloc());
    assert!(rt;
        !put_value(&mut out, &read_value(&column, false, bytes))?,
        "{kind}"
    );
    assert!(rt; out.is_empty(), "{kind}");
    Ok(())
}

#[test]
fn enums_and_sets(rt: HostRuntime) -> Result<(), Fail> {
    check_shape(&rt, 254, &[247, 1], b"\x02", Shape::Enum(2))?;
    check_shape(&rt, 254, &[247, 2], b"\x02\x01", Shape::Enum(258))?;
    check_shape(&rt, 254, &[248, 1], b"\x05", Shape::Set(5))?;
    check_shape(&rt, 254, &[248, 3], b"\x01\x00\x80", Shape::Set(0x80_0001))?;
    check_shape(
        &rt,
        254,
        &[248, 8],
        b"\x01\x00\x00\x00\x00\x00\x00\x80",
        Shape::Set(0x8000_0000_0000_0001),
    )?;
    check_shape(&rt, 254, &[247, 2], b"\x02", Shape::Unknown)?;
    check_shape(&rt, 254, &[247, 1], b"", Shape::Unknown)?;
    check_shape(&rt, 254, &[248, 0], b"", Shape::Unknown)?;
    check_shape(
        &rt,
        254,
        &[248, 9],
        b"\x01\x00\x00\x00\x00\x00\x00\x00\x00",
        Shape::Unknown,
    )
}

#[test]
fn texts_and_bytes(rt: HostRuntime) -> Result<(), Fail> {
    check_shape(&rt, 254, &[254, 10], b"abc", Shape::Text)?;
    check_shape(&rt, 254, &[238, 40], b"", Shape::Text)?;
    check_shape(&rt, 15, &[10, 0], b"abc", Shape::Text)?;
    check_shape(&rt, 252, &[2], b"abc", Shape::Blob)?;
    check_shape(&rt, 245, &[4], b"\x00\x00\x00", Shape::Json)?;
    check_shape(&rt, 255, &[4], b"abc", Shape::Geometry)?;
    // types that no column of a table map has, and metadata of another length
    check_shape(&rt, 0, &[], b"abc", Shape::Unknown)?;
    check_shape(&rt, 253, &[10, 0], b"abc", Shape::Unknown)?;
    check_shape(&rt, 249, &[1], b"abc", Shape::Unknown)?;
    check_shape(&rt, 19, &[], b"\x80\x00\x00", Shape::Unknown)?;
    check_shape(&rt, 246, &[10], b"\x80\x00\x00\x3F\x30", Shape::Unknown)?;
    check_shape(&rt, 16, &[1, 0, 0], b"\x01", Shape::Unknown)
}

#[test]
fn texts_are_appended(rt: HostRuntime) -> Result<(), Fail> {
    let column = ColumnType {
        kind: 8,
        metadata: &[],
    };
    let value = read_value(&column, true, &[0xFF; 8]);
    assert!(rt; !is_unknown(&value));
    let mut out = Vec::new(rt.alloc());
    out.push(b'#')?;
    assert!(rt; put_value(&mut out, &value)?);
    assert_eq!(rt; out.as_slice(), b"#18446744073709551615".as_slice());
    Ok(())
}
