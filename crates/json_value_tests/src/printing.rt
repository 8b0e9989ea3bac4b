//! Documents that are printed behind a text that was there.

use blog_json::put_document;
use std::process::Abort;
use std::test::Fail;

/// What stands in front of each document's text.
const FRONT: &[u8] = b"j: ";

/// Checks the text of a document.
pub(crate) fn check_text<R: AllocGlobal + Abort>(
    rt: &R,
    document: &[u8],
    text: &[u8],
) -> Result<(), Fail> {
    let mut out = Vec::from_slice(rt.alloc(), FRONT)?;
    let mut expected = Vec::from_slice(rt.alloc(), FRONT)?;
    expected.extend_from_slice(text)?;
    let printed = put_document(&mut out, document)?;
    assert!(rt; out.as_slice() == expected.as_slice());
    assert!(rt; printed);
    Ok(())
}

/// Checks that bytes are no document, and that nothing is written.
pub(crate) fn check_none<R: AllocGlobal + Abort>(rt: &R, bytes: &[u8]) -> Result<(), Fail> {
    let mut out = Vec::from_slice(rt.alloc(), FRONT)?;
    let printed = put_document(&mut out, bytes)?;
    assert!(rt; !printed);
    assert!(rt; out.as_slice() == FRONT);
    Ok(())
}
