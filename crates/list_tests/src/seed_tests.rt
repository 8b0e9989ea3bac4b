//! Lists by several seeds.

use blog_device::Watched;
use blog_list::{Style, list};
use list_calls::lists::{ALL, JSON, TEXT};
use list_calls::sources::source_of;
use sample_logs::samples::MULTI_TABLE;
use std::process::Abort;
use std::test::Fail;

/// The list of the wanted units of a log that a server wrote, in a style.
fn list_of(rt: &(impl AllocGlobal + Abort), style: &Style<'_>) -> Result<Vec<u8>, Fail> {
    let mut output = Watched::new(Vec::new(rt.alloc()));
    let source = source_of(rt, &MULTI_TABLE)?;
    let answer = list(rt.alloc(), rt.alloc(), &source, &ALL, style, &mut output);
    assert!(rt; answer == Ok(None));
    Ok(output.device().to_vec(rt.alloc())?)
}

#[test]
fn lists_are_the_same_by_each_seed(rt: HostRuntime) -> Result<(), Fail> {
    for style in [TEXT, JSON] {
        let fixed = list_of(&rt, &style)?;
        let seeded = list_of(&rt, &Style { seed: 7, ..style })?;
        assert!(rt; seeded.as_slice() == fixed.as_slice());
    }
    Ok(())
}
