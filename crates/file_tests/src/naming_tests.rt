//! The names of temporary files.

use crate::folders::PROCESS;
use result_file::{folder_of, temporary_name};
use std::process::Abort;
use std::test::Fail;

#[test]
fn the_temporary_name_is_in_the_same_folder(rt: HostRuntime) -> Result<(), Fail> {
    let cases = [
        ("undo.binlog", ".undo.binlog.77.0.tmp"),
        ("/tmp/undo.binlog", "/tmp/.undo.binlog.77.0.tmp"),
        ("/undo", "/.undo.77.0.tmp"),
        ("a/b/", "a/b/..77.0.tmp"),
    ];
    for (path, wanted) in cases {
        let name = temporary_name(rt.alloc(), path, PROCESS, 0)?;
        assert!(rt; name.as_str() == wanted);
    }
    let folders = [
        ("undo", "."),
        ("/undo", "/"),
        ("/tmp/undo", "/tmp"),
        ("a/b/c", "a/b"),
    ];
    for (path, wanted) in folders {
        assert!(rt; folder_of(path) == wanted);
    }
    let mut long = String::new(rt.alloc());
    for _ in 0..199 {
        long.push('n')?;
    }
    long.push_str("\u{e9}nd")?;
    let name = temporary_name(rt.alloc(), long.as_str(), PROCESS, 1)?;
    assert!(rt; name.len() == 1 + 199 + 9);
    assert!(rt; name.as_str().ends_with("nn.77.1.tmp"));
    Ok(())
}
