//! Which files are the same.

use crate::folders::{Folder, TEXT};
use result_file::{FileId, are_same, first_repeated};
use std::fs;
use std::os::unix::fs::symlink;
use std::process::Abort;
use std::test::Fail;

/// The id of the file of this path.
fn id_of(rt: &HostRuntime, path: &str) -> Result<FileId, Fail> {
    Ok(FileId::of(&fs::metadata(rt, path)?))
}

#[test]
fn all_names_of_a_file_have_one_id(rt: HostRuntime) -> Result<(), Fail> {
    let folder = Folder::new(&rt, "ids")?;
    let linked = folder.path.join(rt.alloc(), "LINKED")?;
    let symbolic = folder.path.join(rt.alloc(), "SYMBOLIC")?;
    fs::write(&rt, folder.file.as_path(), TEXT)?;
    fs::hard_link(&rt, folder.log.as_path(), linked.as_path())?;
    symlink(&rt, folder.log.as_path(), symbolic.as_path())?;
    let log = id_of(&rt, folder.log.as_str())?;
    let file = id_of(&rt, folder.file.as_str())?;
    let linked = id_of(&rt, linked.as_str())?;
    let symbolic = id_of(&rt, symbolic.as_str())?;
    folder.remove(&rt)?;
    assert!(rt; are_same(&log, &linked));
    assert!(rt; are_same(&log, &symbolic));
    assert!(rt; !are_same(&log, &file));
    assert!(rt; log.device == file.device);
    assert!(rt; first_repeated(&[log, file]) == None);
    assert!(rt; first_repeated(&[file, log, file, linked]) == Some((0, 2)));
    assert!(rt; first_repeated(&[file, log, linked, file]) == Some((1, 2)));
    Ok(())
}

/// The folders at which the file systems of the kernel begin have the number 1 on each of them.
#[test]
fn a_number_is_of_one_device(rt: HostRuntime) -> Result<(), Fail> {
    let processes = id_of(&rt, "/proc")?;
    let devices = id_of(&rt, "/sys")?;
    assert!(rt; processes.number == devices.number);
    assert!(rt; processes.device != devices.device);
    assert!(rt; !are_same(&processes, &devices));
    Ok(())
}
