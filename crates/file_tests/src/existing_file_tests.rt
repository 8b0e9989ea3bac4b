//! Names that something has already, before a run or meanwhile.

use crate::folders::{Folder, OLD, PROCESS, TEXT, write_text};
use crate::refusing_files::{Refusals, RefusingFiles};
use blog_device::put;
use result_file::{FileFault, ResultFile, Wanted, temporary_name};
use std::fs;
use std::os::unix::fs::{MetadataExt, symlink};
use std::process::Abort;
use std::test::Fail;

#[test]
fn a_new_file_is_its_owners_alone(rt: HostRuntime) -> Result<(), Fail> {
    let folder = Folder::new(&rt, "owned")?;
    assert!(rt; write_text(&rt, rt.alloc(), &folder.wanted(false)).is_ok());
    assert!(rt; folder.has(&rt, TEXT)?);
    let mode = fs::metadata(&rt, folder.file.as_path())?.mode();
    assert!(rt; mode & 0o777 == 0o600);
    assert!(rt; folder.has_names(&rt, 2)?);
    folder.remove(&rt)
}

#[test]
fn a_file_is_replaced_where_it_may_be(rt: HostRuntime) -> Result<(), Fail> {
    let folder = Folder::new(&rt, "replaced")?;
    fs::write(&rt, folder.file.as_path(), OLD)?;
    let outcome = write_text(&rt, rt.alloc(), &folder.wanted(false));
    assert!(rt; matches!(outcome, Err(FileFault::IsThere(_))));
    assert!(rt; folder.has(&rt, OLD)?);
    assert!(rt; write_text(&rt, rt.alloc(), &folder.wanted(true)).is_ok());
    assert!(rt; folder.has(&rt, TEXT)?);
    let mode = fs::metadata(&rt, folder.file.as_path())?.mode();
    assert!(rt; mode & 0o777 == 0o600);
    assert!(rt; folder.has_names(&rt, 2)?);
    folder.remove(&rt)
}

#[test]
fn the_log_is_never_replaced(rt: HostRuntime) -> Result<(), Fail> {
    let folder = Folder::new(&rt, "log")?;
    fs::hard_link(&rt, folder.log.as_path(), folder.file.as_path())?;
    for replace in [false, true] {
        let outcome = write_text(&rt, rt.alloc(), &folder.wanted(replace));
        assert!(rt; matches!(outcome, Err(FileFault::IsLog(_))));
    }
    fs::remove_file(&rt, folder.file.as_path())?;
    symlink(&rt, folder.log.as_path(), folder.file.as_path())?;
    for replace in [false, true] {
        let outcome = write_text(&rt, rt.alloc(), &folder.wanted(replace));
        assert!(rt; matches!(outcome, Err(FileFault::IsLog(_))));
    }
    assert!(rt; folder.has(&rt, b"the log")?);
    folder.remove(&rt)
}

#[test]
fn links_and_directories_stay(rt: HostRuntime) -> Result<(), Fail> {
    let folder = Folder::new(&rt, "links")?;
    let other = folder.path.join(rt.alloc(), "OTHER")?;
    symlink(&rt, other.as_path(), folder.file.as_path())?;
    for replace in [false, true] {
        let outcome = write_text(&rt, rt.alloc(), &folder.wanted(replace));
        assert!(rt; matches!(outcome, Err(FileFault::IsLink(_))));
    }
    fs::write(&rt, other.as_path(), OLD)?;
    for replace in [false, true] {
        let outcome = write_text(&rt, rt.alloc(), &folder.wanted(replace));
        assert!(rt; matches!(outcome, Err(FileFault::IsLink(_))));
    }
    assert!(rt; folder.has(&rt, OLD)?);
    fs::remove_file(&rt, folder.file.as_path())?;
    fs::create_dir(&rt, folder.file.as_path())?;
    for replace in [false, true] {
        let outcome = write_text(&rt, rt.alloc(), &folder.wanted(replace));
        assert!(rt; matches!(outcome, Err(FileFault::IsDirectory(_))));
    }
    assert!(rt; folder.has_names(&rt, 3)?);
    folder.remove(&rt)
}

#[test]
fn a_device_is_written_to(rt: HostRuntime) -> Result<(), Fail> {
    let folder = Folder::new(&rt, "device")?;
    let wanted = Wanted {
        path: "/dev/null",
        ..folder.wanted(false)
    };
    assert!(rt; write_text(&rt, rt.alloc(), &wanted).is_ok());
    let link = Wanted {
        path: folder.file.as_str(),
        ..wanted
    };
    symlink(&rt, "/dev/full", folder.file.as_path())?;
    let outcome = write_text(&rt, rt.alloc(), &link);
    assert!(rt;
        match &outcome {
            Err(FileFault::NotWritten(_, cause)) => cause.raw_os_error() == Some(28),
            _ => false,
        }
    );
    assert!(rt; folder.has_names(&rt, 2)?);
    assert!(rt; fs::exists(&rt, "/dev/full")?);
    folder.remove(&rt)
}

#[test]
fn a_file_that_appears_meanwhile_stays(rt: HostRuntime) -> Result<(), Fail> {
    for has_links in [false, true] {
        let folder = Folder::new(&rt, "meanwhile")?;
        let refusals = Refusals::new(0);
        let files = RefusingFiles {
            rt: &rt,
            refusals: &refusals,
            has_links,
        };
        let wanted = folder.wanted(false);
        let Ok(mut file) = ResultFile::create(&files, rt.alloc(), &wanted, &[]) else {
            return Err(Fail::new("nothing is there"));
        };
        assert!(rt; put(&mut file.writer, TEXT).is_ok());
        assert!(rt; !folder.is_there(&rt)?);
        fs::write(&rt, folder.file.as_path(), OLD)?;
        assert!(rt; matches!(file.finish(&files), Err(FileFault::IsThere(_))));
        assert!(rt; folder.has(&rt, OLD)?);
        assert!(rt; folder.has_names(&rt, 2)?);
        folder.remove(&rt)?;
    }
    Ok(())
}

#[test]
fn a_taken_temporary_name_is_left_alone(rt: HostRuntime) -> Result<(), Fail> {
    let folder = Folder::new(&rt, "taken")?;
    for number in 0..8 {
        let name = temporary_name(rt.alloc(), folder.file.as_str(), PROCESS, number)?;
        fs::write(&rt, name.as_str(), OLD)?;
        let outcome = write_text(&rt, rt.alloc(), &folder.wanted(true));
        assert!(rt; fs::read(&rt, name.as_str())?.as_slice() == OLD);
        if number < 7 {
            assert!(rt; outcome.is_ok());
            assert!(rt; folder.has(&rt, TEXT)?);
            fs::remove_file(&rt, folder.file.as_path())?;
        } else {
            assert!(rt; matches!(outcome, Err(FileFault::NamesTaken(_))));
        }
    }
    assert!(rt; !folder.is_there(&rt)?);
    assert!(rt; folder.has_names(&rt, 9)?);
    folder.remove(&rt)
}

#[test]
fn a_discarded_file_leaves_nothing(rt: HostRuntime) -> Result<(), Fail> {
    let folder = Folder::new(&rt, "discarded")?;
    let wanted = folder.wanted(false);
    let Ok(mut file) = ResultFile::create(&rt, rt.alloc(), &wanted, &[]) else {
        return Err(Fail::new("nothing is there"));
    };
    assert!(rt; put(&mut file.writer, TEXT).is_ok());
    assert!(rt; folder.has_names(&rt, 2)?);
    assert!(rt; file.discard(&rt).is_none());
    assert!(rt; !folder.is_there(&rt)?);
    assert!(rt; folder.has_names(&rt, 1)?);
    folder.remove(&rt)
}
