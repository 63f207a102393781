//! A log in a real file: written, read again, and cut.
use crate::outcome::holds;
use crate::parts_of_logs::{appends_part, broken, opens_on, renews_part};
use gp_edge::{Disk, FileDisk};
use gp_vlog::Log;
use std::alloc::Global;
use std::fs;
use std::test::Fail;

const FOLDER: &str = "gp_tests_logs";

const PATH: &str = "gp_tests_logs/0";

fn file_disk(rt: HostRuntime) -> Result<FileDisk<HostRuntime>, Fail> {
    let folder = String::from_str(rt.alloc(), FOLDER)?;
    let path = String::from_str(rt.alloc(), PATH)?;
    Ok(FileDisk::new(rt, folder, path))
}

#[test]
fn a_log_in_a_file_is_written_reopened_and_cut(rt: HostRuntime) -> Result<(), Fail> {
    let _ = fs::remove_dir_all(&rt, FOLDER);
    holds(&rt, is_created(rt))?;
    holds(&rt, is_opened(rt))?;
    holds(&rt, breaks_when_cut(rt))?;
    fs::remove_dir_all(&rt, FOLDER)?;
    Ok(())
}

fn is_created(rt: HostRuntime) -> Result<bool, Fail> {
    let Ok(mut log) = Log::create(rt.alloc(), file_disk(rt)?, 128) else {
        return Err(Fail::from("not created"));
    };
    Ok(is_written_and_reopened(rt.alloc(), &mut log))
}

fn is_opened(rt: HostRuntime) -> Result<bool, Fail> {
    Ok(opens_on(rt.alloc(), file_disk(rt)?) == Ok((1, 91)))
}

fn breaks_when_cut(rt: HostRuntime) -> Result<bool, Fail> {
    let mut disk = file_disk(rt)?;
    let cut = is_cut(&mut disk);
    let opened = opens_on(rt.alloc(), disk);
    Ok(cut && opened == broken(128))
}

// Whether the log has one entry after two were appended and it was renewed and opened again.
fn is_written_and_reopened<D: Disk>(alloc: Global, log: &mut Log<D>) -> bool {
    let are_appended = appends_part(alloc, log, 0) && appends_part(alloc, log, 1);
    let is_reopened = are_appended && renews_part(alloc, log, 2) && log.reopen().is_ok();
    is_reopened && log.is_ready() && log.count() == 1 && log.size() == 91
}

// Whether the disk has 203 bytes, and the last one is cut off.
fn is_cut<D: Disk>(disk: &mut D) -> bool {
    disk.len() == Ok(203) && disk.cut(202).is_ok() && disk.sync().is_ok()
}
