//! Disks, call by call.
use crate::outcome::holds;
use gp_edge::{CalmDisk, Disk, FileDisk, MemDisk, Refused};
use std::alloc::Global;
use std::fs;
use std::test::Fail;

// Whether a read from this place on gives this many bytes, and the piece then has these.
fn reads<D: Disk>(disk: &mut D, at: u64, count: usize, bytes: &[u8; 4]) -> Result<bool, Refused> {
    let mut piece = *b"----";
    Ok(disk.read_at(at, &mut piece)? == count && piece == *bytes)
}

// A call of a disk that succeeds. A read has its place, the number of bytes that it gives, and the piece after it.
#[derive(Clone, Copy)]
enum Step {
    Length(u64),
    Read(u64, usize, [u8; 4]),
    Write(u64, &'static [u8]),
    Cut(u64),
    Sync,
}

// The calls of a disk that has no bytes before.
static STEPS: [Step; 15] = [
    Step::Length(0),
    Step::Read(0, 0, *b"----"),
    Step::Write(2, b"abc"),
    Step::Sync,
    Step::Length(5),
    Step::Read(0, 4, *b"\0\0ab"),
    Step::Read(3, 2, *b"bc--"),
    Step::Write(3, b"X"),
    Step::Read(1, 4, *b"\0aXc"),
    Step::Cut(9),
    Step::Length(5),
    Step::Cut(3),
    Step::Sync,
    Step::Read(0, 3, *b"\0\0a-"),
    Step::Read(7, 0, *b"----"),
];

// Whether a call gives what it has to, if it is not refused.
fn answer<D: Disk>(disk: &mut D, step: Step) -> Result<bool, Refused> {
    match step {
        Step::Length(len) => Ok(disk.len()? == len),
        Step::Read(at, count, piece) => reads(disk, at, count, &piece),
        Step::Write(at, bytes) => done(disk.write_at(at, bytes)),
        Step::Cut(len) => done(disk.cut(len)),
        Step::Sync => done(disk.sync()),
    }
}

// The same of a call that gives nothing.
fn done(answer: Result<(), Refused>) -> Result<bool, Refused> {
    match answer {
        Ok(()) => Ok(true),
        Err(refused) => Err(refused),
    }
}

// Whether a disk without bytes writes, reads, cuts and syncs as a disk does.
fn is_a_disk<D: Disk>(disk: &mut D) -> bool {
    for step in &STEPS {
        if answer(disk, *step) != Ok(true) {
            return false;
        }
    }
    true
}

#[test]
fn disks_in_memory_are_disks(rt: HostRuntime) -> Result<(), Fail> {
    holds(&rt, calm_is_a_disk(rt.alloc()))?;
    holds(&rt, scheduled_is_a_disk(rt.alloc()))
}

fn calm_is_a_disk(alloc: Global) -> Result<bool, Fail> {
    let mut disk = CalmDisk::new(alloc, b"")?;
    Ok(is_a_disk(&mut disk) && disk.content() == b"\0\0a".as_slice())
}

fn scheduled_is_a_disk(alloc: Global) -> Result<bool, Fail> {
    let mut disk = MemDisk::new(alloc, b"", &[])?;
    Ok(is_a_disk(&mut disk) && disk.content() == b"\0\0a".as_slice())
}

#[test]
fn a_disk_fails_at_the_chosen_calls_and_at_no_other(rt: HostRuntime) -> Result<(), Fail> {
    holds(&rt, fails_every_second_time(rt.alloc()))
}

fn fails_every_second_time(alloc: Global) -> Result<bool, Fail> {
    let mut disk = MemDisk::new(alloc, b"abc", &[0, 2, 4, 6, 8])?;
    Ok(works_every_second_time(&mut disk) && disk.content() == b"aY".as_slice())
}

// A call of a disk with the bytes `abc` that fails, and the next one, which does not.
static FAILED_AND_DONE: [(Step, Step); 5] = [
    (Step::Length(3), Step::Length(3)),
    (Step::Read(0, 3, *b"abc-"), Step::Read(0, 3, *b"abc-")),
    (Step::Write(0, b"X"), Step::Write(1, b"Y")),
    (Step::Cut(1), Step::Cut(2)),
    (Step::Sync, Step::Sync),
];

fn works_every_second_time(disk: &mut MemDisk) -> bool {
    for (failed, done) in &FAILED_AND_DONE {
        if answer(disk, *failed) != Err(Refused::Failed) || answer(disk, *done) != Ok(true) {
            return false;
        }
    }
    true
}

const FOLDER: &str = "gp_tests_disks/disks";

const PATH: &str = "gp_tests_disks/disks/0";

fn file_disk(rt: HostRuntime, path: &str) -> Result<FileDisk<HostRuntime>, Fail> {
    let folder = String::from_str(rt.alloc(), FOLDER)?;
    let path = String::from_str(rt.alloc(), path)?;
    Ok(FileDisk::new(rt, folder, path))
}

#[test]
fn a_file_is_made_at_the_first_call_and_is_a_disk(rt: HostRuntime) -> Result<(), Fail> {
    let _ = fs::remove_dir_all(&rt, "gp_tests_disks");
    holds(&rt, is_made_at_the_first_call(rt))?;
    holds(&rt, is_read_again(rt))?;
    holds(&rt, fails_over_a_folder(rt))?;
    fs::remove_dir_all(&rt, "gp_tests_disks")?;
    Ok(())
}

fn is_made_at_the_first_call(rt: HostRuntime) -> Result<bool, Fail> {
    let mut disk = file_disk(rt, PATH)?;
    let was_absent = fs::metadata(&rt, PATH).is_err();
    Ok(was_absent && is_a_disk(&mut disk) && disk.faults() == 0 && has_three_bytes(rt))
}

fn has_three_bytes(rt: HostRuntime) -> bool {
    match fs::metadata(&rt, PATH) {
        Ok(found) => found.len() == 3,
        Err(_) => false,
    }
}

// Whether another disk over the file reads what was written.
fn is_read_again(rt: HostRuntime) -> Result<bool, Fail> {
    let mut disk = file_disk(rt, PATH)?;
    Ok(reads(&mut disk, 0, 3, b"\0\0a-")?)
}

// Whether a disk over a folder, which is not a file, fails twice.
fn fails_over_a_folder(rt: HostRuntime) -> Result<bool, Fail> {
    let mut folder = file_disk(rt, FOLDER)?;
    let failed = folder.len() == Err(Refused::Failed) && folder.sync() == Err(Refused::Failed);
    Ok(failed && folder.faults() == 2)
}

// Whether this disk takes 70,000 bytes in one write, and gives them in one read.
fn takes_many<D: Disk>(alloc: Global, disk: &mut D) -> Result<bool, Fail> {
    let mut bytes = Vec::new(alloc);
    for number in 0..70_000u32 {
        bytes.push((number % 251) as u8)?;
    }
    let mut read = Vec::from_slice(alloc, &bytes)?;
    read.fill(0);
    let taken = disk.write_at(3, &bytes).is_ok() && disk.sync().is_ok();
    let given = disk.read_at(3, &mut read) == Ok(70_000);
    Ok(taken && given && read == bytes && disk.len() == Ok(70_003))
}

#[test]
fn disks_in_memory_take_many_bytes(rt: HostRuntime) -> Result<(), Fail> {
    let alloc = rt.alloc();
    holds(&rt, takes_many(alloc, &mut CalmDisk::new(alloc, b"")?))?;
    holds(&rt, takes_many(alloc, &mut MemDisk::new(alloc, b"", &[])?))
}
