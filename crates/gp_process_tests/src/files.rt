//! The files of the disks.
use std::alloc::Global;
use std::{fs, io};

/// The folder of the files.
pub const FOLDER: &str = "mcgp-data";

// The number of files.
const FILES: usize = 12;

/// The names in the folder, in byte order.
pub fn names(rt: &HostRuntime) -> io::Result<String> {
    let alloc = rt.alloc();
    if !fs::exists(rt, FOLDER)? {
        return Ok(String::from_str(alloc, "no folder")?);
    }
    let mut names = Vec::new(alloc);
    for entry in fs::read_dir(rt, FOLDER)? {
        names.push(String::from_str(alloc, entry?.file_name())?)?;
    }
    names.sort()?;
    joined(alloc, &names)
}

fn joined(alloc: Global, names: &[String]) -> io::Result<String> {
    if names.is_empty() {
        return Ok(String::from_str(alloc, "no file")?);
    }
    let mut text = String::new(alloc);
    for name in names {
        if !text.is_empty() {
            text.push(' ')?;
        }
        text.push_str(name.as_str())?;
    }
    Ok(text)
}

/// Copies the twelve logs into the folder.
pub fn put_logs(rt: &HostRuntime) -> io::Result<()> {
    fs::create_dir_all(rt, FOLDER)?;
    for number in 0..FILES {
        let log = format!(in rt.alloc(); "logs/{number}")?;
        let file = format!(in rt.alloc(); "{FOLDER}/{number}")?;
        fs::write(rt, &file, &fs::read(rt, &log)?)?;
    }
    Ok(())
}

/// The numbers of the files that differ from their logs.
pub fn changed(rt: &HostRuntime) -> io::Result<String> {
    let alloc = rt.alloc();
    let mut numbers = Vec::new(alloc);
    for number in 0..FILES {
        let log = format!(in alloc; "logs/{number}")?;
        let file = format!(in alloc; "{FOLDER}/{number}")?;
        if fs::read(rt, &file)? != fs::read(rt, &log)? {
            numbers.push(format!(in alloc; "{number}")?)?;
        }
    }
    joined(alloc, &numbers)
}
