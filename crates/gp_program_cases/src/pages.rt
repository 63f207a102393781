//! The examples of a folder, and their pages. A script `NAME.txt` of the key store, or `NAME.bank` of
//! accounts, is played. What a run printed, `NAME.audit`, is audited. A log `NAME.log` is written to
//! the file of disk 0 and shown. The disks are those of the program.
ghost use Rattle.std.specs.Prelude.{◌≡◌, IfOk, length};

use gp_cli::{file_disks, serve};
use gp_edge::{FileDisk, Idle, ReadSource, WriteSink};
use std::alloc::Global;
use std::fs::{self, File};
use std::io::{self, ErrorKind};
use std::sync::Wait;
use std::thread::Threads;

// The names of the examples in a folder, in byte order, without the ending of their files.
fn names_in(rt: &HostRuntime, folder: &str, ending: &str) -> io::Result<Vec<String>> {
    let mut names = Vec::new(rt.alloc());
    for entry in fs::read_dir(rt, folder)? {
        let entry = entry?;
        if let Some(name) = entry.file_name().strip_suffix(ending) {
            names.push(String::from_str(rt.alloc(), name)?)?;
        }
    }
    names.sort()?;
    Ok(names)
}

// The folder of the disks' files, and the file of disk 0.
const FOLDER: &str = "mcgp-data";

const FIRST: &str = "mcgp-data/0";

// The disks of the program.
fn disks(rt: &HostRuntime) -> io::Result<Vec<FileDisk<HostRuntime>>>
    ensures { IfOk result (λ disks. length disks.items ≡ 12) }
{
    match file_disks(rt.alloc(), *rt) {
        Ok(disks) => Ok(disks),
        Err(_) => Err(io::Error::from(ErrorKind::OutOfMemory)),
    }
}

// The words with which a page gives the exit status and the output of a command.
fn passage(
    wait: &(impl Threads + Wait + Sync),
    alloc: Global,
    words: &[String],
    input: File,
    disks: Vec<FileDisk<HostRuntime>>,
) -> io::Result<String>
    requires { length disks.items ≡ 12 }
{
    let mut source = ReadSource::new(input);
    let mut output = Vec::new(alloc);
    let mut sink = WriteSink::new(&mut output);
    let status = serve(wait, alloc, words, &mut source, &mut sink, disks, &Idle).status;
    let text = String::from_utf8_lossy(alloc, &output)?;
    Ok(format!(in alloc; "ends with status {status}:\n\n```text\n{text}```\n")?)
}

// The passage of an input, which this word reads.
fn served(
    rt: &HostRuntime,
    wait: &(impl Threads + Wait + Sync),
    word: &str,
    path: &str,
) -> io::Result<String> {
    let alloc = rt.alloc();
    let words = [String::from_str(alloc, word)?];
    passage(wait, alloc, &words, fs::open(rt, path)?, disks(rt)?)
}

// The passage of a log, which is shown as that of disk 0.
fn shown(rt: &HostRuntime, wait: &(impl Threads + Wait + Sync), path: &str) -> io::Result<String> {
    let alloc = rt.alloc();
    let words = [
        String::from_str(alloc, "log")?,
        String::from_str(alloc, "0")?,
    ];
    fs::create_dir_all(rt, FOLDER)?;
    fs::write(rt, FIRST, &fs::read(rt, path)?)?;
    passage(wait, alloc, &words, fs::open(rt, path)?, disks(rt)?)
}

// Prints how the page of an example compares with what its command gave.
fn compare(rt: &HostRuntime, folder: &str, name: &str, passage: &str) -> io::Result<()> {
    let page = format!(in rt.alloc(); "{folder}/{name}.md")?;
    if fs::read_to_string(rt, page.as_str())?.contains(passage) {
        println!(rt; "{name}: the page agrees")
    } else {
        println!(rt; "{name}: the page lacks: {passage}")
    }
}

// The same for each input of a folder whose name has this ending, which this word reads.
fn compare_inputs(
    rt: &HostRuntime,
    wait: &(impl Threads + Wait + Sync),
    folder: &str,
    ending: &str,
    word: &str,
) -> io::Result<()> {
    for name in names_in(rt, folder, ending)? {
        let input = format!(in rt.alloc(); "{folder}/{name}{ending}")?;
        let passage = served(rt, wait, word, input.as_str())?;
        compare(rt, folder, name.as_str(), passage.as_str())?;
    }
    Ok(())
}

/// Prints of each example of a folder whether its page has the exit status and the output of its
/// command. An error if a page or the folder is not there.
pub fn compare_pages(
    rt: &HostRuntime,
    wait: &(impl Threads + Wait + Sync),
    folder: &str,
) -> io::Result<()> {
    compare_inputs(rt, wait, folder, ".txt", "play")?;
    compare_inputs(rt, wait, folder, ".bank", "bank")?;
    compare_inputs(rt, wait, folder, ".audit", "audit")?;
    for name in names_in(rt, folder, ".log")? {
        let log = format!(in rt.alloc(); "{folder}/{name}.log")?;
        compare(
            rt,
            folder,
            name.as_str(),
            shown(rt, wait, log.as_str())?.as_str(),
        )?;
    }
    Ok(())
}
