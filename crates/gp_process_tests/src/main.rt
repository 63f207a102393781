//! Runs the program as a process would, with words and inputs of its own. It prints the words of each
//! run, its text, its status and the files that it made or changed.
//!
//! The files of `logs` are logs of the twelve disks. Each has one entry: of an acceptor in those of
//! disks 0 to 6, of a coordinator in the others. The round of the entry has a count that is greater
//! by one than the number of the disk. The log of disk 4 is written in version 1 of the format, the
//! others in version 2.
#![tactic(auto)]

mod chosen;
mod files;
mod runs;

use chosen::Chosen;
use files::{FOLDER, changed, names, put_logs};
use gp_cli::{DISKS, file_disks, run_process};
use runs::{NEW_LOG, ONE_PUT, Run, UPGRADES, WITH_ANY_TEXT, WITHOUT_FILES};
use std::fmt::Display;
use std::process::{ExitCode, Termination};
use std::sync::Wait;
use std::thread::Threads;
use std::{fs, io};

// Prints to standard output what is to be printed to standard error.
#[derive(Clone, Copy)]
struct Told<'a> {
    rt: &'a HostRuntime,
}

impl<'a> Eprint for Told<'a> {
    fn eprint<D: Display + Drop>(&self, value: D) -> io::Result<()> {
        self.rt.print(value)
    }

    fn eprintln<D: Display + Drop>(&self, value: D) -> io::Result<()> {
        self.rt.println(value)
    }
}

// Prints the status with which a run ends.
fn print_status(rt: &HostRuntime, ended: impl Termination) -> io::Result<()> {
    let code = ended.report(&Told { rt });
    for status in 0..u8::MAX {
        if code == ExitCode::from(status) {
            println!(rt; "status {status}")?;
        }
    }
    Ok(())
}

// Runs the program, and prints its words, its text if that is to be shown, and its status.
fn run(
    rt: &HostRuntime,
    wait: &(impl Threads + Wait + Sync),
    run: &Run<'_>,
    is_shown: bool,
) -> io::Result<()> {
    let (words, input) = *run;
    let line = String::from_utf8_lossy(rt.alloc(), words)?;
    println!(rt; "$ {line}")?;
    let chosen = Chosen {
        rt: *rt,
        wait,
        words,
        input,
        is_shown,
    };
    print_status(rt, run_process(&chosen, file_disks(rt.alloc(), *rt)))
}

// Runs where there is no folder, and where there is an empty one. Only `log` makes the file of its
// disk.
fn run_without_files(rt: &HostRuntime, wait: &(impl Threads + Wait + Sync)) -> io::Result<()> {
    for each in &WITHOUT_FILES {
        run(rt, wait, each, true)?;
        println!(rt; "{}", names(rt)?)?;
    }
    fs::create_dir(rt, FOLDER)?;
    run(rt, wait, &WITHOUT_FILES[0], true)?;
    println!(rt; "{}", names(rt)?)?;
    run(rt, wait, &NEW_LOG, true)?;
    println!(rt; "{}", names(rt)?)
}

// Runs over the twelve logs. The texts may be those that were printed before, or not known.
fn run_over_logs(
    rt: &HostRuntime,
    wait: &(impl Threads + Wait + Sync),
    runs: &[Run<'_>],
    is_shown: bool,
) -> io::Result<()> {
    for each in runs {
        put_logs(rt)?;
        run(rt, wait, each, is_shown)?;
        println!(rt; "changed: {}", changed(rt)?)?;
    }
    Ok(())
}

// Shows each of the twelve logs.
fn show_each_log(rt: &HostRuntime, wait: &(impl Threads + Wait + Sync)) -> io::Result<()> {
    let no_input: &[u8] = b"";
    for number in 0..DISKS {
        let words = format!(in rt.alloc(); "mcgp log {number}")?;
        run_over_logs(rt, wait, &[(words.as_bytes(), no_input)], true)?;
    }
    Ok(())
}

// Plays a script as long as a script may be: a comment, and one put.
fn play_a_long_script(rt: &HostRuntime, wait: &(impl Threads + Wait + Sync)) -> io::Result<()> {
    let mut script = vec![in rt.alloc(); b'#'; (1 << 20) - 1 - ONE_PUT.len()]?;
    script.push(b'\n')?;
    script.extend_from_slice(ONE_PUT)?;
    let words: &[u8] = b"mcgp play";
    run(rt, wait, &(words, script.as_slice()), true)
}

fn main(rt: HostRuntime) -> io::Result<()> {
    run_without_files(&rt, &rt)?;
    run_over_logs(&rt, &rt, &WITHOUT_FILES, false)?;
    show_each_log(&rt, &rt)?;
    run_over_logs(&rt, &rt, &UPGRADES, true)?;
    run_over_logs(&rt, &rt, &WITH_ANY_TEXT, false)?;
    play_a_long_script(&rt, &rt)
}
