//! Runs the files of cases that its arguments name over the program, and compares the examples of a
//! folder with their pages.
//!
//! A command of a case is a row of stages with bars between them, `serve run | serve audit | first 1`:
//! the first one is given the input lines of the command, and each of the others what the one before
//! it gave.
#![tactic(auto)]

mod folds;
mod inputs;
mod messages;
mod operations;
mod pages;
mod program;
mod scripts;
mod serving;
mod settling;
mod shapes;

use crate::pages::compare_pages;
use crate::program::Program;
use gp_cases::run_file;
use std::{env, io};

fn main(rt: HostRuntime) -> io::Result<()> {
    let alloc = rt.alloc();
    for path in env::args(&rt)?.skip(1) {
        if path.ends_with(".txt") {
            let mut program = Program::new(alloc);
            run_file(&rt, &rt, alloc, path.as_str(), &mut program)?;
        } else {
            compare_pages(&rt, &rt, path.as_str())?;
        }
    }
    Ok(())
}
