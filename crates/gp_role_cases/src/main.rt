//! Runs the files of cases that its arguments name, over the format itself, commands, histories, rounds,
//! messages, the roles and their logs. The name of a file says its subject.
#![tactic(auto)]

mod acceptors;
mod adapted_rounds;
mod choices;
mod commands;
mod coordinators;
mod format;
mod histories;
mod indexes;
mod learners;
mod logs;
mod messages;
mod replicas;
mod rounds;
mod stores;
mod torn_logs;
mod watches;
mod workloads;

use crate::acceptors::Acceptors;
use crate::adapted_rounds::AdaptedRounds;
use crate::choices::Choices;
use crate::commands::Commands;
use crate::coordinators::Coordinators;
use crate::format::Files;
use crate::histories::Histories;
use crate::learners::Learners;
use crate::logs::Logs;
use crate::messages::Messages;
use crate::replicas::Replicas;
use crate::rounds::Rounds;
use crate::stores::Stores;
use crate::watches::Watches;
use crate::workloads::Workloads;
use gp_cases::{run_file, stem};
use std::env;
use std::io::{self, ErrorKind};
use std::sync::Wait;
use std::thread::Threads;

// Runs the cases of the file, if its subject is one of commands, histories, rounds and messages.
fn run(rt: &HostRuntime, threads: &(impl Threads + Wait + Sync), path: &str) -> io::Result<()> {
    let alloc = rt.alloc();
    match stem(path) {
        "format" => run_file(rt, threads, alloc, path, &mut Files),
        "commands" | "bytes" => run_file(rt, threads, alloc, path, &mut Commands::new(alloc)),
        "histories" | "bounds" | "indexes" | "cuts" => run_file(
            rt,
            threads,
            alloc,
            path,
            &mut Histories,
        ),
        "rounds" => run_file(rt, threads, alloc, path, &mut Rounds),
        "choices" => run_file(rt, threads, alloc, path, &mut Choices),
        "messages" => run_file(rt, threads, alloc, path, &mut Messages),
        "workloads" => run_file(rt, threads, alloc, path, &mut Workloads),
        name => run_role(rt, threads, name, path),
    }
}

// The same of a role, a log or a machine.
fn run_role(
    rt: &HostRuntime,
    threads: &(impl Threads + Wait + Sync),
    name: &str,
    path: &str,
) -> io::Result<()> {
    let alloc = rt.alloc();
    match name {
        "acceptors" => run_file(rt, threads, alloc, path, &mut Acceptors::new()),
        "coordinators" => run_file(rt, threads, alloc, path, &mut Coordinators::new()),
        "learners" => run_file(rt, threads, alloc, path, &mut Learners::new()),
        "watches" => run_file(rt, threads, alloc, path, &mut Watches::new()),
        "adapted_rounds" => run_file(rt, threads, alloc, path, &mut AdaptedRounds),
        "logs" => run_file(rt, threads, alloc, path, &mut Logs::new(alloc)),
        "stores" => run_file(rt, threads, alloc, path, &mut Stores::new()),
        "replicas" => run_file(rt, threads, alloc, path, &mut Replicas::new()),
        _ => {
            println!(rt; "{path}: no subject")?;
            Err(io::Error::from(ErrorKind::InvalidInput))
        }
    }
}

fn main(rt: HostRuntime) -> io::Result<()> {
    for path in env::args(&rt)?.skip(1) {
        run(&rt, &rt, path.as_str())?;
    }
    Ok(())
}
