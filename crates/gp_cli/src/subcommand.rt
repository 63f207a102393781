//! The subcommands, and the words that name them.
ghost use Rattle.std.specs.Prelude.{◌≡◌, IfSome};
ghost use Rattle.gp_cli.specs.Subcommands.{texts_of, number_within, drive_named, sim_named, run_named, views_named, logged_disk, named_by_one, named_by_two, named, IsWithin};

use gp_cluster::RoundPolicy;
use gp_command::Key;
use gp_random::MOST_COMMANDS;
use gp_shelf::DISKS;
use gp_sim::MOST_DRIVEN;
use gp_vlog::{LEAST_LIMIT, MOST_LIMIT};
use gp_words::number_of;

/// The machine that the operations of a script are for.
#[derive(Clone, Copy, Debug, PartialEq, Eq)]
pub enum Operations {
    /// The key store.
    Store,
    /// The bank, which keeps accounts.
    Bank,
}

/// What the words of the command line ask for.
#[derive(Clone, Copy, Debug, PartialEq, Eq)]
pub enum Subcommand {
    /// Read a script, play it, and print what its `show` lines ask for and its report.
    Play {
        /// The machine that the script's operations are for.
        operations: Operations,
    },
    /// Read a configuration and offers, run the nodes in threads, and print their trace, their
    /// report and, if a key is viewed, what the readers saw.
    Run {
        /// How the rounds are chosen.
        policy: RoundPolicy,
        /// The limit of each log, in bytes, 64 to 67,108,864.
        limit: u32,
        /// The key that two readers read while the nodes run, if one is to be viewed.
        viewed: Option<Key>,
    },
    /// Make a workload from a seed, play and settle it, and print a summary.
    Sim {
        /// The seed of the generator.
        seed: u64,
        /// The number of commands, 1 to 256.
        commands: u32,
    },
    /// Drive commands, one after another, to all learners, and print the report. The last of three
    /// coordinators takes no part.
    Drive {
        /// The number of acceptors, 3 to 7.
        acceptors: u32,
        /// The number of learners, 1 to 4.
        learners: u32,
        /// The number of commands, 1 to 64.
        commands: u32,
    },
    /// Print the entries of the log on a disk.
    Log {
        /// The number of the disk, 0 to 11.
        disk: u32,
    },
    /// Renew the log on a disk if it was written in version 1 of the format, and print its entries.
    Upgrade {
        /// The number of the disk, 0 to 11.
        disk: u32,
    },
    /// Read what a run printed, and print the word `legal` and a certificate for each learned
    /// command, or the first refused line.
    Audit,
}

// The number that a word spells, if it is in the range.
fn number_within(least: u32, most: u32, word: &str) -> Option<u32>
    ensures { result ≡ number_within least most word.now }
{
    let number = u32::try_from(number_of(word.as_bytes())?).ok()?;
    if least <= number && number <= most {
        Some(number)
    } else {
        None
    }
}

fn drive_of(acceptors: &str, learners: &str, commands: &str) -> Option<Subcommand>
    ensures { result ≡ drive_named acceptors.now learners.now commands.now }
{
    Some(Subcommand::Drive {
        acceptors: number_within(3, 7, acceptors)?,
        learners: number_within(1, 4, learners)?,
        commands: number_within(1, MOST_DRIVEN, commands)?,
    })
}

fn sim_of(seed: &str, commands: &str) -> Option<Subcommand>
    ensures { result ≡ sim_named seed.now commands.now }
{
    Some(Subcommand::Sim {
        seed: number_of(seed.as_bytes())?,
        commands: number_within(1, MOST_COMMANDS, commands)?,
    })
}

// One word.
fn of_one(word: &str) -> Option<Subcommand>
    ensures { result ≡ named_by_one word.now }
{
    match word {
        "play" => Some(Subcommand::Play {
            operations: Operations::Store,
        }),
        "bank" => Some(Subcommand::Play {
            operations: Operations::Bank,
        }),
        "run" => Some(Subcommand::Run {
            policy: RoundPolicy::Multi,
            limit: MOST_LIMIT,
            viewed: None,
        }),
        "adapt" => Some(Subcommand::Run {
            policy: RoundPolicy::Adaptive,
            limit: MOST_LIMIT,
            viewed: None,
        }),
        "audit" => Some(Subcommand::Audit),
        _ => None,
    }
}

fn run_of(limit: &str) -> Option<Subcommand>
    ensures { result ≡ run_named limit.now }
{
    Some(Subcommand::Run {
        policy: RoundPolicy::Multi,
        limit: number_within(LEAST_LIMIT, MOST_LIMIT, limit)?,
        viewed: None,
    })
}

fn views_of(key: &str) -> Option<Subcommand>
    ensures { result ≡ views_named key.now }
{
    Some(Subcommand::Run {
        policy: RoundPolicy::Multi,
        limit: MOST_LIMIT,
        viewed: Some(Key::new(key.as_bytes()).ok()?),
    })
}

// What is done with the log of a disk.
fn of_disk(word: &str, number: &str) -> Option<Subcommand>
    ensures { result ≡ logged_disk word.now number.now }
{
    let disk = number_within(0, DISKS - 1, number)?;
    match word {
        "log" => Some(Subcommand::Log { disk }),
        "upgrade" => Some(Subcommand::Upgrade { disk }),
        _ => None,
    }
}

// A word, and a number or a key.
fn of_two(word: &str, other: &str) -> Option<Subcommand>
    ensures { result ≡ named_by_two word.now other.now }
{
    match word {
        "run" => run_of(other),
        "views" => views_of(other),
        _ => of_disk(word, other),
    }
}

/// The subcommand that the words name, if they name one. Its numbers are in range.
pub fn subcommand_of(words: &[String]) -> Option<Subcommand>
    ensures named { result ≡ named (texts_of words.now) }
    ensures within { IfSome result IsWithin }
{
    match words {
        [word] => of_one(word.as_str()),
        [word, number] => of_two(word.as_str(), number.as_str()),
        [word, seed, commands] if word.as_str() == "sim" => {
            sim_of(seed.as_str(), commands.as_str())
        }
        [word, acceptors, learners, commands] if word.as_str() == "drive" => {
            drive_of(acceptors.as_str(), learners.as_str(), commands.as_str())
        }
        _ => None,
    }
}
