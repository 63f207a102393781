//! Tests of the program: its arguments, the disks over files, the course of runs that adapt, audits
//! of runs whose certificates are counted again, and reads beside a run. What the subcommands print
//! stands in the files of cases of `gp_program_cases`.
#![tactic(auto)]

#[cfg(test)]
mod adaptive_runs;
#[cfg(test)]
mod audited_runs;
#[cfg(test)]
mod counted_votes;
#[cfg(test)]
mod files;
#[cfg(test)]
mod many_runs;
#[cfg(test)]
mod nodes;
#[cfg(test)]
mod outcome;
#[cfg(test)]
mod stage;
#[cfg(test)]
mod viewed_runs;
#[cfg(test)]
mod words;
