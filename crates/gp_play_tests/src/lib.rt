//! Tests of `play` over sources and sinks that fail, of replicas of accounts, and of audits of runs
//! that are made from numbers. What a script prints or why it is refused stands in the files of cases
//! of `gp_program_cases`.
#![tactic(auto)]

#[cfg(test)]
mod banks;
#[cfg(test)]
mod faulty_ends;
pub mod greatest;
#[cfg(test)]
mod histories;
#[cfg(test)]
mod replicas;
#[cfg(test)]
mod simulated_audits;
#[cfg(test)]
mod stage;
#[cfg(test)]
mod steps;
