//! Tests of what cases of text cannot say: sources, sinks and disks whose calls fail, logs on such
//! disks and in files, disks that are lent as logs and given back, policies with closures, a
//! proposer, and long histories in both representations. The rows of commands, histories, rounds,
//! messages, roles, logs, stores and workloads are files of cases (`cases/README.md`).
#![tactic(auto)]

#[cfg(test)]
mod disks;
#[cfg(test)]
mod lending;
#[cfg(test)]
mod lent_disks;
#[cfg(test)]
mod logs_in_files;
#[cfg(test)]
mod logs_that_fail;
#[cfg(test)]
mod long_histories;
#[cfg(test)]
mod outcome;
#[cfg(test)]
mod parts_of_logs;
#[cfg(test)]
mod policies;
#[cfg(test)]
mod proposers;
#[cfg(test)]
mod sources_and_sinks;
#[cfg(test)]
mod whole_reads_and_writes;
