//! Tests of runs whose disks and gates do not forgive: disks that count their calls, fail some of
//! them, or are exchanged for another while their node is down; disks that meet; and gates that count
//! or hold back steps.
#![tactic(auto)]

#[cfg(test)]
mod changed_logs;
#[cfg(test)]
mod deciding_faults;
#[cfg(test)]
mod doubles;
#[cfg(test)]
mod failing_disks;
#[cfg(test)]
mod gates;
#[cfg(test)]
mod meeting;
#[cfg(test)]
mod scripts;
#[cfg(test)]
mod writes_at_once;
