//! Tests of running nodes: a cell that steps, crashes and recovers at a wire of its own, work phases
//! in threads until nothing is left to do, what is done beside them, and the seats of all nodes.
#![tactic(auto)]

#[cfg(test)]
mod alone;
#[cfg(test)]
mod calls;
#[cfg(test)]
mod counter;
#[cfg(test)]
mod cursors;
#[cfg(test)]
mod falls;
#[cfg(test)]
mod looking;
#[cfg(test)]
mod onlookers;
#[cfg(test)]
mod outcome;
#[cfg(test)]
mod puts;
#[cfg(test)]
mod rounds;
#[cfg(test)]
mod seated;
