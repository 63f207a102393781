//! Tests of what threads share: the wire to which nodes post, and the feeds of local reads.
#![tactic(auto)]

#[cfg(test)]
mod held_readers;
#[cfg(test)]
mod one_list;
#[cfg(test)]
mod outcome;
#[cfg(test)]
mod posters;
#[cfg(test)]
mod reads_in_one_thread;
#[cfg(test)]
mod refused_publishes;
#[cfg(test)]
mod replicas_of_puts;
#[cfg(test)]
mod sharing;
#[cfg(test)]
mod watchers;
