//! Generalized Paxos within one epoch over any c-structs: values that are built from commands, as
//! sequences and command histories are (Lamport, *Generalized Consensus and Paxos*, 2005).
//!
//! The crate has definitions and lemmas alone. They ask of values and commands no more than `Laws`
//! says (`specs/CStructs.antt`). `gp_agreement` has their laws over command histories.
#![tactic(auto)]
