//! The records of a run, and the place of each message.
ghost use Rattle.std.specs.Prelude.{◌≡◌, ◌<◌, ◌≤◌, ◌++◌, ◌∷◌, [], length, vec_len, vec_capacity, slice_get, map, OnOk};
ghost use Rattle.std.specs.Option.{option_copied, option_and_then};
ghost use Rattle.gp_run.specs.Refusals.{message_named};
ghost use Rattle.gp_msg.specs.Messages.{message_of};
ghost use Rattle.gp_msg.specs.Records.{messages_in};
ghost use Rattle.gp_run.specs.TopCount.{rounds_of, greatest_count, top_of_messages};
ghost use Rattle.gp_world.specs.Places.{messages_at, message_at, all_there};

use crate::refusals::message_named;
use gp_command::NoMemory;
use gp_msg::{Event, Msg, Record, Records};
use std::alloc::Global;

/// The records of a run, the oldest first.
#[derive(Drop)]
pub struct Log {
    pub records: Vec<Record>,
    /// Entry k is the index of the record that has message k.
    pub places: Vec<usize>,
    /// The greatest count of a round in a message, and 0 if there is none.
    pub top: u32,
    ghost placed: { messages_at records.items places.items ≡ all_there (messages_in records.items) },
    ghost topped: { top ≡ top_of_messages (map message_of (messages_in records.items)) },
}

impl Log {
    /// A log without records.
    pub fn new(alloc: Global) -> Log
        ensures { result.records.items ≡ [] }
    {
        Log {
            records: Vec::new(alloc),
            places: Vec::new(alloc),
            top: 0,
        }
    }

    /// How many messages there are.
    #[tactic(auto, using(crate::proofs::Placing::as_many))]
    pub fn messages(&self) -> u64
        ensures { result ≡ length (messages_in self.now.records.items) }
    {
        self.places.len() as u64
    }

    /// Message k, counted from 0, or `None` if it was not sent.
    #[tactic(auto, using(crate::proofs::Placing::found_at))]
    pub fn message(&self, k: u64) -> Option<&Msg>
        ensures { option_copied result ≡ slice_get (messages_in self.now.records.items) k }
    {
        at_place(&self.records, &self.places, k)
    }

    /// The message that an event names, or `None` if it names none or one that was not sent.
    pub fn named(&self, event: &Event) -> Option<&Msg>
        ensures { option_copied result ≡ option_and_then (slice_get (messages_in self.now.records.items)) (message_named event.now) }
    {
        match message_named(event) {
            Some(k) => self.message(k),
            None => None,
        }
    }

    /// Reserves memory for one more record. If memory runs out, the records are unchanged.
    pub fn reserve(&mut self) -> Result<(), NoMemory>
        ensures records { self.new.records.items ≡ self.old.records.items }
        ensures room_for_a_record { OnOk result (vec_len self.new.records < vec_capacity self.new.records) }
        ensures room_for_a_place { OnOk result (vec_len self.new.places < vec_capacity self.new.places) }
    {
        self.records.reserve(1)?;
        self.places.reserve(1)?;
        Ok(())
    }

    /// Adds a record after the others, in the memory that `reserve` has reserved.
    pub fn post(&mut self, last: Record)
        requires room_for_a_record { vec_len self.old.records < vec_capacity self.old.records }
        requires room_for_a_place { vec_len self.old.places < vec_capacity self.old.places }
        requires at_most_one { length last.out ≤ 1 }
        ensures { self.new.records.items ≡ self.old.records.items ++ last ∷ [] }
    {
        self.top = self.top.max(top_of_messages(last.out.as_slice()));
        if !last.out.as_slice().is_empty() {
            let _ = self.places.push(self.records.len());
        }
        let _ = self.records.push(last);
    }

    /// Returns the records alone.
    pub fn into_records(self) -> Records
        ensures { result ≡ self.records.items }
    {
        let Log { records, .. } = self;
        Records::from(records)
    }
}

// Message k, found by its place.
fn at_place<'a>(records: &'a [Record], places: &[usize], k: u64) -> Option<&'a Msg>
    ensures { option_copied result ≡ message_at records.now (slice_get places.now k) }
{
    let place = *places.get(k as usize)?;
    records.get(place)?.out.as_slice().first()
}

// The greatest count of a round in some messages, and 0 if there is none.
fn top_of_messages(out: &[Msg]) -> u32
    ensures { result ≡ top_of_messages (map message_of out.now) }
{
    let mut top = 0;
    for m in out {
        top = top.max(top_of_message(m));
    }
    top
}

// The greatest count of a round in a message, and 0 if there is none.
#[tactic(auto, using(crate::proofs::Showing::one_top, crate::proofs::Showing::two_tops))]
fn top_of_message(m: &Msg) -> u32
    ensures { result ≡ greatest_count (rounds_of (message_of m.now)) }
{
    match m {
        Msg::Propose { .. } | Msg::Final { .. } => 0,
        Msg::P1a { round, .. } | Msg::P2a { round, .. } | Msg::P2b { round, .. } => round.count,
        Msg::P1b { round, voted, .. } => round.count.max(voted.count),
    }
}
