//! The list in the slot of a wire.
ghost use Rattle.std.specs.Prelude.{◌≡◌, ◌+◌, ◌≤◌, ◌++◌, ◌∷◌, [], length, slice_get, vec_len, vec_capacity, OnOk, OnErr, IfErr};
ghost use Rattle.std.specs.Option.{option_copied};
ghost use Rattle.gp_msg.specs.Records.{messages_in};
ghost use Rattle.gp_wire.specs.Places.{message_at, places_to};

use gp_msg::{Msg, Record, Records};
use std::alloc::Global;
use std::marker::Model;

/// The place of a message: the index of its record, and its index among the messages of that
/// record.
#[derive(Clone, Copy)]
pub(crate) struct Place {
    pub index: usize,
    pub at: usize,
}

/// Records, the oldest first, with the place of each of their messages. A contract sees them as a
/// list.
#[derive(Drop)]
pub struct IndexedRecords {
    records: Vec<Record>,
    /// The place of message k.
    places: Vec<Place>,
}

impl Model for IndexedRecords {
    ghost use Rattle.std.specs.Prelude.{◌≡◌, List, map};
    ghost use Rattle.gp_msg.specs.declared.record.Record.{Record};
    ghost use Rattle.gp_msg.specs.Records.{messages_in};
    ghost use Rattle.gp_wire.specs.Places.{at_place, all_there};

    ghost Value = { List Record };

    ghost view = { λ p. p.records.items };

    ghost invariant = { λ p. map (at_place p.records.items) p.places.items ≡ all_there (messages_in p.records.items) };
}

impl IndexedRecords {
    /// A list without records.
    pub fn new(alloc: Global) -> IndexedRecords
        ensures { result ≡ [] }
    {
        IndexedRecords {
            records: Vec::new(alloc),
            places: Vec::new(alloc),
        }
    }

    /// Appends a record. If memory runs out, the record comes back and the list is unchanged.
    pub fn push(&mut self, item: Record) -> Result<(), Record>
        ensures pushed { OnOk result (self.new ≡ self.old ++ item ∷ []) }
        ensures unchanged { OnErr result (self.new ≡ self.old) }
        ensures back { IfErr result (λ r. r ≡ item) }
    {
        let count = item.out.as_slice().len();
        if self.records.reserve(1).is_err() || self.places.reserve(count).is_err() {
            return Err(item);
        }
        add_places(&mut self.places, self.records.len(), count);
        self.records.push_reserved(item);
        Ok(())
    }

    /// How many records there are.
    pub fn len(&self) -> u64
        ensures { result ≡ length self.now }
    {
        self.records.len() as u64
    }

    /// How many messages there are.
    #[tactic(auto, using(crate::proofs::Placing::as_many))]
    pub fn messages(&self) -> u64
        ensures { result ≡ length (messages_in self.now) }
    {
        self.places.len() as u64
    }

    /// Message k, counted from 0, if there is one.
    #[tactic(auto, using(crate::proofs::Placing::found_at))]
    pub fn message(&self, k: u64) -> Option<&Msg>
        ensures { option_copied result ≡ slice_get (messages_in self.now) k }
    {
        at_place(&self.records, &self.places, k)
    }

    /// Returns the records alone.
    pub fn into_records(self) -> Records
        ensures { result ≡ self }
    {
        let IndexedRecords { records, places: _ } = self;
        Records::from(records)
    }
}

// The places of the first `count` messages of a record, after those that are there.
fn add_places(places: &mut Vec<Place>, index: usize, count: usize)
    requires { vec_len places.old + count ≤ vec_capacity places.old }
    ensures { places.new.items ≡ places.old.items ++ places_to index count }
{
    for at in 0..count {
        places.push_reserved(Place { index, at });
    }
}

// The message at the place of message k.
fn at_place<'a>(records: &'a [Record], places: &[Place], k: u64) -> Option<&'a Msg>
    ensures { option_copied result ≡ message_at records.now (slice_get places.now k) }
{
    let place = *places.get(k as usize)?;
    records.get(place.index)?.out.as_slice().get(place.at)
}
