//! Work beside the work phases that counts them, and that meets the steps of the nodes and the other
//! work.
use gp_edge::{Disk, Gate};
use gp_msg::Node;
use gp_node::{Cell, Job, PaxosRules};
use gp_phase::{Beside, Trio};
use gp_wire::Wire;
use std::sync::Wait;
use std::sync::atomic::{AtomicU64, Ordering};
use std::thread;

// How often it looks for whom it is to meet. After that it goes on alone, since a work phase need
// not have a step.
const LOOKS: u32 = 20_000;

/// Where the steps of the nodes and the work beside them meet.
#[derive(Drop)]
pub struct Encounter {
    // how many steps are at the gate
    running: AtomicU64,
    // whether each of two pieces of work is being done
    first: AtomicU64,
    second: AtomicU64,
    // whether work saw a step at the gate, and whether one of the two saw the other
    met_step: AtomicU64,
    met_other: AtomicU64,
}

impl Encounter {
    pub fn new() -> Encounter {
        Encounter {
            running: AtomicU64::new(0),
            first: AtomicU64::new(0),
            second: AtomicU64::new(0),
            met_step: AtomicU64::new(0),
            met_other: AtomicU64::new(0),
        }
    }

    /// Whether work was done while a step was at the gate, and both pieces of work at the same time.
    pub fn has_been(&self) -> bool {
        self.met_step.load(Ordering::SeqCst) == 1 && self.met_other.load(Ordering::SeqCst) == 1
    }

    // Looks whether somebody is there, until that was seen.
    fn look_for(&self, there: &AtomicU64, met: &AtomicU64) {
        for _ in 0..LOOKS {
            if there.load(Ordering::SeqCst) > 0 {
                met.store(1, Ordering::SeqCst);
            }
            if met.load(Ordering::SeqCst) == 1 {
                return;
            }
            thread::yield_now();
        }
    }

    fn work_beside(&self, own: &AtomicU64, other: &AtomicU64) {
        own.store(1, Ordering::SeqCst);
        self.look_for(other, &self.met_other);
        own.store(0, Ordering::SeqCst);
    }

    // Does the work at this place.
    fn work_at(&self, place: Place) {
        match place {
            Place::Main => self.look_for(&self.running, &self.met_step),
            Place::First => self.work_beside(&self.first, &self.second),
            Place::Second => self.work_beside(&self.second, &self.first),
        }
    }
}

/// A step waits at the gate until work beside it has seen it.
impl Gate for Encounter {
    fn at(&self, _node: Node, _turn: u64) {
        let _before = self.running.fetch_add(1, Ordering::SeqCst);
        self.look_for(&self.met_step, &self.met_step);
        let _after = self.running.fetch_sub(1, Ordering::SeqCst);
    }
}

// Which of the three pieces of work it is.
#[derive(Clone, Copy)]
enum Place {
    Main,
    First,
    Second,
}

/// How often it was prepared, and how often it did its work once after that.
#[derive(Clone, Copy)]
pub struct Counter<'a> {
    encounter: &'a Encounter,
    place: Place,
    prepared: u64,
    acted: u64,
}

impl<'a, D: Disk> Beside<Wire<PaxosRules>, Cell<D>> for Counter<'a> {
    ghost Topic = { Unit {0} };

    ghost topic = { λ counter. tt };

    fn prepare(&mut self, jobs: &[Job<D>]) {
        let _jobs = jobs;
        self.prepared = self.prepared.saturating_add(1);
    }

    fn act<W: Wait>(&mut self, rt: &W) {
        let _rt = rt;
        self.encounter.work_at(self.place);
        if self.prepared == self.acted.saturating_add(1) {
            self.acted = self.prepared;
        }
    }
}

impl<'a> Counter<'a> {
    fn new(encounter: &'a Encounter, place: Place) -> Counter<'a> {
        Counter {
            encounter,
            place,
            prepared: 0,
            acted: 0,
        }
    }

    // Whether there were phases, and it did its work once in each of them.
    fn acted_in_each_phase(&self) -> bool {
        self.prepared > 0 && self.prepared == self.acted
    }
}

/// Three counters that meet here.
pub fn counters<'a>(encounter: &'a Encounter) -> Trio<Counter<'a>, Counter<'a>> {
    Trio {
        main: Counter::new(encounter, Place::Main),
        first: Counter::new(encounter, Place::First),
        second: Counter::new(encounter, Place::Second),
    }
}

/// Whether there were phases, and each of the three did its work once in each of them.
pub fn all_acted(beside: &Trio<Counter<'_>, Counter<'_>>) -> bool {
    beside.main.acted_in_each_phase()
        && beside.first.acted_in_each_phase()
        && beside.second.acted_in_each_phase()
}
