//! Disks of two acceptors that meet: each waits in its writes, with a limit, until the other one is in
//! a write of its own.
ghost use Rattle.std.specs.Prelude.{◌≡◌, None};

use gp_command::NoMemory;
use gp_edge::{CalmDisk, Disk, Gate, Refused};
use gp_msg::Node;
use std::alloc::Global;
use std::sync::atomic::{AtomicU64, Ordering};
use std::thread;

// How often a write looks whether the other one is there. After that it goes on alone, so that no run
// hangs. The other node may have ended its phase already; then a later write of it comes.
const LOOKS: u32 = 200_000;

// How often the leader yields after both have taken all offers, so that they end their work phase.
const YIELDS: u32 = 5_000;

/// Where acceptors 0 and 1 meet.
#[derive(Drop)]
pub struct Meeting {
    // How many steps the two make before the first round begins: one for each offer.
    first_steps: u64,
    // How many steps of theirs have begun.
    steps: AtomicU64,
    // Whether any step has begun. The writes before, which make the logs, do not wait.
    begun: AtomicU64,
    // Whether each of the two is in a write.
    first: AtomicU64,
    second: AtomicU64,
    // Whether one of them has seen the other in a write during a write of its own.
    met: AtomicU64,
}

impl Meeting {
    /// Where they meet in a run with so many offers.
    pub fn new(offers: u32) -> Meeting {
        Meeting {
            first_steps: 2 * u64::from(offers),
            steps: AtomicU64::new(0),
            begun: AtomicU64::new(0),
            first: AtomicU64::new(0),
            second: AtomicU64::new(0),
            met: AtomicU64::new(0),
        }
    }

    /// Whether both were in a write at the same time.
    pub fn has_been(&self) -> bool {
        self.met.load(Ordering::SeqCst) == 1
    }

    // Waits until both acceptors have taken the offers.
    fn hold(&self) {
        for _ in 0..LOOKS {
            if self.steps.load(Ordering::SeqCst) >= self.first_steps {
                break;
            }
            thread::yield_now();
        }
        for _ in 0..YIELDS {
            thread::yield_now();
        }
    }

    // What the disk with this number does in a write.
    fn write(&self, number: u64) {
        if self.begun.load(Ordering::SeqCst) == 0 {
            return;
        }
        match number {
            0 => self.write_beside(&self.first, &self.second),
            1 => self.write_beside(&self.second, &self.first),
            _ => {}
        }
    }

    fn write_beside(&self, own: &AtomicU64, other: &AtomicU64) {
        own.store(1, Ordering::SeqCst);
        self.look_for(other);
        own.store(0, Ordering::SeqCst);
    }

    // Looks for the other one, and yields between looks.
    fn look_for(&self, other: &AtomicU64) {
        for _ in 0..LOOKS {
            if self.has_been() {
                return;
            }
            if other.load(Ordering::SeqCst) == 1 {
                self.met.store(1, Ordering::SeqCst);
                return;
            }
            thread::yield_now();
        }
    }
}

/// The leader begins its first round after both acceptors have taken the offers. So they find the
/// beginning in one work phase, and both write in it.
impl Gate for Meeting {
    fn at(&self, node: Node, turn: u64) {
        self.begun.store(1, Ordering::SeqCst);
        match node {
            Node::Acceptor(0) | Node::Acceptor(1) => {
                let _before = self.steps.fetch_add(1, Ordering::SeqCst);
            }
            Node::Coordinator(0) if turn == 0 => self.hold(),
            _ => {}
        }
    }
}

/// A disk in memory with a number, whose writes may wait at a meeting. A contract sees nothing of it.
#[derive(Drop)]
pub struct MeetingDisk<'a> {
    disk: CalmDisk,
    number: u64,
    meeting: &'a Meeting,
}

impl<'a> MeetingDisk<'a> {
    pub fn new(
        alloc: Global,
        number: u64,
        meeting: &'a Meeting,
    ) -> Result<MeetingDisk<'a>, NoMemory> {
        Ok(MeetingDisk {
            disk: CalmDisk::new(alloc, b"")?,
            number,
            meeting,
        })
    }
}

impl<'a> Disk for MeetingDisk<'a> {
    ghost content = { λ d. None };

    // A crash may leave anything.
    ghost image = { λ d c. Unit {0} };

    ghost moment = { λ d. 0 };

    ghost since = { λ d t c. Unit {0} };

    // The disk below never fails.
    ghost faults = { λ d. 0 };

    ghost counts_now = { λ d t c le now. tt };

    ghost only_now = { λ d c left. tt };

    ghost shows = { λ d s e. tt };

    fn len(&mut self) -> Result<u64, Refused> {
        self.disk.len()
    }

    fn read_at(&mut self, at: u64, into: &mut [u8]) -> Result<usize, Refused> {
        self.disk.read_at(at, into)
    }

    fn write_at(&mut self, at: u64, from: &[u8]) -> Result<(), Refused> {
        self.meeting.write(self.number);
        self.disk.write_at(at, from)
    }

    fn cut(&mut self, len: u64) -> Result<(), Refused> {
        self.disk.cut(len)
    }

    fn sync(&mut self) -> Result<(), Refused> {
        self.disk.sync()
    }
}
