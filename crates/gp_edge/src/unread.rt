//! Bytes in memory that are read from the front.
ghost use Rattle.std.specs.Prelude.{◌≡◌, IfOk, length, take, drop, min};
ghost use Rattle.gp_edge.specs.Reads.{overlaid};

use gp_memory::NoMemory;
use std::alloc::Global;
use std::marker::Model;

/// Bytes that are read from the front. A contract sees the remaining ones.
#[derive(Drop, Debug)]
pub(crate) struct Unread {
    bytes: Vec<u8>,
    at: usize,
}

impl Model for Unread {
    ghost use Rattle.std.specs.Prelude.{ℕ, List, ◌≤◌, length, drop};

    ghost Value = { List ℕ };

    ghost view = { λ u. drop u.at u.bytes.items };

    ghost invariant = { λ u. u.at ≤ length u.bytes.items };
}

impl Unread {
    pub(crate) fn new(alloc: Global, bytes: &[u8]) -> Result<Unread, NoMemory>
        ensures { IfOk result (λ unread. unread ≡ bytes.now) }
    {
        Ok(Unread {
            bytes: Vec::from_slice(alloc, bytes)?,
            at: 0,
        })
    }

    /// Moves the first bytes, at most `most`, to the front of the piece, and returns how many.
    pub(crate) fn move_into(&mut self, most: usize, into: &mut [u8]) -> usize
        ensures count { result ≡ min (min most (length into.old)) (length self.old) }
        ensures moved { into.new ≡ overlaid (take (min most (length into.old)) self.old) into.old }
        ensures rest { self.new ≡ drop (min most (length into.old)) self.old }
    {
        let rest = &self.bytes[self.at..];
        let count = most.min(into.len()).min(rest.len());
        into[..count].copy_from_slice(&rest[..count]);
        self.at += count;
        count
    }
}
