//! Subsets of a few nodes, as masks: bit i is set if number i is a member.
ghost use Rattle.std.specs.Prelude.{◌≡◌, ◌≤◌, ◌<◌, List, ℕ};
ghost use Rattle.std.specs.Iterator.{YieldsFirst, item_count};
ghost use Rattle.gp_round.specs.Sets.{bit, members, masks};

use std::marker::Model;

/// Whether a number below 8 is in the set of a mask.
pub fn is_member(mask: u8, i: u32) -> bool
    requires { i < 8 }
    ensures { result ≡ bit mask i }
{
    (mask >> i) % 2 == 1
}

/// How many numbers below n are in the set of a mask. n must be at most 8.
pub fn count_members(mask: u8, n: u32) -> u32
    requires { n ≤ 8 }
    ensures { result ≡ members (bit mask) n }
{
    let mut count = 0;
    for i in 0..n {
        if is_member(mask, i) {
            count += 1;
        }
    }
    count
}

/// The subsets of one size of the numbers below n, without duplicates, in ascending order of their
/// masks.
///
/// A contract sees it as the list of the masks that are still to come.
#[derive(Drop)]
pub struct Subsets {
    n: u32,
    size: u32,
    next: u8,
    limit: u8,
}

impl Model for Subsets {
    ghost use Rattle.std.specs.Prelude.{◌≤◌, ◌-◌, List, ℕ};
    ghost use Rattle.gp_round.specs.Sets.{masks_among};

    ghost Value = { List ℕ };

    ghost view = { λ s. masks_among s.n s.size (s.limit - s.next) s.next };

    ghost invariant = { λ s. (s.n ≤ 7) × (s.next ≤ s.limit) × (s.limit ≤ 128) };
}

impl Subsets {
    /// The subsets with `size` of the numbers below n. n must be at most 7, and `size` at most n.
    pub fn new(n: u32, size: u32) -> Subsets
        requires few { n ≤ 7 }
        requires room { size ≤ n }
        ensures { result ≡ masks n size }
    {
        Subsets {
            n,
            size,
            next: 0,
            limit: 1 << n,
        }
    }
}

impl Iterator for Subsets {
    type Item = u8;

    ghost next_gives = { YieldsFirst (λ s. s) };

    ghost remaining = { item_count (λ s. s) };

    fn next(&mut self) -> Option<u8> {
        while self.next < self.limit {
            let mask = self.next;
            self.next += 1;
            if count_members(mask, self.n) == self.size {
                return Some(mask);
            }
        }
        None
    }
}
