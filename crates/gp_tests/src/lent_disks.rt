//! Twelve disks in memory, and what they hold.
ghost use Rattle.std.specs.Prelude.{◌≡◌, IfOk, length};

use gp_edge::MemDisk;
use gp_vlog::Log;
use std::alloc::Global;
use std::test::Fail;

/// Twelve disks; disk i holds the byte i. These calls of one of them fail.
pub fn disks_with(alloc: Global, number: u8, failing: &[u64]) -> Result<Vec<MemDisk>, Fail>
    ensures { IfOk result (λ disks. length disks.items ≡ 12) }
{
    let mut disks = Vec::new(alloc);
    for count in 0..12 {
        let failing = if count == number { failing } else { &[] };
        disks.push(MemDisk::new(alloc, &[count], failing)?)?;
    }
    Ok(disks)
}

/// What a disk holds.
#[derive(Clone, Copy, PartialEq, Eq)]
pub enum Holds {
    /// It holds the byte of its place.
    Own,
    /// It holds a log of this limit.
    Log(u8),
    /// It holds something else.
    Other,
}

// What the disk at a place holds, by its bytes.
fn found(place: usize, bytes: &[u8]) -> Holds {
    match bytes {
        [byte] if usize::from(*byte) == place => Holds::Own,
        [b'M', b'C', b'G', b'P', _, _, _, _, limit, 0, 0, 0, ..] => Holds::Log(*limit),
        _ => Holds::Other,
    }
}

/// Whether each disk holds what the table says of its place.
pub fn hold(disks: &[MemDisk], table: &[Holds]) -> bool {
    if disks.len() != table.len() {
        return false;
    }
    for place in 0..disks.len() {
        if found(place, disks[place].content()) != table[place] {
            return false;
        }
    }
    true
}

/// Makes a log on the disk of each log. The first has the least limit, 64, and each further one a
/// limit greater by one.
pub fn remade(alloc: Global, logs: Vec<Log<MemDisk>>) -> Result<Vec<Log<MemDisk>>, Fail> {
    let mut left = logs;
    let mut made = Vec::new(alloc);
    for limit in 64..90 {
        if left.is_empty() {
            return Ok(made);
        }
        match Log::create(alloc, left.remove(0).into_disk(), limit) {
            Ok(log) => made.push(log)?,
            Err(_) => return Err(Fail::from("not made")),
        }
    }
    Err(Fail::from("too many"))
}
