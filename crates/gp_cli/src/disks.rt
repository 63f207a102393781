//! The disks of the program, over files.
ghost use Rattle.std.specs.Prelude.{◌≡◌, IfOk, length};

use gp_command::NoMemory;
use gp_edge::FileDisk;
use gp_shelf::DISKS;
use std::alloc::Global;
use std::rt::Files;

/// The folder of the files.
const FOLDER: &str = "mcgp-data";

/// Twelve disks over the files `mcgp-data/0` to `mcgp-data/11`. Which files they are, and that a
/// file and the folder are made at the first use of their disk, is tested. `NoMemory` if memory
/// runs out.
pub fn file_disks<R: Files + Copy + Drop>(
    alloc: Global,
    files: R,
) -> Result<Vec<FileDisk<R>>, NoMemory>
    ensures { IfOk result (λ disks. length disks.items ≡ 12) }
{
    let mut disks = Vec::new(alloc);
    for number in 0..DISKS {
        let folder = String::from_str(alloc, FOLDER)?;
        let path = format!(in alloc; "{FOLDER}/{number}")?;
        disks.push(FileDisk::new(files, folder, path))?;
    }
    Ok(disks)
}
