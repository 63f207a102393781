//! The disks of the program, over files.
use gp_cli::file_disks;
use gp_edge::Disk;
use std::fs;
use std::test::Fail;

const FOLDER: &str = "mcgp-data";

#[test]
fn each_disk_has_a_file_of_its_own(rt: HostRuntime) -> Result<(), Fail> {
    let alloc = rt.alloc();
    let _ = fs::remove_dir_all(&rt, FOLDER);
    let mut disks = file_disks(alloc, rt)?;
    let mut number = 0u8;
    for disk in disks.iter_mut() {
        assert!(rt; disk.write_at(0, &[number]).is_ok());
        number = number.wrapping_add(1);
    }
    drop(disks);
    for number in 0..12u8 {
        let path = format!(in alloc; "{FOLDER}/{number}")?;
        assert!(rt; *fs::read(&rt, &path)?.as_slice() == *[number].as_slice());
    }
    fs::remove_dir_all(&rt, FOLDER)?;
    Ok(())
}
