//! A file of more bytes than a call moves.
use crate::fake::{Fake, NONE};
use gp_edge::Disk;
use std::alloc::Global;
use std::test::Fail;

// More bytes than 2^16.
const MANY: usize = 70_000;

fn many_bytes(alloc: Global) -> Result<Vec<u8>, Fail> {
    let mut bytes = Vec::new(alloc);
    for number in 0..MANY {
        bytes.push((number % 251) as u8)?;
    }
    Ok(bytes)
}

#[test]
fn a_long_file_is_written_and_read_whole(rt: HostRuntime) -> Result<(), Fail> {
    let fake = Fake::new(rt.alloc(), NONE);
    let mut disk = fake.disk()?;
    let bytes = many_bytes(rt.alloc())?;
    assert!(rt; disk.write_at(0, &bytes).is_ok() && disk.len() == Ok(MANY as u64));
    let mut end = [0u8; 50];
    assert!(rt; disk.read_at(69_950, &mut end) == Ok(50) && bytes.ends_with(&end));
    let mut more = [0u8; 100];
    assert!(rt; disk.read_at(69_950, &mut more) == Ok(50));
    assert!(rt; disk.sync().is_ok() && fake.after_a_crash()? == Some(bytes));
    Ok(())
}
