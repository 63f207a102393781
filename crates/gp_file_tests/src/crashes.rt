//! What a disk answers after one call of its files failed, and what a crash leaves.
use crate::fake::{Fake, NONE};
use gp_edge::Disk;
use std::test::Fail;

// A write of three bytes and a sync make ten calls.
const CALLS: usize = 10;

// Whether a write of three bytes and a sync both succeed.
fn is_written<D: Disk>(disk: &mut D) -> bool {
    disk.write_at(0, b"abc").is_ok() && disk.sync().is_ok()
}

// A failed call is counted once, and no further call is made.
#[test]
fn each_failing_call_is_answered(rt: HostRuntime) -> Result<(), Fail> {
    for failing in 0..CALLS {
        let fake = Fake::new(rt.alloc(), failing);
        let mut disk = fake.disk()?;
        assert!(rt;
            !is_written(&mut disk) && disk.faults() == 1,
            "call {failing}"
        );
        assert!(rt; fake.count() == failing + 1, "call {failing}");
    }
    Ok(())
}

// Whether a crash now leaves the file with these bytes.
fn leaves(fake: &Fake, wanted: &[u8]) -> Result<bool, Fail> {
    match fake.after_a_crash()? {
        Some(bytes) => Ok(*bytes.as_slice() == *wanted),
        None => Ok(false),
    }
}

#[test]
fn what_is_synced_survives_a_crash(rt: HostRuntime) -> Result<(), Fail> {
    let fake = Fake::new(rt.alloc(), NONE);
    let mut disk = fake.disk()?;
    assert!(rt; is_written(&mut disk) && leaves(&fake, b"abc")?);
    assert!(rt; disk.write_at(1, b"xyz").is_ok() && leaves(&fake, b"abc")?);
    assert!(rt; disk.sync().is_ok() && leaves(&fake, b"axyz")?);
    assert!(rt; disk.cut(2).is_ok() && leaves(&fake, b"axyz")?);
    assert!(rt; disk.sync().is_ok() && leaves(&fake, b"ax")?);
    Ok(())
}
