//! Which calls a disk makes, and in which order.
use crate::fake::Call::{
    MadeFolder, Measured, OpenedAbove, OpenedFile, OpenedFolder, Read, SyncedAbove, SyncedFile,
    SyncedFolder, Wrote,
};
use crate::fake::{Call, Fake, NONE};
use gp_edge::Disk;
use std::test::Fail;

// The folder and the file are made, and the names of both are synced, before the first byte is
// written. The file is opened once, and the sync of the disk syncs it.
static WRITTEN_AND_SYNCED: [Call; 10] = [
    MadeFolder,
    OpenedFile,
    OpenedFolder,
    SyncedFolder,
    OpenedAbove,
    SyncedAbove,
    Wrote,
    Wrote,
    Wrote,
    SyncedFile,
];

// Nothing is made or opened again.
static READ_AND_SYNCED: [Call; 4] = [Read, Read, Measured, SyncedFile];

#[test]
fn a_sync_syncs_the_file_and_its_folders(rt: HostRuntime) -> Result<(), Fail> {
    let fake = Fake::new(rt.alloc(), NONE);
    let mut disk = fake.disk()?;
    assert!(rt; fake.count() == 0);
    assert!(rt; disk.write_at(0, b"abc").is_ok() && disk.sync().is_ok());
    assert!(rt; fake.has_calls(&WRITTEN_AND_SYNCED));
    fake.forget_calls();
    let mut piece = [0u8; 2];
    assert!(rt; disk.read_at(1, &mut piece) == Ok(2) && piece == *b"bc");
    assert!(rt; disk.len() == Ok(3) && disk.sync().is_ok());
    assert!(rt; fake.has_calls(&READ_AND_SYNCED));
    Ok(())
}
