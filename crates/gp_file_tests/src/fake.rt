//! A folder with one file, in memory. Each call is noted, one call may fail, and reads and writes
//! move one byte a call.
ghost use Rattle.std.specs.Prelude.{IsErr};
ghost use Rattle.std.specs.Io.{ReadsAtMost, WritesAtMost};

use gp_edge::FileDisk;
use std::alloc::{Allocator, Global};
use std::cell::{Cell, RefCell};
use std::fs::{Metadata, OpenFile, OpenOptions};
use std::io::{self, ErrorKind, Read, Seek, SeekFrom, Write};
use std::os::unix::fs::FileExt;
use std::rt::Files;
use std::test::Fail;

/// The folder of the file. It stands in the folder `.`.
pub const FOLDER: &str = "data";

/// The path of the file.
pub const PATH: &str = "data/0";

/// A call. 'Above' is the folder `.`.
#[derive(Clone, Copy, Debug, PartialEq, Eq, Drop)]
pub enum Call {
    MadeFolder,
    OpenedFile,
    OpenedFolder,
    OpenedAbove,
    SyncedFile,
    SyncedFolder,
    SyncedAbove,
    Wrote,
    Read,
    Measured,
    Cut,
}

/// The number of the failing call if none is to fail.
pub const NONE: usize = usize::MAX;

/// The state of the files. After a crash, the bytes are those of the last sync of the file. The file
/// is there if its folder was synced, and the folder if the one above it was.
#[derive(Drop)]
pub struct Fake {
    alloc: Global,
    calls: RefCell<Vec<Call>>,
    // The number of the call that fails.
    failing: Cell<usize>,
    bytes: RefCell<Vec<u8>>,
    kept: RefCell<Vec<u8>>,
    // Whether the bytes were changed since the last sync. After a sync that fails, reads still see
    // the changes, and no later sync makes them durable.
    is_dirty: Cell<bool>,
    has_file: Cell<bool>,
    keeps_file: Cell<bool>,
    has_folder: Cell<bool>,
    keeps_folder: Cell<bool>,
}

impl Fake {
    /// Neither the folder nor the file is there. The call with this number, from 0, fails.
    pub fn new(alloc: Global, failing: usize) -> Fake {
        Fake {
            alloc,
            calls: RefCell::new(Vec::new(alloc)),
            failing: Cell::new(failing),
            bytes: RefCell::new(Vec::new(alloc)),
            kept: RefCell::new(Vec::new(alloc)),
            is_dirty: Cell::new(false),
            has_file: Cell::new(false),
            keeps_file: Cell::new(false),
            has_folder: Cell::new(false),
            keeps_folder: Cell::new(false),
        }
    }

    /// A disk over the file.
    pub fn disk(&self) -> Result<FileDisk<FakeFiles<'_>>, Fail> {
        let folder = String::from_str(self.alloc, FOLDER)?;
        let path = String::from_str(self.alloc, PATH)?;
        Ok(FileDisk::new(FakeFiles { fake: self }, folder, path))
    }

    /// Whether these calls were made, and no others.
    pub fn has_calls(&self, wanted: &[Call]) -> bool {
        match self.calls.try_borrow() {
            Ok(calls) => *calls.as_slice() == *wanted,
            Err(_) => false,
        }
    }

    /// How many calls were made.
    pub fn count(&self) -> usize {
        match self.calls.try_borrow() {
            Ok(calls) => calls.len(),
            Err(_) => 0,
        }
    }

    /// Forgets the calls, so that the next one has the number 0.
    pub fn forget_calls(&self) {
        if let Ok(mut calls) = self.calls.try_borrow_mut() {
            calls.clear();
        }
    }

    /// The bytes of the file after a crash now, if the crash leaves the file.
    pub fn after_a_crash(&self) -> Result<Option<Vec<u8>>, Fail> {
        if !self.keeps_file.get() || !self.keeps_folder.get() {
            return Ok(None);
        }
        match self.kept.try_borrow() {
            Ok(kept) => Ok(Some(kept.clone()?)),
            Err(_) => Err(Fail::from("in use")),
        }
    }

    // Notes a call, which may be the one that fails.
    fn note(&self, call: Call) -> io::Result<()> {
        let Ok(mut calls) = self.calls.try_borrow_mut() else {
            return refused();
        };
        let number = calls.len();
        calls.push(call)?;
        if number == self.failing.get() {
            return refused();
        }
        Ok(())
    }

    // Makes the bytes durable.
    fn keep_bytes(&self) -> io::Result<()> {
        if !self.is_dirty.get() {
            return Ok(());
        }
        match (self.bytes.try_borrow(), self.kept.try_borrow_mut()) {
            (Ok(bytes), Ok(mut kept)) => {
                *kept = bytes.clone()?;
                self.is_dirty.set(false);
                Ok(())
            }
            _ => refused(),
        }
    }
}

fn refused<T>() -> io::Result<T>
    ensures { IsErr result }
{
    Err(io::Error::from(ErrorKind::Other))
}

/// The files, as a disk takes them.
#[derive(Drop)]
pub struct FakeFiles<'a> {
    fake: &'a Fake,
}

#[derive(Clone, Copy, PartialEq, Eq)]
enum Kind {
    File,
    Folder,
    Above,
}

/// A file or folder that was opened.
#[derive(Drop)]
pub struct FakeFile<'a> {
    fake: &'a Fake,
    kind: Kind,
}

/// The entries of a folder, which nothing reads.
#[derive(Drop)]
pub struct NoEntries;

impl Read for NoEntries {
    fn read(&mut self, _buf: &mut [u8]) -> io::Result<usize> {
        refused()
    }
}

impl<'a> Files for FakeFiles<'a> {
    type File = FakeFile<'a>;

    type Dir = NoEntries;

    fn open_file(&self, how: &OpenOptions, path: &str) -> io::Result<FakeFile<'a>> {
        let fake = self.fake;
        let kind = match path {
            "data/0" => Kind::File,
            "data" => Kind::Folder,
            "." => Kind::Above,
            _ => return refused(),
        };
        fake.note(match kind {
            Kind::File => Call::OpenedFile,
            Kind::Folder => Call::OpenedFolder,
            Kind::Above => Call::OpenedAbove,
        })?;
        if kind == Kind::File {
            let may_make = how.asks_create() && fake.has_folder.get();
            if how.asks_truncate() || !(fake.has_file.get() || may_make) {
                return refused();
            }
            fake.has_file.set(true);
        }
        Ok(FakeFile { fake, kind })
    }

    fn open_dir(&self, _path: &str) -> io::Result<NoEntries> {
        refused()
    }

    fn metadata(&self, path: &str) -> io::Result<Metadata> {
        if path == FOLDER && self.fake.has_folder.get() {
            Ok(Metadata::of_dir())
        } else {
            refused()
        }
    }

    fn symlink_metadata(&self, _path: &str) -> io::Result<Metadata> {
        refused()
    }

    fn copy(&self, _from: &str, _to: &str) -> io::Result<u64> {
        refused()
    }

    fn rename(&self, _from: &str, _to: &str) -> io::Result<()> {
        refused()
    }

    fn remove_file(&self, _path: &str) -> io::Result<()> {
        refused()
    }

    fn create_dir(&self, path: &str) -> io::Result<()> {
        self.fake.note(Call::MadeFolder)?;
        if path != FOLDER || self.fake.has_folder.get() {
            return refused();
        }
        self.fake.has_folder.set(true);
        Ok(())
    }

    fn remove_dir(&self, _path: &str) -> io::Result<()> {
        refused()
    }

    fn remove_dir_all<B: Allocator>(&self, _alloc: B, _path: &str) -> io::Result<()> {
        refused()
    }
}

impl<'a> Read for FakeFile<'a> {
    fn read(&mut self, _buf: &mut [u8]) -> io::Result<usize> {
        refused()
    }
}

impl<'a> Write for FakeFile<'a> {
    fn write(&mut self, _buf: &[u8]) -> io::Result<usize> {
        refused()
    }

    fn flush(&mut self) -> io::Result<()> {
        refused()
    }
}

impl<'a> Seek for FakeFile<'a> {
    fn seek(&mut self, _to: SeekFrom) -> io::Result<u64> {
        refused()
    }
}

impl<'a> OpenFile for FakeFile<'a> {
    fn metadata(&self) -> io::Result<Metadata> {
        self.fake.note(Call::Measured)?;
        match self.fake.bytes.try_borrow() {
            Ok(bytes) => Ok(Metadata::of_file(bytes.len() as u64)),
            Err(_) => refused(),
        }
    }

    fn set_len(&self, size: u64) -> io::Result<()> {
        self.fake.note(Call::Cut)?;
        let Ok(mut bytes) = self.fake.bytes.try_borrow_mut() else {
            return refused();
        };
        if size > bytes.len() as u64 {
            return refused();
        }
        bytes.truncate(size as usize);
        self.fake.is_dirty.set(true);
        Ok(())
    }

    fn sync_all(&self) -> io::Result<()> {
        let fake = self.fake;
        match self.kind {
            Kind::File => {
                let answer = fake.note(Call::SyncedFile);
                if answer.is_err() {
                    fake.is_dirty.set(false);
                }
                answer?;
                fake.keep_bytes()
            }
            Kind::Folder => {
                fake.note(Call::SyncedFolder)?;
                fake.keeps_file.set(fake.has_file.get());
                Ok(())
            }
            Kind::Above => {
                fake.note(Call::SyncedAbove)?;
                fake.keeps_folder.set(fake.has_folder.get());
                Ok(())
            }
        }
    }

    fn sync_data(&self) -> io::Result<()> {
        refused()
    }
}

impl<'a> FileExt for FakeFile<'a> {
    // One byte at most.
    fn read_at(&self, buf: &mut [u8], offset: u64) -> io::Result<usize>
        ensures bound { ReadsAtMost result buf.new }
    {
        self.fake.note(Call::Read)?;
        let Ok(bytes) = self.fake.bytes.try_borrow() else {
            return refused();
        };
        if buf.is_empty() || offset >= bytes.len() as u64 {
            return Ok(0);
        }
        buf[0] = bytes[offset as usize];
        Ok(1)
    }

    // One byte at most.
    fn write_at(&self, buf: &[u8], offset: u64) -> io::Result<usize>
        ensures bound { WritesAtMost result buf.now }
    {
        self.fake.note(Call::Wrote)?;
        let Ok(mut bytes) = self.fake.bytes.try_borrow_mut() else {
            return refused();
        };
        let Some(first) = buf.first() else {
            return Ok(0);
        };
        put(&mut bytes, offset, *first)?;
        self.fake.is_dirty.set(true);
        Ok(1)
    }
}

// Puts a byte at a place below 2^20. Missing bytes before it become zero.
fn put(bytes: &mut Vec<u8>, offset: u64, byte: u8) -> io::Result<()> {
    if offset >= 1 << 20 {
        return refused();
    }
    let place = offset as usize;
    if place >= bytes.len() {
        bytes.resize(place + 1, 0)?;
    }
    bytes[place] = byte;
    Ok(())
}
