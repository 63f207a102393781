//! A disk over a file of the operating system. What the file holds is trusted and not proved.
ghost use Rattle.std.specs.Prelude.{◌≡◌, ◌≤◌, None, Ok, length, IfOk};
ghost use Rattle.gp_edge.specs.Disks.{Counts};

use crate::disk::Disk;
use crate::refusal::Refused;
use std::fs::{self, OpenFile, OpenOptions};
use std::io;
use std::marker::Model;
use std::os::unix::fs::FileExt;
use std::path::Path;
use std::rt::Files;

/// A disk over one file in a folder. The first call makes the folder and the file if they are
/// absent. It then syncs the folder and the one above it, so that a crash does not lose the file
/// itself. No clause says so.
///
/// A contract sees how many calls have failed, and nothing of the content: no clause says what the
/// file holds or what a crash leaves of it. That it keeps the rules of a disk is trusted, and
/// tested on a real file. It relies on the operating system for this: a read returns what was
/// written last; a write changes no byte outside its range, except that the bytes between an old
/// end and the range become zero; after `fsync` of a file and of the folders above it a crash
/// leaves what reads return; and nothing else writes to the file.
#[derive(Drop)]
pub struct FileDisk<R: Files + Drop> {
    files: R,
    folder: String,
    path: String,
    file: Option<R::File>,
    faults: u64,
}

impl<R: Files + Drop> Model for FileDisk<R> {
    ghost use Rattle.std.specs.Prelude.{ℕ};

    ghost Value = { ℕ };

    ghost view = { λ d. d.faults };
}

impl<R: Files + Drop> FileDisk<R> {
    /// The disk over the file at `path`, which is in `folder`. No call of it has failed. A test
    /// shows that it opens nothing before its first call.
    pub fn new(files: R, folder: String, path: String) -> FileDisk<R>
        ensures { result ≡ 0 }
    {
        FileDisk {
            files,
            folder,
            path,
            file: None,
            faults: 0,
        }
    }

    /// How many calls of this disk have failed, up to 2^64 - 1.
    pub fn faults(&self) -> u64
        ensures { result ≡ self.now }
    {
        self.faults
    }
}

// The result of a call of the system. A failure is counted, up to 2^64 - 1.
fn counted<T: Drop>(faults: &mut u64, answer: io::Result<T>) -> Result<T, Refused>
    ensures count { Counts faults.old faults.new result }
    ensures answer { IfOk result (λ x. answer ≡ Ok x) }
{
    match answer {
        Ok(value) => Ok(value),
        Err(_) => {
            *faults = faults.saturating_add(1);
            Err(Refused::Failed)
        }
    }
}

// The folder that contains a folder.
fn above(folder: &str) -> &str {
    match Path::new(folder).parent() {
        Some(parent) if parent.as_str() != "" => parent.as_str(),
        _ => ".",
    }
}

// Makes the names in a folder durable.
fn sync_folder<R: Files>(files: &R, folder: &str) -> io::Result<()> {
    OpenOptions::new()
        .read(true)
        .open(files, folder)?
        .sync_all()
}

// The file, which is opened at the first use.
fn opened<'a, R: Files>(
    files: &R,
    folder: &str,
    path: &str,
    file: &'a mut Option<R::File>,
) -> io::Result<&'a R::File> {
    if file.is_none() {
        fs::create_dir_all(files, folder)?;
        let made = OpenOptions::new()
            .read(true)
            .write(true)
            .create(true)
            .open(files, path)?;
        sync_folder(files, folder)?;
        sync_folder(files, above(folder))?;
        *file = Some(made);
    }
    match file {
        Some(file) => Ok(file),
        None => Err(io::Error::from(io::ErrorKind::NotFound)),
    }
}

fn length_of<F: OpenFile>(file: &F) -> io::Result<u64> {
    Ok(file.metadata()?.len())
}

// Fills the piece as far as the file has bytes.
fn read_from<F: FileExt>(file: &F, at: u64, into: &mut [u8]) -> io::Result<usize>
    ensures { IfOk result (λ n. n ≤ length into.old) }
{
    let mut done = 0;
    while done < into.len() {
        let count = file.read_at(&mut into[done..], at.saturating_add(done as u64))?;
        if count == 0 {
            return Ok(done);
        }
        done += count;
    }
    Ok(done)
}

// Keeps the first `len` bytes of a file.
fn cut_file<F: OpenFile>(file: &F, len: u64) -> io::Result<()> {
    if file.metadata()?.len() > len {
        file.set_len(len)?;
    }
    Ok(())
}

impl<R: Files + Drop> Disk for FileDisk<R>
where
    R::File: FileExt,
{
    ghost content = { λ d. None };

    // A crash may leave anything.
    ghost image = { λ d c. Unit {0} };

    ghost moment = { λ d. 0 };

    ghost since = { λ d t c. Unit {0} };

    ghost faults = { λ n. n };

    ghost counts_now = { λ d t c le now. tt };

    ghost only_now = { λ d c left. tt };

    ghost shows = { λ d s e. tt };

    fn len(&mut self) -> Result<u64, Refused> {
        let answer = match opened(&self.files, &self.folder, &self.path, &mut self.file) {
            Ok(file) => length_of(file),
            Err(e) => Err(e),
        };
        counted(&mut self.faults, answer)
    }

    fn read_at(&mut self, at: u64, into: &mut [u8]) -> Result<usize, Refused> {
        let answer = match opened(&self.files, &self.folder, &self.path, &mut self.file) {
            Ok(file) => read_from(file, at, into),
            Err(e) => Err(e),
        };
        counted(&mut self.faults, answer)
    }

    fn write_at(&mut self, at: u64, from: &[u8]) -> Result<(), Refused> {
        let answer = match opened(&self.files, &self.folder, &self.path, &mut self.file) {
            Ok(file) => file.write_all_at(from, at),
            Err(e) => Err(e),
        };
        counted(&mut self.faults, answer)
    }

    fn cut(&mut self, len: u64) -> Result<(), Refused> {
        let answer = match opened(&self.files, &self.folder, &self.path, &mut self.file) {
            Ok(file) => cut_file(file, len),
            Err(e) => Err(e),
        };
        counted(&mut self.faults, answer)
    }

    fn sync(&mut self) -> Result<(), Refused> {
        let answer = match opened(&self.files, &self.folder, &self.path, &mut self.file) {
            Ok(file) => file.sync_all(),
            Err(e) => Err(e),
        };
        counted(&mut self.faults, answer)
    }
}
