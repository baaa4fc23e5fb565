//! A directory of files as a site. It tells no contents.

ghost use Rattle.std.specs.Prelude.{◌≡◌, None, IfOk};
ghost use Rattle.fd_site.specs.Contents.{nothing_told};

use crate::claim::{Access, Claim};
use crate::directory::Directory;
use crate::fault::counted;
use crate::held::Held;
use crate::opened::{Opened, is_missing, missing};
use crate::partition::Partition;
use fd_site::{Failed, Site};
use std::fs::File;
use std::io;
use std::path::PathBuf;
use std::rt::Files;

/// A directory whose file `dumpdev` is the partition. The partition stays open, and so do the files that have unsynced writes
/// and some others. What is only read is never opened to be written.
#[derive(Drop)]
pub struct DirSite<'a, R: Files<File = File> + Eprint + AllocGlobal> {
    rt: &'a R,
    directory: Directory,
    dumpdev: Option<Partition>,
    held: Held,
    size: u64,
    block: u32,
    faults: u64,
}

impl<'a, R: Files<File = File> + Eprint + AllocGlobal> DirSite<'a, R> {
    /// Opens the partition; where there is no `dumpdev`, its size is 0. An error says that it is there and can't be
    /// opened, or that its size can't be learnt.
    pub fn open(rt: &'a R, directory: &str, block: u32) -> io::Result<DirSite<'a, R>>
        ensures block { IfOk result (λ s. (⟦<DirSite<'a, R> as Site>⟧.seen s).block ≡ block) }
        ensures faults { IfOk result (λ s. (⟦<DirSite<'a, R> as Site>⟧.seen s).faults ≡ 0) }
    {
        let directory = Directory::new(PathBuf::from_str(rt.alloc(), directory)?);
        let dumpdev = directory.path_of(rt, "dumpdev")?;
        let (dumpdev, size) = match Partition::open(rt, dumpdev, block) {
            Ok(partition) => {
                let size = partition.size;
                (Some(partition), size)
            }
            Err(why) if is_missing(&why) => (None, 0),
            Err(why) => return Err(why),
        };
        Ok(DirSite {
            rt,
            directory,
            dumpdev,
            held: Held::new(rt.alloc()),
            size,
            block,
            faults: 0,
        })
    }

    /// Keeps other programs out of what a command will do here. An error says that another one is at the partition.
    pub fn claim(&mut self, claim: Claim) -> io::Result<()>
        ensures { ⟦<DirSite<'a, R> as Site>⟧.seen self.new ≡ ⟦<DirSite<'a, R> as Site>⟧.seen self.old }
    {
        self.directory.makes_files = claim.makes_files;
        match (&mut self.dumpdev, claim.partition) {
            (Some(partition), Some(access)) => partition.claim(matches!(access, Access::Write)),
            _ => Ok(()),
        }
    }
}

// The file of this name, which is held open from now on.
fn held<'b, R: Files<File = File> + AllocGlobal>(
    rt: &R,
    directory: &Directory,
    held: &'b mut Held,
    name: &str,
    to_write: bool,
) -> io::Result<&'b mut Opened> {
    let is_held = match held.get(name) {
        Some(file) => file.for_writing || !to_write,
        None => false,
    };
    if !is_held {
        let path = directory.path_of(rt, name)?;
        let opened = if to_write {
            Opened::open_to_write(rt, &path)?
        } else {
            Opened::open(rt, &path)?
        };
        held.hold(rt.alloc(), name, opened)?;
    }
    held.get(name).ok_or_else(missing)
}

// Makes the file of this name empty, and holds it open.
fn create<R: Files<File = File> + AllocGlobal>(
    rt: &R,
    directory: &mut Directory,
    held: &mut Held,
    name: &str,
) -> io::Result<()> {
    // One that this program made before is no other program's.
    held.close(name);
    let created = directory.create(rt, name)?;
    held.hold(rt.alloc(), name, created)
}

// A partition that will be written is opened for that before the first file is made: what can't be cleared isn't saved, or
// it would be at each start of the machine.
fn prepare_partition<R: Files<File = File>>(
    rt: &R,
    dumpdev: &mut Option<Partition>,
) -> io::Result<()> {
    match dumpdev {
        Some(partition) => partition.prepare(rt),
        None => Ok(()),
    }
}

// After an error of this call and of the next one nothing is known of what the disk has, and the partition is let go.
fn read_partition(dumpdev: &mut Option<Partition>, out: &mut [u8], at: u64) -> io::Result<()> {
    let read = match dumpdev {
        Some(partition) => partition.read(out, at),
        None => Err(missing()),
    };
    if read.is_err() {
        *dumpdev = None;
    }
    read
}

fn write_partition<R: Files<File = File>>(
    rt: &R,
    dumpdev: &mut Option<Partition>,
    bytes: &[u8],
    at: u64,
) -> io::Result<()> {
    let written = match dumpdev {
        Some(partition) => partition.write(rt, bytes, at),
        None => Err(missing()),
    };
    if written.is_err() {
        *dumpdev = None;
    }
    written
}

impl<'a, R: Files<File = File> + Eprint + AllocGlobal> Site for DirSite<'a, R> {
    ghost seen = { λ s. record { told = None; size = s.size; block = s.block; faults = s.faults } };

    fn size(&self) -> u64 {
        self.size
    }

    fn block(&self) -> u32 {
        self.block
    }

    fn read_part(&mut self, at: u64, out: &mut [u8]) -> Result<(), Failed> {
        let read = read_partition(&mut self.dumpdev, out, at);
        counted(self.rt, "dumpdev", &mut self.faults, read)
    }

    fn write_part(&mut self, at: u64, bytes: &[u8]) -> Result<(), Failed> {
        let written = write_partition(self.rt, &mut self.dumpdev, bytes, at);
        counted(self.rt, "dumpdev", &mut self.faults, written)
    }

    fn file_len(&mut self, name: &str) -> Result<Option<u64>, Failed> {
        let len = self.directory.len_of(self.rt, name);
        counted(self.rt, name, &mut self.faults, len)
    }

    fn read_file(&mut self, name: &str, at: u64, out: &mut [u8]) -> Result<(), Failed> {
        let read = match held(self.rt, &self.directory, &mut self.held, name, false) {
            Ok(file) => file.read_at(out, at),
            Err(why) => Err(why),
        };
        counted(self.rt, name, &mut self.faults, read)
    }

    fn create(&mut self, name: &str) -> Result<(), Failed> {
        let prepared = prepare_partition(self.rt, &mut self.dumpdev);
        counted(self.rt, "dumpdev", &mut self.faults, prepared)?;
        let created = create(self.rt, &mut self.directory, &mut self.held, name);
        counted(self.rt, name, &mut self.faults, created)
    }

    fn write_file(&mut self, name: &str, at: u64, bytes: &[u8]) -> Result<(), Failed> {
        let written = match held(self.rt, &self.directory, &mut self.held, name, true) {
            Ok(file) => file.write_at(bytes, at),
            Err(why) => Err(why),
        };
        counted(self.rt, name, &mut self.faults, written)
    }

    fn sync_file(&mut self, name: &str) -> Result<(), Failed> {
        let synced = match held(self.rt, &self.directory, &mut self.held, name, false) {
            Ok(file) => self.directory.sync(self.rt, file),
            Err(why) => Err(why),
        };
        counted(self.rt, name, &mut self.faults, synced)
    }

    ghost told_size = { λ s c is. nothing_told c is };
}
