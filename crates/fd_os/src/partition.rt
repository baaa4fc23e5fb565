//! The order in which writes to a partition reach the disk, and which partition they reach.

use crate::lock::claim;
use crate::opened::{check_type, is_same, replaced};
use std::fs::{File, OpenOptions};
use std::io::{Seek, SeekFrom};
use std::os::unix::fs::FileExt;
use std::path::PathBuf;
use std::rt::Files;
use std::{fs, io};

/// An open partition, its size, and where its last write ended. It is opened to be read, and its path once more to be
/// written: a disk that is opened to be written and closed again is looked at anew by the system.
#[derive(Drop)]
pub(crate) struct Partition {
    path: PathBuf,
    // What was judged, and has the lock.
    file: File,
    to_write: Option<File>,
    pub(crate) size: u64,
    // Where its last block begins, whose header says whether a dump stands there.
    trailing: u64,
    end: Option<u64>,
    pub(crate) synced: bool,
    // Whether the command writes it.
    is_written: bool,
}

// Where a file ends. That is a disk's size, where its metadata say 0.
fn size_of(mut file: &File) -> io::Result<u64> {
    file.seek(SeekFrom::End(0))
}

impl Partition {
    pub(crate) fn open<R: Files<File = File>>(
        rt: &R,
        path: PathBuf,
        block: u32,
    ) -> io::Result<Partition> {
        check_type(fs::metadata(rt, &path)?.file_type())?;
        let file = File::open(rt, &path)?;
        let size = size_of(&file)?;
        Ok(Partition {
            path,
            file,
            to_write: None,
            size,
            trailing: size.saturating_sub(u64::from(block)),
            end: None,
            synced: true,
            is_written: false,
        })
    }

    /// Takes the partition to be written by this program alone, or to be read by it and by others.
    pub(crate) fn claim(&mut self, for_writing: bool) -> io::Result<()> {
        self.is_written = for_writing;
        claim(&self.file, for_writing)
    }

    /// Opens the partition to be written, where the command will write it.
    pub(crate) fn prepare<R: Files<File = File>>(&mut self, rt: &R) -> io::Result<()> {
        if self.is_written {
            self.open_to_write(rt)?;
        }
        Ok(())
    }

    // Opens the partition to be written, where that wasn't done: the one that was opened to be read, and no other that has
    // come to its path since.
    fn open_to_write<R: Files<File = File>>(&mut self, rt: &R) -> io::Result<&File> {
        if self.to_write.is_none() {
            let file = OpenOptions::new()
                .read(true)
                .write(true)
                .open(rt, &self.path)?;
            if !is_same(&file.metadata()?, &self.file.metadata()?) || size_of(&file)? != self.size {
                return Err(replaced());
            }
            self.to_write = Some(file);
        }
        match &self.to_write {
            Some(file) => Ok(file),
            None => Err(replaced()),
        }
    }

    /// Reads what the disk has: all that was written before is synced first.
    pub(crate) fn read(&mut self, out: &mut [u8], at: u64) -> io::Result<()> {
        self.sync()?;
        self.file.read_exact_at(out, at)
    }

    /// Writes the bytes. All that was written before is synced first, but where they follow on the last write, as the
    /// pieces of a dump's body do. A write that ends in the last block is synced before this call ends: the trailing header
    /// of a dump and the clearing of one are such writes, and the last ones of their commands. A command whose last write is
    /// another one, as that of a drill that stops, reads behind it. So nothing is left unsynced.
    pub(crate) fn write<R: Files<File = File>>(
        &mut self,
        rt: &R,
        bytes: &[u8],
        at: u64,
    ) -> io::Result<()> {
        let end = at.checked_add(bytes.len() as u64);
        let decides = end.is_none_or(|end| end > self.trailing);
        if decides || self.end != Some(at) {
            self.sync()?;
        }
        self.synced = false;
        self.open_to_write(rt)?.write_all_at(bytes, at)?;
        self.end = end;
        if decides { self.sync() } else { Ok(()) }
    }

    // Waits until the disk has all that was written.
    fn sync(&mut self) -> io::Result<()> {
        if let Some(file) = &self.to_write
            && !self.synced
        {
            file.sync_data()?;
        }
        self.synced = true;
        Ok(())
    }
}
