//! A file of the directory: one that is only read, or one that this program writes. What is written is a file of the
//! directory's own and never reached through a link, nobody else may read it, and no other program writes it.

use crate::lock::claim;
use std::fs::{File, FileType, Metadata, OpenOptions};
use std::io::{Error, ErrorKind};
use std::os::unix::fs::{FileExt, FileTypeExt, MetadataExt, OpenOptionsExt, PermissionsExt};
use std::path::PathBuf;
use std::rt::Files;
use std::{fs, io};

/// The mode of what is written: kernel memory is its owner's alone.
const PRIVATE: u32 = 0o600;

/// How many bytes are written before their sync is begun, so that the last one is short.
const MOST_BEHIND: u64 = 32 * 1024 * 1024;

/// A file that is open.
#[derive(Drop)]
pub(crate) struct Opened {
    file: File,
    pub(crate) for_writing: bool,
    /// Whether the disk has all that was asked for: its bytes, its length and its name.
    pub(crate) synced: bool,
    // How many bytes were written since the last sync.
    behind: u64,
}

/// Whether an error says that nothing stands at the path.
pub(crate) fn is_missing(why: &Error) -> bool {
    matches!(why.kind(), ErrorKind::NotFound | ErrorKind::NotADirectory)
}

/// The error that says so.
pub(crate) fn missing() -> Error {
    Error::new(ErrorKind::NotFound, "No such file or directory")
}

/// Refuses what has no bytes at places. Opening a pipe would wait for its other end.
pub(crate) fn check_type(found: FileType) -> io::Result<()> {
    if found.is_dir() {
        return Err(Error::new(ErrorKind::IsADirectory, "Is a directory"));
    }
    if found.is_fifo() || found.is_socket() {
        return Err(Error::new(ErrorKind::NotSeekable, "Is a pipe or a socket"));
    }
    Ok(())
}

// Refuses what isn't a file of the directory's own, as its metadata say that follow no link.
fn check_own(found: &Metadata) -> io::Result<()> {
    check_type(found.file_type())?;
    if found.is_symlink() {
        return Err(Error::new(ErrorKind::InvalidInput, "Is a symbolic link"));
    }
    if !found.is_file() {
        return Err(Error::new(ErrorKind::InvalidInput, "Is a device"));
    }
    Ok(())
}

/// Whether both are of one file or of one disk.
pub(crate) fn is_same(one: &Metadata, other: &Metadata) -> bool {
    one.dev() == other.dev() && one.ino() == other.ino() && one.rdev() == other.rdev()
}

/// The fault of a path at which another file stands than a moment ago.
pub(crate) fn replaced() -> Error {
    Error::new(ErrorKind::InvalidInput, "Is another file than before")
}

/// The length of the file at a path, or None where there is none.
pub(crate) fn len_at<R: Files<File = File>>(rt: &R, path: &PathBuf) -> io::Result<Option<u64>> {
    match fs::metadata(rt, path) {
        Ok(found) => {
            check_type(found.file_type())?;
            Ok(Some(found.len()))
        }
        Err(why) if is_missing(&why) => Ok(None),
        Err(why) => Err(why),
    }
}

/// What stands at a path of which a file is to be made, if anything does: a file of the directory's own.
pub(crate) fn own_at<R: Files<File = File>>(
    rt: &R,
    path: &PathBuf,
) -> io::Result<Option<Metadata>> {
    match fs::symlink_metadata(rt, path) {
        Ok(found) => {
            check_own(&found)?;
            Ok(Some(found))
        }
        Err(why) if is_missing(&why) => Ok(None),
        Err(why) => Err(why),
    }
}

// Opens a file of the directory's own that was found at the path, and claims it. What is opened is compared with what was
// found, since nothing here opens a path without following a link; opening a file alone does nothing to it.
fn open_own<R: Files<File = File>>(rt: &R, path: &PathBuf, found: &Metadata) -> io::Result<File> {
    let file = OpenOptions::new().read(true).write(true).open(rt, path)?;
    if !is_same(&file.metadata()?, found) {
        return Err(replaced());
    }
    claim(&file, true)?;
    if found.mode() & 0o7777 != PRIVATE {
        let mut permissions = found.permissions();
        permissions.set_mode(PRIVATE);
        file.set_permissions(permissions)?;
    }
    Ok(file)
}

// Makes a file where none stands, and claims it.
fn create_new<R: Files<File = File>>(rt: &R, path: &PathBuf) -> io::Result<File> {
    let file = OpenOptions::new()
        .read(true)
        .write(true)
        .create_new(true)
        .mode(PRIVATE)
        .open(rt, path)?;
    claim(&file, true)?;
    Ok(file)
}

impl Opened {
    fn new(file: File, for_writing: bool) -> Opened {
        Opened {
            file,
            for_writing,
            synced: true,
            behind: 0,
        }
    }

    /// Opens what stands at the path, to be read.
    pub(crate) fn open<R: Files<File = File>>(rt: &R, path: &PathBuf) -> io::Result<Opened> {
        check_type(fs::metadata(rt, path)?.file_type())?;
        Ok(Opened::new(File::open(rt, path)?, false))
    }

    /// Opens the file at the path, to be written.
    pub(crate) fn open_to_write<R: Files<File = File>>(
        rt: &R,
        path: &PathBuf,
    ) -> io::Result<Opened> {
        let found = fs::symlink_metadata(rt, path)?;
        check_own(&found)?;
        Ok(Opened::new(open_own(rt, path, &found)?, true))
    }

    /// Makes the file at the path empty, whether it was there or not.
    pub(crate) fn create<R: Files<File = File>>(rt: &R, path: &PathBuf) -> io::Result<Opened> {
        let file = match own_at(rt, path)? {
            Some(found) => {
                let file = open_own(rt, path, &found)?;
                file.set_len(0)?;
                file
            }
            None => create_new(rt, path)?,
        };
        let mut opened = Opened::new(file, true);
        opened.synced = false;
        Ok(opened)
    }

    pub(crate) fn read_at(&self, out: &mut [u8], at: u64) -> io::Result<()> {
        self.file.read_exact_at(out, at)
    }

    /// Writes the bytes, and waits for the disk where much was written since it was waited for.
    pub(crate) fn write_at(&mut self, bytes: &[u8], at: u64) -> io::Result<()> {
        self.synced = false;
        self.file.write_all_at(bytes, at)?;
        self.behind = self.behind.saturating_add(bytes.len() as u64);
        if self.behind >= MOST_BEHIND {
            self.file.sync_data()?;
            self.behind = 0;
        }
        Ok(())
    }

    /// Waits until the disk has what was written, and the file's length.
    pub(crate) fn sync(&self) -> io::Result<()> {
        self.file.sync_all()
    }
}
