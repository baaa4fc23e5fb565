//! The directory of a site, and whose turn it is to choose a name in it.

use crate::opened::{Opened, len_at, missing, own_at};
use std::fs::File;
use std::io;
use std::path::PathBuf;
use std::rt::Files;

/// The file with the next number, of which all programs that save are the writers.
const COUNTER: &str = "bounds";

/// A directory. A command that makes files there locks it from when a name was found missing until its file is made, and
/// as long as it reads and writes the counter: so what was found missing stays missing, two programs take two numbers, and
/// one that copies a dump for minutes keeps no other waiting. Where the directory can't be locked it is used as it is.
#[derive(Drop)]
pub(crate) struct Directory {
    path: PathBuf,
    handle: Option<File>,
    pub(crate) makes_files: bool,
    locked: bool,
}

impl Directory {
    pub(crate) fn new(path: PathBuf) -> Directory {
        Directory {
            path,
            handle: None,
            makes_files: false,
            locked: false,
        }
    }

    pub(crate) fn path_of<R: AllocGlobal>(&self, rt: &R, name: &str) -> io::Result<PathBuf> {
        Ok(self.path.join(rt.alloc(), name)?)
    }

    /// The length of the file of this name, or None where there is none.
    pub(crate) fn len_of<R: Files<File = File> + AllocGlobal>(
        &mut self,
        rt: &R,
        name: &str,
    ) -> io::Result<Option<u64>> {
        let path = self.path_of(rt, name)?;
        if !self.makes_files {
            return len_at(rt, &path);
        }
        self.lock(rt);
        let len = self.len_to_make(rt, &path, name);
        if name != COUNTER && !matches!(len, Ok(None)) {
            self.unlock();
        }
        len
    }

    // The same, where the counter is refused now that couldn't be written behind the dump.
    fn len_to_make<R: Files<File = File>>(
        &self,
        rt: &R,
        path: &PathBuf,
        name: &str,
    ) -> io::Result<Option<u64>> {
        if name == COUNTER {
            own_at(rt, path)?;
        }
        len_at(rt, path)
    }

    /// Has other programs wait that choose a name here.
    pub(crate) fn lock<R: Files<File = File>>(&mut self, rt: &R) {
        if self.locked {
            return;
        }
        if let Ok(handle) = self.open(rt) {
            let _taken = handle.lock();
            self.locked = true;
        }
    }

    /// Lets other programs choose a name.
    pub(crate) fn unlock(&mut self) {
        if let Some(handle) = &self.handle
            && self.locked
        {
            let _let_go = handle.unlock();
        }
        self.locked = false;
    }

    /// Makes the file of this name empty, and lets other programs choose a name, but where it is the counter.
    pub(crate) fn create<R: Files<File = File> + AllocGlobal>(
        &mut self,
        rt: &R,
        name: &str,
    ) -> io::Result<Opened> {
        self.lock(rt);
        let path = self.path_of(rt, name)?;
        let created = Opened::create(rt, &path);
        if name != COUNTER {
            self.unlock();
        }
        created
    }

    /// Waits until the disk has the file, and the directory, which has its name.
    pub(crate) fn sync<R: Files<File = File>>(
        &mut self,
        rt: &R,
        file: &mut Opened,
    ) -> io::Result<()> {
        file.sync()?;
        self.open(rt)?.sync_all()?;
        file.synced = true;
        self.unlock();
        Ok(())
    }

    // The directory itself, which stays open.
    fn open<R: Files<File = File>>(&mut self, rt: &R) -> io::Result<&File> {
        if self.handle.is_none() {
            self.handle = Some(File::open(rt, &self.path)?);
        }
        match &self.handle {
            Some(handle) => Ok(handle),
            None => Err(missing()),
        }
    }
}
