//! The files of the directory that are held open.

use crate::opened::Opened;
use std::alloc::Global;
use std::io;
use std::io::{Error, ErrorKind};

/// How many files are open at most: those of sixteen sessions of a server, and one that is being finished.
const MOST: usize = 17;

/// Files that are open, by their names: each that has unsynced writes, so that none of their errors is lost, and of the
/// others those that were opened last. A file that was made stays claimed as long as it is held.
#[derive(Drop)]
pub(crate) struct Held {
    files: Vec<Named>,
}

/// An open file, and its name in the directory.
#[derive(Drop)]
struct Named {
    name: String,
    opened: Opened,
}

impl Held {
    pub(crate) fn new(alloc: Global) -> Held {
        Held {
            files: Vec::new(alloc),
        }
    }

    /// The open file of this name.
    pub(crate) fn get(&mut self, name: &str) -> Option<&mut Opened> {
        for file in self.files.iter_mut() {
            if file.name.as_str() == name {
                return Some(&mut file.opened);
            }
        }
        None
    }

    /// Holds a file open, in the place of one of the same name.
    pub(crate) fn hold(&mut self, alloc: Global, name: &str, opened: Opened) -> io::Result<()> {
        self.close(name);
        self.make_room()?;
        let name = String::from_str(alloc, name)?;
        Ok(self.files.push(Named { name, opened })?)
    }

    /// Closes the file of this name, where it is open.
    pub(crate) fn close(&mut self, name: &str) {
        let place = self
            .files
            .iter()
            .position(|file| file.name.as_str() == name);
        if let Some(at) = place {
            let _closed = self.files.remove(at);
        }
    }

    // Closes the first file that is synced, where as many are open as may be.
    fn make_room(&mut self) -> io::Result<()> {
        if self.files.len() < MOST {
            return Ok(());
        }
        match self.files.iter().position(|file| file.opened.synced) {
            Some(at) => {
                let _closed = self.files.remove(at);
                Ok(())
            }
            None => Err(Error::new(ErrorKind::Other, "Too many open files")),
        }
    }
}
