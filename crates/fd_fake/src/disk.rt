//! A disk in memory: a partition and a directory of files, and what was asked of them.

ghost use Rattle.std.specs.Prelude.{◌≡◌, ◌+◌, ◌≤◌, ◌%◌, ◌++◌, [], ◌∷◌, ℕ, List, length, take, drop, replicate, Some, IfOk, IfSome, IsSomeAnd, OnOk, OnErr, slice_range, if◌then◌else◌};
ghost use Rattle.std.specs.Option.{option_map};
ghost use Rattle.std.specs.Str.{bytes_eq};
ghost use Rattle.fd_site.specs.Contents.{whole_part};
ghost use Rattle.fd_site.specs.Journal.{Create, Sync, Write};
ghost use Rattle.fd_fake.specs.Directory.{file_in};
ghost use Rattle.fd_fake.specs.Disk.{file_now, part_now, with_entry};

use crate::bytes::overwrite;
use crate::directory::{Files, len_in, put_file, read_in, remove_file, write_in};
use crate::entry::Entry;
use std::alloc::{AllocError, Global};
use std::collections::BTreeMap;
use std::marker::Model;

/// A partition and a directory of files, as they were when they were made and as they are, and the journal of what
/// was asked of them. After an error everything is as it was.
#[derive(Drop)]
pub struct Disk {
    alloc: Global,
    base_part: Vec<u8>,
    part: Vec<u8>,
    base_files: Files,
    files: Files,
    journal: Vec<Entry>,
}

impl Model for Disk {
    ghost use Rattle.fd_fake.specs.Disk.{DiskInMemory};

    ghost Value = { DiskInMemory };

    ghost use Rattle.fd_fake.specs.Directory.{listed};
    ghost use Rattle.fd_fake.specs.Disk.{IsCurrent};
    ghost use Rattle.fd_fake.specs.Entries.{entries};

    ghost view = { λ d. record { base_part = d.base_part.items; base_files = listed d.base_files; journal = entries d.journal.items } };

    ghost invariant = { λ d. IsCurrent d.base_part.items d.part.items d.base_files d.files (entries d.journal.items) };
}

impl Disk {
    /// A partition of zeros and no files.
    pub fn new(alloc: Global, size: u64) -> Result<Disk, AllocError>
        ensures { IfOk result (λ d. d ≡ record { base_part = replicate size 0; base_files = []; journal = [] }) }
    {
        let base_part = vec![in alloc; 0; size as usize]?;
        let part = vec![in alloc; 0; size as usize]?;
        Ok(Disk {
            alloc,
            base_part,
            part,
            base_files: BTreeMap::new(alloc),
            files: BTreeMap::new(alloc),
            journal: Vec::new(alloc),
        })
    }

    /// The partition's size in bytes.
    pub fn size(&self) -> u64
        ensures { result ≡ length (part_now self.now) }
    {
        self.part.len() as u64
    }

    /// Puts the bytes into the partition at `at`, as if they had been there when it was made.
    pub fn preset_part(&mut self, at: u64, bytes: &[u8])
        requires fresh { self.old.journal ≡ [] }
        requires inside { at + length bytes.now ≤ length self.old.base_part }
        ensures { self.new ≡ record self.old { base_part = take at self.old.base_part ++ (bytes.now ++ drop (length bytes.now) (drop at self.old.base_part)) } }
    {
        overwrite(&mut self.base_part, at, bytes);
        overwrite(&mut self.part, at, bytes);
    }

    /// Puts the file into the directory, as if it had been there when it was made.
    pub fn preset_file(&mut self, name: &str, bytes: Vec<u8>) -> Result<(), AllocError>
        requires { self.old.journal ≡ [] }
        ensures ok { OnOk result ((q : List ℕ) → file_in self.new.base_files q ≡ (if bytes_eq q name.now then Some bytes.items else file_in self.old.base_files q)) }
        ensures err { OnErr result ((q : List ℕ) → file_in self.new.base_files q ≡ file_in self.old.base_files q) }
        ensures part { self.new.base_part ≡ self.old.base_part }
        ensures journal { self.new.journal ≡ [] }
    {
        let copy = bytes.as_slice().to_vec(self.alloc)?;
        let key = String::from_str(self.alloc, name)?;
        let base_key = String::from_str(self.alloc, name)?;
        put_file(&mut self.base_files, base_key, bytes)?;
        match put_file(&mut self.files, key, copy) {
            Ok(()) => Ok(()),
            Err(error) => {
                remove_file(&mut self.base_files, name);
                Err(error)
            }
        }
    }

    /// Reads the partition's bytes from `at` on.
    pub fn read_part(&self, at: u64, out: &mut [u8])
        requires { at + length out.old ≤ length (part_now self.now) }
        ensures { out.new ≡ slice_range (part_now self.now) at (at + length out.old) }
    {
        let from = at as usize;
        out.copy_from_slice(&self.part[from..from + out.len()]);
    }

    /// Writes the bytes to the partition from `at` on.
    pub fn write_part(&mut self, at: u64, bytes: &[u8]) -> Result<(), AllocError>
        requires inside { at + length bytes.now ≤ length (part_now self.old) }
        requires whole { length bytes.now % 512 ≡ 0 }
        ensures ok { OnOk result (self.new ≡ with_entry self.old (whole_part at bytes.now)) }
        ensures err { OnErr result (self.new ≡ self.old) }
        ensures size { length (part_now self.new) ≡ length (part_now self.old) }
    {
        let copy = bytes.to_vec(self.alloc)?;
        self.journal.push(Entry::Part { at, bytes: copy })?;
        overwrite(&mut self.part, at, bytes);
        Ok(())
    }

    /// The length of the file of this name.
    pub fn file_len(&self, name: &str) -> Option<u64>
        ensures { result ≡ option_map (λ file. length file) (file_now self.now name.now) }
    {
        len_in(&self.files, name)
    }

    /// Reads the bytes from `at` on of the file of this name.
    pub fn read_file(&self, name: &str, at: u64, out: &mut [u8])
        requires { IsSomeAnd (file_now self.now name.now) (λ file. at + length out.old ≤ length file) }
        ensures { IfSome (file_now self.now name.now) (λ file. out.new ≡ slice_range file at (at + length out.old)) }
    {
        read_in(&self.files, name, at, out);
    }

    /// Makes the file empty, whether it was there or not.
    pub fn create(&mut self, name: &str) -> Result<(), AllocError>
        ensures ok { OnOk result (self.new ≡ with_entry self.old (Create name.now)) }
        ensures err { OnErr result (self.new ≡ self.old) }
        ensures part { part_now self.new ≡ part_now self.old }
    {
        let noted = String::from_str(self.alloc, name)?;
        let key = String::from_str(self.alloc, name)?;
        self.journal.reserve(1)?;
        put_file(&mut self.files, key, Vec::new(self.alloc))?;
        let _ = self.journal.push(Entry::Create { name: noted });
        Ok(())
    }

    /// Writes the bytes to the file from `at` on, and fills a gap before them with zeros.
    pub fn write_file(&mut self, name: &str, at: u64, bytes: &[u8]) -> Result<(), AllocError>
        ensures ok { OnOk result (self.new ≡ with_entry self.old (Write name.now at bytes.now)) }
        ensures err { OnErr result (self.new ≡ self.old) }
        ensures part { part_now self.new ≡ part_now self.old }
    {
        let noted = String::from_str(self.alloc, name)?;
        let copy = bytes.to_vec(self.alloc)?;
        self.journal.reserve(1)?;
        write_in(&mut self.files, name, at, bytes)?;
        let _ = self.journal.push(Entry::Write {
            name: noted,
            at,
            bytes: copy,
        });
        Ok(())
    }

    /// Notes that the file is stable.
    pub fn sync_file(&mut self, name: &str) -> Result<(), AllocError>
        ensures ok { OnOk result (self.new ≡ with_entry self.old (Sync name.now)) }
        ensures err { OnErr result (self.new ≡ self.old) }
        ensures part { part_now self.new ≡ part_now self.old }
    {
        let noted = String::from_str(self.alloc, name)?;
        self.journal.push(Entry::Sync { name: noted })?;
        Ok(())
    }
}
