//! A site in memory.

ghost use Rattle.std.specs.Prelude.{◌≡◌, ◌⊎◌, ◌+◌, ◌≤◌, ◌↔◌, ◌++◌, [], ◌∷◌, ℕ, List, length, take, drop, true, Some, IfOk, IfSome};
ghost use Rattle.std.specs.Prelude.{IsSomeAnd, IsSome, OnOk, OnErr, IsErr, IsTrue, replicate, slice_range, if◌then◌else◌};
ghost use Rattle.std.specs.Option.{option_map};
ghost use Rattle.std.specs.Str.{bytes_eq};
ghost use Rattle.fd_site.specs.Contents.{IsSectors, Told, file_of, whole_part};
ghost use Rattle.fd_site.specs.Fault.{Rose};
ghost use Rattle.fd_site.specs.Journal.{Create, Sync, Write};
ghost use Rattle.fd_site.specs.Name.{is_good_name};
ghost use Rattle.fd_site.specs.Seen.{Frame, Untouched};
ghost use Rattle.fd_fake.specs.Calls.{IsDue, IsFailedCall, after_call, after_fault, no_calls};
ghost use Rattle.fd_fake.specs.Directory.{file_in};
ghost use Rattle.fd_fake.specs.Disk.{contents_of, file_now, part_now, size_of_told, with_entry};
ghost use Rattle.fd_fake.specs.MemSite.{seen_of};

use crate::calls::Calls;
use crate::disk::Disk;
use fd_site::{Failed, Site};
use std::alloc::{AllocError, Global};
use std::marker::Model;

/// A site in memory: one partition and one directory of files. It tells all that it holds.
#[derive(Drop)]
pub struct MemSite {
    disk: Disk,
    block: u32,
    calls: Calls,
}

impl Model for MemSite {
    ghost use Rattle.fd_fake.specs.MemSite.{SiteInMemory};

    ghost Value = { SiteInMemory };

    ghost view = { λ m. record { disk = m.disk; block = m.block; calls = m.calls } };
}

impl MemSite {
    /// A partition of `size` zero bytes with blocks of `block` bytes, and no files. The calls that can answer
    /// `Failed` are numbered from 1; those whose number is in `fails` do, and leave everything as it was.
    pub fn new(alloc: Global, size: u64, block: u32, fails: Vec<u64>) -> Result<MemSite, AllocError>
        ensures disk { IfOk result (λ m. m.disk ≡ record { base_part = replicate size 0; base_files = []; journal = [] }) }
        ensures block { IfOk result (λ m. m.block ≡ block) }
        ensures calls { IfOk result (λ m. m.calls ≡ no_calls fails.items) }
    {
        Ok(MemSite {
            disk: Disk::new(alloc, size)?,
            block,
            calls: Calls::new(fails),
        })
    }

    /// Makes the next call answer `Failed`.
    pub fn fail_next(&mut self)
        ensures { self.new ≡ record self.old { calls = record self.old.calls { next = true } } }
    {
        self.calls.fail_next();
    }

    /// How many calls that can answer `Failed` were made, failed ones too.
    pub fn calls(&self) -> u64
        ensures { result ≡ self.now.calls.made }
    {
        self.calls.made()
    }

    /// How many calls have failed for want of memory.
    pub fn starved(&self) -> u64
        ensures { result ≡ self.now.calls.starved }
    {
        self.calls.starved()
    }

    /// Puts the bytes into the partition at `at`, as if they had been there when it was made.
    pub fn preset_part(&mut self, at: u64, bytes: &[u8])
        requires fresh { self.old.disk.journal ≡ [] }
        requires inside { at + length bytes.now ≤ length self.old.disk.base_part }
        ensures part { self.new
            ≡ record self.old {
              disk =
                  record self.old.disk {
                    base_part = take at self.old.disk.base_part ++
                        (bytes.now ++ drop (length bytes.now) (drop at self.old.disk.base_part));
                  };
            } }
        ensures size { length self.new.disk.base_part ≡ length self.old.disk.base_part }
        ensures journal { self.new.disk.journal ≡ [] }
    {
        self.disk.preset_part(at, bytes);
    }

    /// Puts the file into the directory, as if it had been there when it was made.
    pub fn preset_file(&mut self, name: &str, bytes: Vec<u8>) -> Result<(), AllocError>
        requires fresh { self.old.disk.journal ≡ [] }
        requires name { IsTrue (is_good_name name.now) }
        ensures ok { OnOk result ((q : List ℕ) → file_in self.new.disk.base_files q ≡ (if bytes_eq q name.now then Some bytes.items else file_in self.old.disk.base_files q)) }
        ensures err { OnErr result ((q : List ℕ) → file_in self.new.disk.base_files q ≡ file_in self.old.disk.base_files q) }
        ensures part { self.new.disk.base_part ≡ self.old.disk.base_part }
        ensures journal { self.new.disk.journal ≡ [] }
        ensures block { self.new.block ≡ self.old.block }
        ensures calls { self.new.calls ≡ self.old.calls }
    {
        self.disk.preset_file(name, bytes)
    }
}

impl Site for MemSite {
    ghost seen = { λ m. seen_of m };

    fn size(&self) -> u64 {
        self.disk.size()
    }

    fn block(&self) -> u32 {
        self.block
    }

    fn read_part(&mut self, at: u64, out: &mut [u8]) -> Result<(), Failed>
        requires { IsSectors at (length out.old) (length (part_now self.old.disk)) }
        ensures bytes { OnOk result (out.new ≡ slice_range (part_now self.old.disk) at (at + length out.old)) }
        ensures disk { self.new.disk ≡ self.old.disk }
        ensures untouched { Untouched (seen_of self.old) (seen_of self.new) }
        ensures due { IsErr result ↔ IsDue self.old.calls }
        ensures ok_calls { OnOk result (self.new.calls ≡ after_call self.old.calls) }
        ensures err_calls { OnErr result (self.new.calls ≡ after_fault self.old.calls) }
        ensures cause { OnErr result (Rose self.old.calls.faults self.new.calls.faults) }
    {
        self.calls.begin()?;
        self.disk.read_part(at, out);
        Ok(())
    }

    fn write_part(&mut self, at: u64, bytes: &[u8]) -> Result<(), Failed>
        requires { IsSectors at (length bytes.now) (length (part_now self.old.disk)) }
        ensures ok { OnOk result (self.new.disk ≡ with_entry self.old.disk (whole_part at bytes.now)) }
        ensures err { OnErr result (self.new.disk ≡ self.old.disk) }
        ensures frame { Frame (seen_of self.old) (seen_of self.new) }
        ensures due { IsDue self.old.calls → IsErr result }
        ensures ok_calls { OnOk result (self.new.calls ≡ after_call self.old.calls) }
        ensures err_calls { OnErr result (IsFailedCall self.old.calls self.new.calls) }
        ensures cause { OnErr result (Rose self.old.calls.faults self.new.calls.faults) }
    {
        self.calls.begin()?;
        let found = self.disk.write_part(at, bytes).is_ok();
        self.calls.end(found)
    }

    fn file_len(&mut self, name: &str) -> Result<Option<u64>, Failed>
        requires { IsTrue (is_good_name name.now) }
        ensures len { IfOk result (λ len. len ≡ option_map (λ file. length file) (file_now self.old.disk name.now)) }
        ensures disk { self.new.disk ≡ self.old.disk }
        ensures untouched { Untouched (seen_of self.old) (seen_of self.new) }
        ensures due { IsErr result ↔ IsDue self.old.calls }
        ensures ok_calls { OnOk result (self.new.calls ≡ after_call self.old.calls) }
        ensures err_calls { OnErr result (self.new.calls ≡ after_fault self.old.calls) }
        ensures cause { OnErr result (Rose self.old.calls.faults self.new.calls.faults) }
    {
        self.calls.begin()?;
        Ok(self.disk.file_len(name))
    }

    fn read_file(&mut self, name: &str, at: u64, out: &mut [u8]) -> Result<(), Failed>
        requires name { IsTrue (is_good_name name.now) }
        requires inside { Told (Some (contents_of self.old.disk)) (λ c. IsSomeAnd (file_of c name.now) (λ file. at + length out.old ≤ length file)) }
        ensures bytes { OnOk result (IfSome (file_now self.old.disk name.now) (λ file. out.new ≡ slice_range file at (at + length out.old))) }
        ensures disk { self.new.disk ≡ self.old.disk }
        ensures untouched { Untouched (seen_of self.old) (seen_of self.new) }
        ensures due { IsErr result ↔ IsDue self.old.calls }
        ensures ok_calls { OnOk result (self.new.calls ≡ after_call self.old.calls) }
        ensures err_calls { OnErr result (self.new.calls ≡ after_fault self.old.calls) }
        ensures cause { OnErr result (Rose self.old.calls.faults self.new.calls.faults) }
    {
        self.calls.begin()?;
        self.disk.read_file(name, at, out);
        Ok(())
    }

    fn create(&mut self, name: &str) -> Result<(), Failed>
        requires { IsTrue (is_good_name name.now) }
        ensures ok { OnOk result (self.new.disk ≡ with_entry self.old.disk (Create name.now)) }
        ensures err { OnErr result (self.new.disk ≡ self.old.disk) }
        ensures frame { Frame (seen_of self.old) (seen_of self.new) }
        ensures due { IsDue self.old.calls → IsErr result }
        ensures ok_calls { OnOk result (self.new.calls ≡ after_call self.old.calls) }
        ensures err_calls { OnErr result (IsFailedCall self.old.calls self.new.calls) }
        ensures cause { OnErr result (Rose self.old.calls.faults self.new.calls.faults) }
    {
        self.calls.begin()?;
        let found = self.disk.create(name).is_ok();
        self.calls.end(found)
    }

    fn write_file(&mut self, name: &str, at: u64, bytes: &[u8]) -> Result<(), Failed>
        requires name { IsTrue (is_good_name name.now) }
        requires there { Told (Some (contents_of self.old.disk)) (λ c. IsSome (file_of c name.now)) }
        ensures ok { OnOk result (self.new.disk ≡ with_entry self.old.disk (Write name.now at bytes.now)) }
        ensures err { OnErr result (self.new.disk ≡ self.old.disk) }
        ensures frame { Frame (seen_of self.old) (seen_of self.new) }
        ensures due { IsDue self.old.calls → IsErr result }
        ensures ok_calls { OnOk result (self.new.calls ≡ after_call self.old.calls) }
        ensures err_calls { OnErr result (IsFailedCall self.old.calls self.new.calls) }
        ensures cause { OnErr result (Rose self.old.calls.faults self.new.calls.faults) }
    {
        self.calls.begin()?;
        let found = self.disk.write_file(name, at, bytes).is_ok();
        self.calls.end(found)
    }

    fn sync_file(&mut self, name: &str) -> Result<(), Failed>
        requires name { IsTrue (is_good_name name.now) }
        requires there { Told (Some (contents_of self.old.disk)) (λ c. IsSome (file_of c name.now)) }
        ensures ok { OnOk result (self.new.disk ≡ with_entry self.old.disk (Sync name.now)) }
        ensures err { OnErr result (self.new.disk ≡ self.old.disk) }
        ensures frame { Frame (seen_of self.old) (seen_of self.new) }
        ensures due { IsDue self.old.calls → IsErr result }
        ensures ok_calls { OnOk result (self.new.calls ≡ after_call self.old.calls) }
        ensures err_calls { OnErr result (IsFailedCall self.old.calls self.new.calls) }
        ensures cause { OnErr result (Rose self.old.calls.faults self.new.calls.faults) }
    {
        self.calls.begin()?;
        let found = self.disk.sync_file(name).is_ok();
        self.calls.end(found)
    }

    ghost told_size = { λ m c is. size_of_told m.disk c is };
}
