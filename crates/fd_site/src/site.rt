//! One partition and one directory of files, as the program sees them.

ghost use Rattle.std.specs.Prelude.{◌≡◌, ℕ, ◌+◌, ◌≤◌, [], ◌∷◌, List, length, Option, Some, slice_range, IfOk, IfSome, IsSome, IsSomeAnd, IsTrue, OnOk, OnErr};
ghost use Rattle.std.specs.Option.{option_map};
ghost use Rattle.fd_site.specs.Contents.{Contents, Told, Adds, IsFailedFile, IsFailedPart, IsSectors, file_of, part_of, whole_part, with_entries};
ghost use Rattle.fd_site.specs.Fault.{Rose};
ghost use Rattle.fd_site.specs.Journal.{Create, Sync, Write};
ghost use Rattle.fd_site.specs.Name.{is_good_name};
ghost use Rattle.fd_site.specs.Seen.{Frame, Seen, Untouched};

use crate::fault::Failed;

/// One partition, and one directory of files.
pub trait Site {
    /// What contracts see of the site: what it holds, where it tells that, its sizes, and how often a call has failed.
    ghost seen: { Self → Seen };

    /// The partition's size in bytes. It never changes.
    fn size(&self) -> u64
        ensures { result ≡ (seen self.now).size };

    /// The size of a block in bytes. It never changes.
    fn block(&self) -> u32
        ensures { result ≡ (seen self.now).block };

    /// Reads the partition's bytes from `at` on, as many as `out` has. After an error `out` holds any bytes.
    fn read_part(&mut self, at: u64, out: &mut [u8]) -> Result<(), Failed>
        requires { IsSectors at (length out.old) (seen self.old).size }
        ensures bytes { OnOk result (Told (seen self.old).told (λ c. out.new ≡ slice_range (part_of c) at (at + length out.old))) }
        ensures untouched { Untouched (seen self.old) (seen self.new) }
        ensures cause { OnErr result (Rose (seen self.old).faults (seen self.new).faults) };

    /// Writes the bytes to the partition from `at` on. After an error nothing was added to the journal, or a write of
    /// some of the first sectors, of which any were kept.
    fn write_part(&mut self, at: u64, bytes: &[u8]) -> Result<(), Failed>
        requires { IsSectors at (length bytes.now) (seen self.old).size }
        ensures ok { OnOk result ((seen self.new).told ≡ with_entries (seen self.old).told (whole_part at bytes.now ∷ [])) }
        ensures err { OnErr result (Adds (IsFailedPart at bytes.now) (seen self.old).told (seen self.new).told) }
        ensures frame { Frame (seen self.old) (seen self.new) }
        ensures cause { OnErr result (Rose (seen self.old).faults (seen self.new).faults) };

    /// The length of a file in bytes, or None where there is no file of this name.
    fn file_len(&mut self, name: &str) -> Result<Option<u64>, Failed>
        requires { IsTrue (is_good_name name.now) }
        ensures len { IfOk result (λ len. Told (seen self.old).told (λ c. len ≡ option_map (λ file. length file) (file_of c name.now))) }
        ensures untouched { Untouched (seen self.old) (seen self.new) }
        ensures cause { OnErr result (Rose (seen self.old).faults (seen self.new).faults) };

    /// Reads a file's bytes from `at` on, as many as `out` has. After an error `out` holds any bytes.
    fn read_file(&mut self, name: &str, at: u64, out: &mut [u8]) -> Result<(), Failed>
        requires name { IsTrue (is_good_name name.now) }
        requires inside { Told (seen self.old).told (λ c. IsSomeAnd (file_of c name.now) (λ file. at + length out.old ≤ length file)) }
        ensures bytes { OnOk result (Told (seen self.old).told (λ c. IfSome (file_of c name.now) (λ file. out.new ≡ slice_range file at (at + length out.old)))) }
        ensures untouched { Untouched (seen self.old) (seen self.new) }
        ensures cause { OnErr result (Rose (seen self.old).faults (seen self.new).faults) };

    /// Makes the file empty, whether it was there or not. After an error of this call and of the next two the file is
    /// as it was, or the journal says what it then is.
    fn create(&mut self, name: &str) -> Result<(), Failed>
        requires { IsTrue (is_good_name name.now) }
        ensures ok { OnOk result ((seen self.new).told ≡ with_entries (seen self.old).told (Create name.now ∷ [])) }
        ensures err { OnErr result (Adds (IsFailedFile name.now) (seen self.old).told (seen self.new).told) }
        ensures frame { Frame (seen self.old) (seen self.new) }
        ensures cause { OnErr result (Rose (seen self.old).faults (seen self.new).faults) };

    /// Writes the bytes to the file from `at` on, and fills a gap before them with zeros.
    fn write_file(&mut self, name: &str, at: u64, bytes: &[u8]) -> Result<(), Failed>
        requires name { IsTrue (is_good_name name.now) }
        requires there { Told (seen self.old).told (λ c. IsSome (file_of c name.now)) }
        ensures ok { OnOk result ((seen self.new).told ≡ with_entries (seen self.old).told (Write name.now at bytes.now ∷ [])) }
        ensures err { OnErr result (Adds (IsFailedFile name.now) (seen self.old).told (seen self.new).told) }
        ensures frame { Frame (seen self.old) (seen self.new) }
        ensures cause { OnErr result (Rose (seen self.old).faults (seen self.new).faults) };

    /// Lets a machine that stops from now on leave the file as it is.
    fn sync_file(&mut self, name: &str) -> Result<(), Failed>
        requires name { IsTrue (is_good_name name.now) }
        requires there { Told (seen self.old).told (λ c. IsSome (file_of c name.now)) }
        ensures ok { OnOk result ((seen self.new).told ≡ with_entries (seen self.old).told (Sync name.now ∷ [])) }
        ensures err { OnErr result (Adds (IsFailedFile name.now) (seen self.old).told (seen self.new).told) }
        ensures frame { Frame (seen self.old) (seen self.new) }
        ensures cause { OnErr result (Rose (seen self.old).faults (seen self.new).faults) };

    /// What is told of the partition has its size.
    ghost told_size: { (site : Self) (c : Contents) → (seen site).told ≡ Some c → length (part_of c) ≡ (seen site).size };
}
