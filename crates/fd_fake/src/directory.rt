//! The files of a directory.

ghost use Rattle.std.specs.Prelude.{◌≡◌, ◌+◌, ◌≤◌, ℕ, List, length, Some, None, IfSome, IsSomeAnd, OnOk, OnErr, slice_range, if◌then◌else◌};
ghost use Rattle.std.specs.Option.{option_map};
ghost use Rattle.std.specs.Str.{bytes_eq};
ghost use Rattle.std.specs.String.{string_bytes};
ghost use Rattle.fd_site.specs.Journal.{file_written};
ghost use Rattle.fd_fake.specs.Directory.{content};

use crate::bytes::write_at;
use std::alloc::AllocError;
use std::collections::BTreeMap;

pub type Files = BTreeMap<String, Vec<u8>>;

/// Puts a file, in the place of one of this name. Only a new name can fail.
pub fn put_file(files: &mut Files, name: String, bytes: Vec<u8>) -> Result<(), AllocError>
    ensures ok { OnOk result ((q : List ℕ) → content files.new q ≡ (if bytes_eq q (string_bytes name) then Some bytes.items else content files.old q)) }
    ensures err { OnErr result ((q : List ℕ) → content files.new q ≡ content files.old q) }
    ensures fresh { OnErr result (content files.old (string_bytes name) ≡ None) }
{
    files.insert(name, bytes)?;
    Ok(())
}

/// Takes out the file of this name, where there is one.
pub fn remove_file(files: &mut Files, name: &str)
    ensures { (q : List ℕ) → content files.new q ≡ (if bytes_eq q name.now then None else content files.old q) }
{
    files.remove(name);
}

/// Writes the bytes to the file of this name, where there is one.
pub fn write_in(files: &mut Files, name: &str, at: u64, bytes: &[u8]) -> Result<(), AllocError>
    ensures ok { OnOk result ((q : List ℕ) → content files.new q ≡ (if bytes_eq q name.now then option_map (λ file. file_written file at bytes.now) (content files.old q) else content files.old q)) }
    ensures err { OnErr result ((q : List ℕ) → content files.new q ≡ content files.old q) }
{
    match files.get_mut(name) {
        Some(file) => {
            write_at(file, at, bytes)?;
            Ok(())
        }
        None => Ok(()),
    }
}

/// The length of the file of this name.
pub fn len_in(files: &Files, name: &str) -> Option<u64>
    ensures { result ≡ option_map (λ file. length file) (content files.now name.now) }
{
    files.get(name).map(|file| file.len() as u64)
}

/// Reads the bytes from `at` on of the file of this name.
pub fn read_in(files: &Files, name: &str, at: u64, out: &mut [u8])
    requires { IsSomeAnd (content files.now name.now) (λ file. at + length out.old ≤ length file) }
    ensures { IfSome (content files.now name.now) (λ file. out.new ≡ slice_range file at (at + length out.old)) }
{
    if let Some(file) = files.get(name) {
        let from = at as usize;
        out.copy_from_slice(&file[from..from + out.len()]);
    }
}
