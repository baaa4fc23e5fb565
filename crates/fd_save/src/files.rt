//! Whole files of a site.

ghost use Rattle.std.specs.Prelude.{◌≡◌, ◌+◌, ◌%◌, ◌≤◌, ◌<◌, ◌^◌, IsSome, IsTrue, OnErr, OnOk};
ghost use Rattle.fd_site.specs.Contents.{Adds, IsFailedFile, IsSectors, Told, file_of};
ghost use Rattle.fd_site.specs.Fault.{Rose};
ghost use Rattle.fd_site.specs.FileJournal.{IsBegunFile, IsFileJournal};
ghost use Rattle.fd_site.specs.Name.{is_good_name};
ghost use Rattle.fd_site.specs.Seen.{Frame};
ghost use Rattle.fd_save.specs.Outcome.{Copies, CopiesPiece};

use fd_site::{Failed, Site};

/// Makes a file of these bytes, and syncs it.
pub(crate) fn make_file<S: Site>(site: &mut S, name: &str, bytes: &[u8]) -> Result<(), Failed>
    requires { IsTrue (is_good_name name.now) }
    ensures ok { OnOk result (Adds (IsFileJournal name.now bytes.now) (S.seen site.old).told (S.seen site.new).told) }
    ensures err { OnErr result (Adds (IsBegunFile name.now bytes.now) (S.seen site.old).told (S.seen site.new).told) }
    ensures frame { Frame (S.seen site.old) (S.seen site.new) }
    ensures cause { OnErr result (Rose (S.seen site.old).faults (S.seen site.new).faults) }
{
    site.create(name)?;
    site.write_file(name, 0, bytes)?;
    site.sync_file(name)
}

/// Makes a file of the partition's bytes from `at` on, `len` of them, and syncs it. They are copied in pieces of 4096.
pub(crate) fn copy_part<S: Site>(site: &mut S, name: &str, at: u64, len: u64) -> Result<(), Failed>
    requires name { IsTrue (is_good_name name.now) }
    requires start { at % 512 ≡ 0 }
    requires sectors { len % 512 ≡ 0 }
    requires inside { at + len ≤ (S.seen site.old).size }
    requires size { (S.seen site.old).size < 2 ^ 64 }
    ensures ok { OnOk result (Copies (IsFileJournal name.now) at len (S.seen site.old).told (S.seen site.new).told) }
    ensures err { OnErr result (Copies (IsBegunFile name.now) at len (S.seen site.old).told (S.seen site.new).told) }
    ensures frame { Frame (S.seen site.old) (S.seen site.new) }
    ensures cause { OnErr result (Rose (S.seen site.old).faults (S.seen site.new).faults) }
{
    let mut done = 0;
    site.create(name)?;
    while done < len {
        let count = (len - done).min(4096);
        copy_piece(site, name, at + done, done, count)?;
        done += count;
    }
    site.sync_file(name)
}

// Copies `count` bytes of the partition from `from` on to the file's place `at`.
fn copy_piece<S: Site>(
    site: &mut S,
    name: &str,
    from: u64,
    at: u64,
    count: u64,
) -> Result<(), Failed>
    requires name { IsTrue (is_good_name name.now) }
    requires there { Told (S.seen site.old).told (λ c. IsSome (file_of c name.now)) }
    requires sectors { IsSectors from count (S.seen site.old).size }
    requires short { count ≤ 4096 }
    ensures ok { OnOk result (CopiesPiece name.now from at count (S.seen site.old).told (S.seen site.new).told) }
    ensures err { OnErr result (Adds (IsFailedFile name.now) (S.seen site.old).told (S.seen site.new).told) }
    ensures frame { Frame (S.seen site.old) (S.seen site.new) }
    ensures cause { OnErr result (Rose (S.seen site.old).faults (S.seen site.new).faults) }
{
    let mut buffer = [0; 4096];
    let piece = &mut buffer[..count as usize];
    site.read_part(from, piece)?;
    site.write_file(name, at, piece)
}
