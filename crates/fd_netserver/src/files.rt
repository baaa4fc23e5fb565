//! What a server does with the files of a session.

ghost use Rattle.std.specs.Prelude.{◌≡◌, [], ◌∷◌, IsSome, IsTrue, OnErr, OnOk};
ghost use Rattle.fd_info.specs.Info.{IsPlain};
ghost use Rattle.fd_info.specs.Name.{vmcore_name};
ghost use Rattle.fd_netserver.specs.Files.{end_of, finish_of};
ghost use Rattle.fd_site.specs.Begun.{IsBegun};
ghost use Rattle.fd_site.specs.Contents.{Adds, Told, file_of, with_entries};
ghost use Rattle.fd_site.specs.Fault.{Rose};
ghost use Rattle.fd_site.specs.Journal.{Create, Write};
ghost use Rattle.fd_site.specs.Name.{is_good_name};
ghost use Rattle.fd_site.specs.Seen.{Frame};

use fd_info::{info_name, print_info, vmcore_name};
use fd_kdh::Header;
use fd_site::{Failed, Site};

/// The device that `info.N` says a dump was found on.
const DEVICE: &[u8] = b"netdump";

/// Makes `vmcore.N` empty.
pub(crate) fn make_vmcore<S: Site>(site: &mut S, number: u32) -> Result<(), Failed>
    ensures ok { OnOk result ((S.seen site.new).told ≡ with_entries (S.seen site.old).told (Create (vmcore_name number) ∷ [])) }
    ensures err { OnErr result (Adds (IsBegun (Create (vmcore_name number) ∷ [])) (S.seen site.old).told (S.seen site.new).told) }
    ensures frame { Frame (S.seen site.old) (S.seen site.new) }
    ensures cause { OnErr result (Rose (S.seen site.old).faults (S.seen site.new).faults) }
{
    let name = vmcore_name(number);
    site.create(name.as_str())
}

/// Writes bytes to `vmcore.N` from `at` on.
pub(crate) fn write_vmcore<S: Site>(
    site: &mut S,
    number: u32,
    at: u64,
    bytes: &[u8],
) -> Result<(), Failed>
    requires there { Told (S.seen site.old).told (λ c. IsSome (file_of c (vmcore_name number))) }
    ensures ok { OnOk result ((S.seen site.new).told ≡ with_entries (S.seen site.old).told (Write (vmcore_name number) at bytes.now ∷ [])) }
    ensures err { OnErr result (Adds (IsBegun (Write (vmcore_name number) at bytes.now ∷ [])) (S.seen site.old).told (S.seen site.new).told) }
    ensures frame { Frame (S.seen site.old) (S.seen site.new) }
    ensures cause { OnErr result (Rose (S.seen site.old).faults (S.seen site.new).faults) }
{
    let name = vmcore_name(number);
    site.write_file(name.as_str(), at, bytes)
}

// The file of the dump is synced, and that of its text is made, written and synced.
fn finish_files<S: Site>(site: &mut S, vmcore: &str, info: &str, text: &[u8]) -> Result<(), Failed>
    requires vmcore { IsTrue (is_good_name vmcore.now) }
    requires info { IsTrue (is_good_name info.now) }
    requires there { Told (S.seen site.old).told (λ c. IsSome (file_of c vmcore.now)) }
    ensures ok { OnOk result ((S.seen site.new).told ≡ with_entries (S.seen site.old).told (finish_of vmcore.now info.now text.now)) }
    ensures err { OnErr result (Adds (IsBegun (finish_of vmcore.now info.now text.now)) (S.seen site.old).told (S.seen site.new).told) }
    ensures frame { Frame (S.seen site.old) (S.seen site.new) }
    ensures cause { OnErr result (Rose (S.seen site.old).faults (S.seen site.new).faults) }
{
    site.sync_file(vmcore)?;
    site.create(info)?;
    site.write_file(info, 0, text)?;
    site.sync_file(info)?;
    Ok(())
}

/// Ends the files of a session: `vmcore.N` is synced, and `info.N` is made, written and synced.
pub(crate) fn end_files<S: Site>(
    site: &mut S,
    number: u32,
    header: &Header,
    parity: u32,
) -> Result<(), Failed>
    requires plain { IsPlain header.now }
    requires there { Told (S.seen site.old).told (λ c. IsSome (file_of c (vmcore_name number))) }
    ensures ok { OnOk result ((S.seen site.new).told ≡ with_entries (S.seen site.old).told (end_of number header.now parity)) }
    ensures err { OnErr result (Adds (IsBegun (end_of number header.now parity)) (S.seen site.old).told (S.seen site.new).told) }
    ensures frame { Frame (S.seen site.old) (S.seen site.new) }
    ensures cause { OnErr result (Rose (S.seen site.old).faults (S.seen site.new).faults) }
{
    let vmcore = vmcore_name(number);
    let info = info_name(number);
    let text = print_info(header, DEVICE, parity, number);
    finish_files(site, vmcore.as_str(), info.as_str(), text.as_slice())
}
