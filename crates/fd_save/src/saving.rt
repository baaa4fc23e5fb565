//! Saving a dump to files.

ghost use Rattle.std.specs.Prelude.{◌≡◌, ◌<◌, IsErrOf, IsTrue, IfOk, OnErr, OnOk, None};
ghost use Rattle.fd_site.specs.Fault.{Rose};
ghost use Rattle.fd_site.specs.Seen.{Frame};
ghost use Rattle.fd_part.specs.Partition.{is_good};
ghost use Rattle.fd_judge.specs.Verdict.{IsPlaced};
ghost use Rattle.fd_judge.specs.declared.verdict.Verdict.TheVariants.{Dump};
ghost use Rattle.fd_save.specs.Outcome.{Copies, HasNoNumber, MayHaveBegun, OnNo, OnRefused, Refuses, Saves};
ghost use Rattle.fd_save.specs.Saving.{IsBegunSave, IsSaveJournal, parity_of};
ghost use Rattle.fd_save.specs.declared.fault.SaveFault.TheVariants.{NoNumber, SiteFault};

use crate::fault::SaveFault;
use crate::files::{copy_part, make_file};
use crate::number::next_number;
use crate::saved::{Options, Saved};
use fd_bytes::get_u32_be;
use fd_info::{BOUNDS_NAME, info_name, print_bounds, print_info, vmcore_name};
use fd_judge::{Verdict, judge};
use fd_site::{Failed, Site};

/// The device that dumps are saved from.
const DEVICE: &[u8] = b"dumpdev";

/// Where the parity word stands in a header (`parity` of `struct kerneldumpheader`).
const PARITY: usize = 508;

/// Saves the partition's dump, as savecore(8) does: judges it, takes the next number N, and makes `vmcore.N` of the dump's
/// bytes, `info.N` of what its header says, and `bounds` of N + 1, in this order, each synced before the next. Nothing is
/// written to the partition. Where judging refuses, or no number is free, nothing is written at all.
pub fn save<S: Site>(site: &mut S, options: Options) -> Result<Saved, SaveFault>
    requires { IsTrue (is_good (S.seen site.old).size (S.seen site.old).block) }
    ensures saved { IfOk result (Saves options (S.seen site.old) (S.seen site.new).told) }
    ensures small { IfOk result (λ saved. saved.number < 65536) }
    ensures refused { OnRefused result (Refuses options.force (S.seen site.old)) }
    ensures no_number { IsErrOf result NoNumber → HasNoNumber options (S.seen site.old) }
    ensures unchanged { OnNo result ((S.seen site.new).told ≡ (S.seen site.old).told) }
    ensures fault { IsErrOf result SiteFault → MayHaveBegun options (S.seen site.old) (S.seen site.new).told }
    ensures frame { Frame (S.seen site.old) (S.seen site.new) }
    ensures cause { IsErrOf result SiteFault → Rose (S.seen site.old).faults (S.seen site.new).faults }
{
    let (header, at, sector) = match judge(site, options.force)? {
        Verdict::Dump { header, at, sector } => (header, at, sector),
        Verdict::Refused(why) => return Err(SaveFault::Refused(why)),
    };
    let number = match next_number(site, options.max)? {
        Some(number) => number,
        None => return Err(SaveFault::NoNumber),
    };
    let saved = Saved {
        number,
        at,
        header,
        sector,
    };
    save_files(site, &saved)?;
    Ok(saved)
}

// Makes the three files.
fn save_files<S: Site>(site: &mut S, saved: &Saved) -> Result<(), Failed>
    requires good { IsTrue (is_good (S.seen site.old).size (S.seen site.old).block) }
    requires small { saved.now.number < 65536 }
    requires placed { IsPlaced (S.seen site.old).size (S.seen site.old).block (Dump saved.now.header saved.now.at saved.now.sector) }
    ensures ok { OnOk result
        (Copies (λ body. IsSaveJournal body saved.now.header (parity_of saved.now.sector) saved.now.number) saved.now.at
        saved.now.header.dumplength (S.seen site.old).told (S.seen site.new).told) }
    ensures err { OnErr result
        (Copies (λ body. IsBegunSave body saved.now.header (parity_of saved.now.sector) saved.now.number) saved.now.at
        saved.now.header.dumplength (S.seen site.old).told (S.seen site.new).told) }
    ensures frame { Frame (S.seen site.old) (S.seen site.new) }
    ensures cause { OnErr result (Rose (S.seen site.old).faults (S.seen site.new).faults) }
{
    // Its size fits 64 bits, so no place in the partition wraps.
    let _size = site.size();
    let vmcore = vmcore_name(saved.number);
    copy_part(site, vmcore.as_str(), saved.at, saved.header.dumplength)?;
    let info = info_name(saved.number);
    let parity = get_u32_be(&saved.sector, PARITY);
    let text = print_info(&saved.header, DEVICE, parity, saved.number);
    make_file(site, info.as_str(), text.as_slice())?;
    let next = print_bounds(saved.number + 1);
    make_file(site, BOUNDS_NAME, next.as_slice())
}
