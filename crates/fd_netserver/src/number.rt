//! The number of a new session's files.

ghost use Rattle.std.specs.Prelude.{◌≡◌, ◌<◌, ℕ, IfOk, IfSome, OnErr};
ghost use Rattle.fd_netserver.specs.Files.{free_number, is_free};
ghost use Rattle.fd_netserver.specs.Stands.{IsBegunRow, made_of};
ghost use Rattle.fd_netserver.specs.Table.{numbered};
ghost use Rattle.fd_site.specs.Contents.{Adds, Told, file_of, with_entries};
ghost use Rattle.fd_site.specs.Fault.{Rose};
ghost use Rattle.fd_site.specs.Seen.{Frame, Untouched};

use crate::files::make_vmcore;
use fd_info::{info_name, vmcore_name};
use fd_site::{Failed, Site};

// Whether the number has neither file.
fn is_free<S: Site>(site: &mut S, number: u32) -> Result<bool, Failed>
    ensures free { IfOk result (λ free. Told (S.seen site.old).told (λ c. free ≡ is_free (file_of c) number)) }
    ensures untouched { Untouched (S.seen site.old) (S.seen site.new) }
    ensures cause { OnErr result (Rose (S.seen site.old).faults (S.seen site.new).faults) }
{
    let vmcore = vmcore_name(number);
    let info = info_name(number);
    if site.file_len(vmcore.as_str())?.is_some() {
        return Ok(false);
    }
    Ok(site.file_len(info.as_str())?.is_none())
}

// The least number from 0 to 65535 that has neither file.
fn free_number<S: Site>(site: &mut S) -> Result<Option<u32>, Failed>
    ensures number { IfOk result (λ number. Told (S.seen site.old).told (λ c. number ≡ free_number (file_of c))) }
    ensures small { IfOk result (λ number. IfSome number (λ n. n < 65536)) }
    ensures untouched { Untouched (S.seen site.old) (S.seen site.new) }
    ensures cause { OnErr result (Rose (S.seen site.old).faults (S.seen site.new).faults) }
{
    for number in 0..65536u32 {
        if is_free(site, number)? {
            return Ok(Some(number));
        }
    }
    Ok(None)
}

/// Makes `vmcore.N` of the least free number N, and answers it.
pub(crate) fn make_next<S: Site>(site: &mut S) -> Result<Option<u32>, Failed>
    ensures number { IfOk result (λ number. Told (S.seen site.old).told (λ c. number ≡ free_number (file_of c))) }
    ensures ok { IfOk result (λ number. (S.seen site.new).told ≡ with_entries (S.seen site.old).told (made_of number)) }
    ensures err { OnErr result
        (Adds (λ es. Told (S.seen site.old).told
        (λ c. (slot seqno : ℕ) → IsBegunRow (numbered (free_number (file_of c)) slot seqno) es)) (S.seen site.old).told
        (S.seen site.new).told) }
    ensures frame { Frame (S.seen site.old) (S.seen site.new) }
    ensures cause { OnErr result (Rose (S.seen site.old).faults (S.seen site.new).faults) }
{
    match free_number(site)? {
        Some(number) => {
            make_vmcore(site, number)?;
            Ok(Some(number))
        }
        None => Ok(None),
    }
}
