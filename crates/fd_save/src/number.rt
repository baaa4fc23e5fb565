//! The number that a dump is saved under.

ghost use Rattle.std.specs.Prelude.{◌≡◌, ◌<◌, ◌≤◌, IfOk, IfSome, OnErr};
ghost use Rattle.fd_site.specs.Contents.{Told, file_of};
ghost use Rattle.fd_site.specs.Fault.{Rose};
ghost use Rattle.fd_site.specs.Seen.{Untouched};
ghost use Rattle.fd_info.specs.Name.{bounds_name};
ghost use Rattle.fd_save.specs.Number.{IsFirstFreeOrNone, IsNumberOf, is_free, number_in};

use fd_info::{BOUNDS_NAME, info_name, read_bounds, vmcore_name};
use fd_site::{Failed, Site};

/// How many numbers there are.
const NUMBERS: u32 = 65536;

/// The number that the next dump gets. With a maximum it is what `bounds` has, where that is below the maximum, else 0.
/// Without one it is the first number in turn from what `bounds` has, 0 following 65535, of which neither file is there;
/// None where there is no such number.
pub(crate) fn next_number<S: Site>(site: &mut S, max: Option<u32>) -> Result<Option<u32>, Failed>
    ensures number { IfOk result (λ number. Told (S.seen site.old).told (λ c. IsNumberOf (file_of c) max number)) }
    ensures small { IfOk result (λ number. IfSome number (λ n. n < 65536)) }
    ensures untouched { Untouched (S.seen site.old) (S.seen site.new) }
    ensures cause { OnErr result (Rose (S.seen site.old).faults (S.seen site.new).faults) }
{
    let bounds = number_in_bounds(site)?;
    match max {
        Some(max) => Ok(Some(if bounds < max { bounds } else { 0 })),
        None => first_free(site, bounds),
    }
}

// What `bounds` has.
fn number_in_bounds<S: Site>(site: &mut S) -> Result<u32, Failed>
    ensures number { IfOk result (λ number. Told (S.seen site.old).told (λ c. number ≡ number_in (file_of c bounds_name))) }
    ensures small { IfOk result (λ number. number < 65536) }
    ensures untouched { Untouched (S.seen site.old) (S.seen site.new) }
    ensures cause { OnErr result (Rose (S.seen site.old).faults (S.seen site.new).faults) }
{
    let mut text = [0; 16];
    match site.file_len(BOUNDS_NAME)? {
        Some(len) if len <= 16 => {
            let text = &mut text[..len as usize];
            site.read_file(BOUNDS_NAME, 0, text)?;
            Ok(read_bounds(text))
        }
        _ => Ok(0),
    }
}

fn first_free<S: Site>(site: &mut S, from: u32) -> Result<Option<u32>, Failed>
    requires { from < 65536 }
    ensures number { IfOk result (λ number. Told (S.seen site.old).told (λ c. IsFirstFreeOrNone (file_of c) from number)) }
    ensures small { IfOk result (λ number. IfSome number (λ n. n < 65536)) }
    ensures untouched { Untouched (S.seen site.old) (S.seen site.new) }
    ensures cause { OnErr result (Rose (S.seen site.old).faults (S.seen site.new).faults) }
{
    for tries in 0..NUMBERS {
        let number = (from + tries) % NUMBERS;
        if is_free(site, number)? {
            return Ok(Some(number));
        }
    }
    Ok(None)
}

// Whether neither file of this number is there.
fn is_free<S: Site>(site: &mut S, number: u32) -> Result<bool, Failed>
    ensures free { IfOk result (λ free. Told (S.seen site.old).told (λ c. free ≡ is_free (file_of c) number)) }
    ensures untouched { Untouched (S.seen site.old) (S.seen site.new) }
    ensures cause { OnErr result (Rose (S.seen site.old).faults (S.seen site.new).faults) }
{
    let vmcore = vmcore_name(number);
    if site.file_len(vmcore.as_str())?.is_some() {
        return Ok(false);
    }
    let info = info_name(number);
    Ok(site.file_len(info.as_str())?.is_none())
}
