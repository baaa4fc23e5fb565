//! Printing a read of kernel memory.

ghost use Rattle.std.specs.Prelude.{◌≡◌, ◌≤◌, IfOk, IsErrOf};
ghost use Rattle.fd_site.specs.Contents.{Told};
ghost use Rattle.fd_site.specs.Fault.{Rose};
ghost use Rattle.fd_site.specs.Seen.{Untouched};
ghost use Rattle.fd_kvm.specs.Reader.{StandsFor};
ghost use Rattle.fd_way.specs.Print.{IsReadText, PrintsRead, fault_text};
ghost use Rattle.fd_way.specs.declared.print_fault.PrintFault.TheVariants.{SinkFault, SiteFault};

use crate::print_fault::PrintFault;
use crate::text::read_text;
use fd_kvm::{Kvm, ReadFault};
use fd_mini::AddressFault;
use fd_site::{Failed, Sink, Site};
use std::alloc::{AllocError, Global};

/// The refusal line of an address that has no byte.
fn fault_text(alloc: Global, fault: AddressFault) -> Result<Vec<u8>, AllocError>
    ensures { IfOk result (λ text. text.items ≡ fault_text fault) }
{
    let number = fault.number();
    let line = format!(in alloc; "refused {number}: {fault}\n")?;
    Ok(line.into_bytes())
}

// What a read prints, and its fault.
#[derive(Drop)]
struct Lines {
    text: Vec<u8>,
    fault: Option<AddressFault>,
}

// Reads the bytes at `length` kernel addresses from `va` on, by one read of the reader, as what is printed of them.
fn read_lines<S: Site>(
    alloc: Global,
    kvm: &mut Kvm,
    site: &mut S,
    va: u64,
    length: u32,
) -> Result<Lines, PrintFault>
    requires { Told (S.seen site.old).told (StandsFor kvm.old) }
    ensures text { IfOk result (λ lines. IsReadText (S.seen site.old).told kvm.old.name va length lines.fault lines.text.items) }
    ensures stands { Told (S.seen site.new).told (StandsFor kvm.new) }
    ensures name { kvm.new.name ≡ kvm.old.name }
    ensures sections { kvm.new.sections ≡ kvm.old.sections }
    ensures untouched { Untouched (S.seen site.old) (S.seen site.new) }
    ensures cause { IsErrOf result SiteFault → Rose (S.seen site.old).faults (S.seen site.new).faults }
    ensures no_sink { IsErrOf result SinkFault → ⊥ }
{
    let mut bytes = vec![in alloc; 0u8; length as usize]?;
    match kvm.read(site, va, bytes.as_mut_slice()) {
        Ok(()) => {
            let text = read_text(alloc, va, bytes.as_slice())?;
            Ok(Lines { text, fault: None })
        }
        Err(ReadFault::Address(fault)) => {
            let text = fault_text(alloc, fault)?;
            Ok(Lines {
                text,
                fault: Some(fault),
            })
        }
        Err(ReadFault::SiteFault) => Err(PrintFault::SiteFault),
    }
}

/// Reads the bytes at `length` kernel addresses from `va` on, by one read of the reader, and prints their text; or, where
/// an address has no byte, the refusal line of the first such address, which is answered then. Nothing is printed where
/// the site fails or no memory is found; where the sink fails, some of the first bytes of the text. After any answer the
/// reader stands for the same file.
pub fn print_read<S: Site, O: Sink>(
    alloc: Global,
    kvm: &mut Kvm,
    site: &mut S,
    va: u64,
    length: u32,
    out: &mut O,
) -> Result<Option<AddressFault>, PrintFault>
    requires { Told (S.seen site.old).told (StandsFor kvm.old) }
    ensures prints { PrintsRead (S.seen site.old).told kvm.old.name va length (O.seen out.old) (O.seen out.new) result }
    ensures stands { Told (S.seen site.new).told (StandsFor kvm.new) }
    ensures name { kvm.new.name ≡ kvm.old.name }
    ensures sections { kvm.new.sections ≡ kvm.old.sections }
    ensures untouched { Untouched (S.seen site.old) (S.seen site.new) }
    ensures count { (O.seen out.old).faults ≤ (O.seen out.new).faults }
    ensures cause { IsErrOf result SiteFault → Rose (S.seen site.old).faults (S.seen site.new).faults }
    ensures sink_cause { IsErrOf result SinkFault → Rose (O.seen out.old).faults (O.seen out.new).faults }
{
    let lines = read_lines(alloc, kvm, site, va, length)?;
    match out.put(lines.text.as_slice()) {
        Ok(()) => Ok(lines.fault),
        Err(Failed) => Err(PrintFault::SinkFault),
    }
}
