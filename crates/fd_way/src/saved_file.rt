//! What is printed of a dump that was saved, or refused.

ghost use Rattle.std.specs.Prelude.{◌≡◌, ◌≤◌, IfOk, IsErrOf};
ghost use Rattle.fd_site.specs.Fault.{Rose};
ghost use Rattle.fd_site.specs.Seen.{Untouched};
ghost use Rattle.fd_way.specs.Drill.{refusal_text, saved_text};
ghost use Rattle.fd_way.specs.Steps.{PrintsRefusal, ReadsFile, ReadsSaved};
ghost use Rattle.fd_way.specs.declared.way_fault.WayFault.TheVariants.{SinkFault, SiteFault};

use crate::print::print_read;
use crate::print_fault::PrintFault;
use crate::way_fault::WayFault;
use arrayvec::ArrayString;
use fd_info::vmcore_name;
use fd_judge::Why;
use fd_kvm::Kvm;
use fd_mini::AddressFault;
use fd_save::Saved;
use fd_site::{Failed, Sink, Site};
use fd_vmcore::OpenFault;
use itoa::Buffer;
use std::alloc::{AllocError, Global};

/// How many pages of the saved file are kept.
const PAGES: usize = 64;

// The refusal line of a partition that holds no dump that can be saved.
fn refusal_text(alloc: Global, why: Why) -> Result<Vec<u8>, AllocError>
    ensures { IfOk result (λ text. text.items ≡ refusal_text why) }
{
    let number = why.number();
    let line = format!(in alloc; "refused {number}: {why}\n")?;
    Ok(line.into_bytes())
}

/// Prints the refusal of a partition that holds no dump that can be saved.
pub(crate) fn refuse<O: Sink>(alloc: Global, why: Why, out: &mut O) -> Result<(), WayFault>
    ensures prints { PrintsRefusal why (O.seen out.old) (O.seen out.new) result }
    ensures count { (O.seen out.old).faults ≤ (O.seen out.new).faults }
    ensures sink_cause { IsErrOf result SinkFault → Rose (O.seen out.old).faults (O.seen out.new).faults }
{
    let text = refusal_text(alloc, why)?;
    match out.put(text.as_slice()) {
        Ok(()) => Ok(()),
        Err(Failed) => Err(WayFault::SinkFault),
    }
}

/// The line of a dump of so many bytes that was saved under a number, with its newline. It takes no memory.
pub fn saved_line(number: u32, length: u64) -> ArrayString<96>
    ensures { result.bytes ≡ saved_text number length }
{
    let mut line = ArrayString::new();
    line.push_str("saved ");
    line.push_str(vmcore_name(number).as_str());
    line.push_str(" ");
    line.push_str(Buffer::new().format(length));
    line.push('\n');
    line
}

// Opens the file of this number and prints the bytes at `length` kernel addresses from `va` on. A file that was taken
// away since it was saved has no bytes.
fn read_file<S: Site, O: Sink>(
    alloc: Global,
    site: &mut S,
    number: u32,
    va: u64,
    length: u32,
    out: &mut O,
) -> Result<Option<AddressFault>, WayFault>
    ensures reads { ReadsFile (S.seen site.old).told number va length (O.seen out.old) (O.seen out.new) result }
    ensures untouched { Untouched (S.seen site.old) (S.seen site.new) }
    ensures count { (O.seen out.old).faults ≤ (O.seen out.new).faults }
    ensures cause { IsErrOf result SiteFault → Rose (S.seen site.old).faults (S.seen site.new).faults }
    ensures sink_cause { IsErrOf result SinkFault → Rose (O.seen out.old).faults (O.seen out.new).faults }
{
    let name = vmcore_name(number);
    let mut kvm = match Kvm::open(alloc, site, name.as_str(), PAGES) {
        Ok(kvm) => kvm,
        Err(OpenFault::SiteFault) => return Err(WayFault::SiteFault),
        Err(OpenFault::NoMemory) => return Err(WayFault::NoMemory),
        Err(OpenFault::NoFile) => return Err(WayFault::Unread(OpenFault::Short(4096, 0))),
        Err(fault) => return Err(WayFault::Unread(fault)),
    };
    match print_read(alloc, &mut kvm, site, va, length, out) {
        Ok(fault) => Ok(fault),
        Err(PrintFault::SiteFault) => Err(WayFault::SiteFault),
        Err(PrintFault::SinkFault) => Err(WayFault::SinkFault),
        Err(PrintFault::NoMemory) => Err(WayFault::NoMemory),
    }
}

/// Prints the line of a dump that was saved, and then what a read of its file gives.
pub(crate) fn read_saved<S: Site, O: Sink>(
    alloc: Global,
    site: &mut S,
    saved: &Saved,
    va: u64,
    length: u32,
    out: &mut O,
) -> Result<Option<AddressFault>, WayFault>
    ensures reads { ReadsSaved (S.seen site.old).told saved.now va length (O.seen out.old) (O.seen out.new) result }
    ensures untouched { Untouched (S.seen site.old) (S.seen site.new) }
    ensures count { (O.seen out.old).faults ≤ (O.seen out.new).faults }
    ensures cause { IsErrOf result SiteFault → Rose (S.seen site.old).faults (S.seen site.new).faults }
    ensures sink_cause { IsErrOf result SinkFault → Rose (O.seen out.old).faults (O.seen out.new).faults }
{
    let line = saved_line(saved.number, saved.header.dumplength);
    match out.put(line.as_str().as_bytes()) {
        Ok(()) => {}
        Err(Failed) => return Err(WayFault::SinkFault),
    }
    read_file(alloc, site, saved.number, va, length, out)
}
