//! `read FILE ADDRESS LENGTH`.

ghost use Rattle.std.specs.Prelude.{◌≡◌, IsErrOf, IsTrue};
ghost use Rattle.fd_site.specs.Name.{is_good_name};
ghost use Rattle.fd_cli.specs.Ending.{CallOnSite};
ghost use Rattle.fd_cli.specs.Rows.Read.{read_row, read_status, RefusesFile};
ghost use Rattle.fd_vmcore.specs.declared.open.OpenFault.TheVariants.{SiteFault};

use crate::answer::Answer;
use crate::print_reply::print_reply;
use crate::refusal::Refusal;
use crate::reply::{Reply, Trouble};
use crate::status;
use fd_kvm::Kvm;
use fd_mini::AddressFault;
use fd_site::{Sink, Site};
use fd_vmcore::OpenFault;
use fd_way::{PrintFault, print_read};
use fd_words::Word;
use std::alloc::Global;

/// The reply to a vmcore that isn't opened.
pub(crate) fn refuse_file(alloc: Global, fault: OpenFault) -> Result<Reply, Trouble>
    ensures reply { RefusesFile fault result }
    ensures cause { IsErrOf result Trouble.Fault → fault ≡ SiteFault }
{
    let refusal = match fault {
        OpenFault::NoFile => Refusal::NoFile,
        OpenFault::Short(need, have) => Refusal::Short { need, have },
        OpenFault::Mini(fault) => Refusal::Mini(fault),
        OpenFault::BadAvail(index) => Refusal::BadAvail(index),
        OpenFault::SiteFault => return Err(Trouble::Fault),
        OpenFault::NoMemory => return Err(Trouble::NoMemory),
    };
    let reply = Reply::new(alloc, &Answer::Refused(refusal))?;
    Ok(reply)
}

// The status that follows a read, by how it was printed.
fn read_status(printed: Result<Option<AddressFault>, PrintFault>) -> u8
    ensures { result ≡ read_status printed }
{
    match printed {
        Ok(None) => 0,
        Ok(Some(_)) => status::REFUSED,
        Err(PrintFault::SiteFault) => status::FAULT,
        Err(PrintFault::SinkFault) => status::FAULT,
        Err(PrintFault::NoMemory) => status::MEMORY,
    }
}

/// How many pages of the file are kept while it is read.
const PAGES: usize = 64;

/// Prints the bytes of a vmcore at kernel addresses, or why there are none, and answers the status that follows.
pub(crate) fn print_memory<S: Site, O: Sink>(
    alloc: Global,
    site: &mut S,
    file: &Word,
    address: u64,
    count: u32,
    out: &mut O,
) -> u8
    requires { IsTrue (is_good_name file.now) }
    ensures { CallOnSite (read_row file.now address count) (S.seen site.old) (S.seen site.new) (O.seen out.old) (O.seen out.new) result }
{
    let mut kvm = match Kvm::open(alloc, site, file.as_str(), PAGES) {
        Ok(kvm) => kvm,
        Err(fault) => return print_reply(refuse_file(alloc, fault), out),
    };
    read_status(print_read(alloc, &mut kvm, site, address, count, out))
}
