//! `pages FILE`.

ghost use Rattle.std.specs.Prelude.{◌≡◌, IsTrue};
ghost use Rattle.fd_site.specs.Name.{is_good_name};
ghost use Rattle.fd_cli.specs.Ending.{CallOnSite};
ghost use Rattle.fd_cli.specs.Rows.Pages.{pages_row, pages_status};

use crate::print_memory::refuse_file;
use crate::print_reply::print_reply;
use crate::status;
use fd_kvm::Kvm;
use fd_site::{Sink, Site};
use fd_way::{PagesFault, print_pages};
use fd_words::Word;
use std::alloc::Global;

// The status that follows a walk, by how it was printed.
fn pages_status(printed: Result<u64, PagesFault>) -> u8
    ensures { result ≡ pages_status printed }
{
    match printed {
        Ok(_) => 0,
        Err(PagesFault::SiteFault) => status::FAULT,
        Err(PagesFault::SinkFault) => status::FAULT,
    }
}

/// How many pages of the file are kept while it is walked.
const PAGES: usize = 64;

/// Prints the dumped pages of a vmcore in the order of a walk, or why there are none, and answers the status that follows.
pub(crate) fn list_pages<S: Site, O: Sink>(
    alloc: Global,
    site: &mut S,
    file: &Word,
    out: &mut O,
) -> u8
    requires { IsTrue (is_good_name file.now) }
    ensures { CallOnSite (pages_row file.now) (S.seen site.old) (S.seen site.new) (O.seen out.old) (O.seen out.new) result }
{
    let mut kvm = match Kvm::open(alloc, site, file.as_str(), PAGES) {
        Ok(kvm) => kvm,
        Err(fault) => return print_reply(refuse_file(alloc, fault), out),
    };
    pages_status(print_pages(&mut kvm, site, out))
}
