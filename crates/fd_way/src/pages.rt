//! Printing a walk of pages.

ghost use Rattle.std.specs.Prelude.{◌≡◌, ℕ, ◌+◌, ◌≤◌, ◌++◌, [], ◌∷◌, List, Some, IsErrOf, length};
ghost use Rattle.arrayvec.specs.ArrayVec.{array_vec_len};
ghost use Rattle.fd_bytes.specs.Printed.{hex};
ghost use Rattle.fd_site.specs.Contents.{Told, file_of};
ghost use Rattle.fd_site.specs.Fault.{Rose};
ghost use Rattle.fd_site.specs.Seen.{Untouched};
ghost use Rattle.fd_kvm.specs.Reader.{StandsFor};
ghost use Rattle.fd_kvm.specs.Walk.{walk_of};
ghost use Rattle.fd_kvm.specs.declared.page.Page.{Page};
ghost use Rattle.fd_way.specs.PagesPrinted.{IsPagesPrinted};
ghost use Rattle.fd_way.specs.PagesText.{access_letter, access_text, address_text, count_line, page_line};
ghost use Rattle.fd_way.specs.declared.pages.PagesFault.TheVariants.{SinkFault, SiteFault};

use crate::text::{FULL, put_address};
use arrayvec::ArrayVec;
use fd_kvm::{Kvm, Page, Visit};
use fd_site::{Sink, Site};
use itoa::Buffer;

/// Why a walk wasn't printed to its end.
#[derive(Clone, Copy, Debug, PartialEq, Eq)]
pub enum PagesFault {
    /// The site failed, and its count of faults rose.
    SiteFault,
    /// The sink failed, and its count of faults rose.
    SinkFault,
}

impl From<fd_site::SiteFault> for PagesFault {
    ghost use Rattle.fd_way.specs.declared.pages.PagesFault.TheVariants.{SiteFault};

    ghost from_gives = { λ _ fault. fault ≡ SiteFault };

    fn from(_: fd_site::SiteFault) -> PagesFault {
        PagesFault::SiteFault
    }
}

/// A line, which takes no memory.
type Line = ArrayVec<u8, 96>;

fn put(line: &mut Line, bytes: &[u8])
    requires { array_vec_len line.old + length bytes.now ≤ 96 }
    ensures items { line.new.items ≡ line.old.items ++ bytes.now }
    ensures len { array_vec_len line.new ≡ array_vec_len line.old + length bytes.now }
{
    let _fits = line.try_extend_from_slice(bytes);
}

// Writes an address in 16 digits, or a dash.
fn put_place(line: &mut Line, address: Option<u64>)
    requires { array_vec_len line.old + 16 ≤ 96 }
    ensures items { line.new.items ≡ line.old.items ++ address_text address }
    ensures len { array_vec_len line.new ≤ array_vec_len line.old + 16 }
{
    match address {
        Some(address) => {
            let mut digits = [0; FULL];
            put_address(&mut digits, address);
            put(line, &digits[..16]);
        }
        None => put(line, b"-"),
    }
}

// The letter of an access that is allowed, or a dash.
fn access_letter(prot: u8, access: u8, letter: u8) -> u8
    requires { 1 ≤ access }
    ensures { result ≡ access_letter prot access letter }
{
    if prot / access % 2 == 1 { letter } else { b'-' }
}

fn put_access(line: &mut Line, prot: u8)
    requires { array_vec_len line.old + 3 ≤ 96 }
    ensures items { line.new.items ≡ line.old.items ++ access_text prot }
    ensures len { array_vec_len line.new ≡ array_vec_len line.old + 3 }
{
    let letters = [
        access_letter(prot, 1, b'r'),
        access_letter(prot, 2, b'w'),
        access_letter(prot, 4, b'x'),
    ];
    put(line, &letters);
}

fn page_line(page: &Page) -> Line
    ensures { result.items ≡ page_line page.now }
{
    let mut line = Line::new();
    put_place(&mut line, Some(page.pa));
    put(&mut line, b" ");
    put_place(&mut line, page.kva);
    put(&mut line, b" ");
    put_place(&mut line, page.dva);
    put(&mut line, b" ");
    put_access(&mut line, page.prot);
    put(&mut line, b" ");
    put(&mut line, Buffer::new().format(page.offset).as_bytes());
    put(&mut line, b"\n");
    line
}

fn count_line(count: u64) -> Line
    ensures { result.items ≡ count_line count }
{
    let mut line = Line::new();
    put(&mut line, Buffer::new().format(count).as_bytes());
    put(&mut line, b" pages");
    put(&mut line, b"\n");
    line
}

// Prints the line of each page that it is given, as long as the sink takes them.
#[derive(Drop)]
struct Printer<'a, O: Sink> {
    out: &'a mut O,
    count: u64,
    failed: bool,
}

impl<'a, O: Sink> Visit for Printer<'a, O> {
    ghost use Rattle.fd_way.specs.PagesPrinted.{Prints};

    ghost took = { λ old page answer new. Prints O.seen old page answer new };

    fn visit(&mut self, page: &Page) -> bool {
        let line = page_line(page);
        match self.out.put(line.as_slice()) {
            Ok(()) => {
                self.count = self.count.saturating_add(1);
                true
            }
            Err(_) => {
                self.failed = true;
                false
            }
        }
    }
}

/// Prints the dumped pages of the reader's file in the order of a walk: a line for each, and how many they are, which is
/// answered. A line is the page's physical address, its address in the kernel window and that in the direct map, each in 16
/// hexadecimal digits, or a dash where there is none; then `r`, `w` and `x` for the accesses that are allowed, each or a dash;
/// and its place in the file, in decimal digits. Takes no memory: a line is printed as soon as it is known. After a fault the
/// sink has some of the first bytes of the text. After any answer the reader stands for the same file.
pub fn print_pages<S: Site, O: Sink>(
    kvm: &mut Kvm,
    site: &mut S,
    out: &mut O,
) -> Result<u64, PagesFault>
    requires { Told (S.seen site.old).told (StandsFor kvm.old) }
    ensures printed { (pages : List Page) × ((Told (S.seen site.old).told (λ c. (f : List ℕ) → file_of c kvm.old.name ≡ Some f → pages ≡ walk_of f kvm.old.sections))
        × IsPagesPrinted pages (O.seen out.old).told (O.seen out.new).told result) }
    ensures stands { Told (S.seen site.new).told (StandsFor kvm.new) }
    ensures name { kvm.new.name ≡ kvm.old.name }
    ensures sections { kvm.new.sections ≡ kvm.old.sections }
    ensures untouched { Untouched (S.seen site.old) (S.seen site.new) }
    ensures sink { (O.seen out.old).faults ≤ (O.seen out.new).faults }
    ensures site_cause { IsErrOf result SiteFault → Rose (S.seen site.old).faults (S.seen site.new).faults }
    ensures sink_cause { IsErrOf result SinkFault → Rose (O.seen out.old).faults (O.seen out.new).faults }
{
    let mut printer = Printer {
        out: &mut *out,
        count: 0,
        failed: false,
    };
    kvm.walk_pages(site, &mut printer)?;
    if printer.failed {
        return Err(PagesFault::SinkFault);
    }
    let count = printer.count;
    match out.put(count_line(count).as_slice()) {
        Ok(()) => Ok(count),
        Err(_) => Err(PagesFault::SinkFault),
    }
}
