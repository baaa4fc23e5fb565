//! The physical addresses that kernel addresses stand for.
ghost use Rattle.std.specs.Prelude.{◌≡◌, ℕ, ◌+◌, ◌-◌, ◌*◌, ◌%◌, ◌<◌, ◌≤◌, List, Some, IfOk, IsErrOf, IsTrue, min};
ghost use Rattle.fd_site.specs.Contents.{Told, file_of};
ghost use Rattle.fd_site.specs.Fault.{Rose};
ghost use Rattle.fd_site.specs.Seen.{Untouched};
ghost use Rattle.fd_vmcore.specs.Sections.{page_offset};
ghost use Rattle.fd_mini.specs.Layout.{unit_of};
ghost use Rattle.fd_kvm.specs.OpenFile.{StandsWith};
ghost use Rattle.fd_kvm.specs.Place.{is_in_kernel_window, is_in_direct_map, entry_index, by_entry, by_table, placed};
ghost use Rattle.fd_kvm.specs.Runs.{IsOfAddress, IsSpan, is_by_window, unit_offset, up_to, window_limit};
ghost use Rattle.fd_kvm.specs.declared.fault.ReadFault.TheVariants.{SiteFault};

use crate::fault::ReadFault;
use crate::vmcore::Vmcore;
use fd_cache::Pages;
use fd_mini::{AddressFault, MiniHeader, entry_height_of, unit_of};
use fd_pte::{Kind, entry_kind};
use fd_site::Site;

/// Physical addresses, one after another: the first, which may be 2^64 or more, and how many they are.
#[derive(Clone, Copy, Debug, PartialEq, Eq)]
pub(crate) struct Span {
    pub(crate) pa: u128,
    pub(crate) len: u64,
}

impl Vmcore {
    // The physical addresses that the kernel addresses from this one on stand for.
    pub(crate) fn span_at<S: Site>(
        &self,
        pages: &mut Pages,
        site: &mut S,
        va: u64,
    ) -> Result<Span, ReadFault>
        requires { Told (S.seen site.old).told (StandsWith self.now pages.old) }
        ensures span { Told (S.seen site.old).told (λ c. (f : List ℕ) → file_of c self.now.name ≡ Some f → IsSpan (placed f self.now.sections) va result) }
        ensures some { IfOk result (λ span. 0 < span.len) }
        ensures fault { IsOfAddress result }
        ensures stands { Told (S.seen site.new).told (StandsWith self.now pages.new) }
        ensures untouched { Untouched (S.seen site.old) (S.seen site.new) }
        ensures cause { IsErrOf result SiteFault → Rose (S.seen site.old).faults (S.seen site.new).faults }
    {
        let header = self.header();
        if is_by_window(header, va) {
            return self.window_span(pages, site, va);
        }
        if is_in_direct_map(header, va) {
            return Ok(direct_span(header, va));
        }
        Err(ReadFault::Address(AddressFault::Outside(va)))
    }

    // The same for an address that is looked for in the kernel window.
    fn window_span<S: Site>(
        &self,
        pages: &mut Pages,
        site: &mut S,
        va: u64,
    ) -> Result<Span, ReadFault>
        requires stands { Told (S.seen site.old).told (StandsWith self.now pages.old) }
        requires window { IsTrue (is_by_window self.now.sections.header va) }
        ensures span { Told (S.seen site.old).told (λ c. (f : List ℕ) → file_of c self.now.name ≡ Some f → IsSpan (placed f self.now.sections) va result) }
        ensures some { IfOk result (λ span. 0 < span.len) }
        ensures fault { IsOfAddress result }
        ensures stands { Told (S.seen site.new).told (StandsWith self.now pages.new) }
        ensures untouched { Untouched (S.seen site.old) (S.seen site.new) }
        ensures cause { IsErrOf result SiteFault → Rose (S.seen site.old).faults (S.seen site.new).faults }
    {
        let header = self.header();
        let place = self.directory() + 8 * entry_index(header, va);
        let bits = self.read_entry(pages, site, place)?;
        let kind = entry_kind(header.arch, bits, entry_height_of(header));
        let span = self.entry_span(pages, site, va, kind)?;
        Ok(Span {
            pa: span.pa,
            len: span.len.min(window_limit(header, va)),
        })
    }

    // The same by the directory's entry of this kind, as far as it is the entry of the addresses.
    fn entry_span<S: Site>(
        &self,
        pages: &mut Pages,
        site: &mut S,
        va: u64,
        kind: Kind,
    ) -> Result<Span, ReadFault>
        requires stands { Told (S.seen site.old).told (StandsWith self.now pages.old) }
        requires above { self.now.sections.header.kernbase ≤ va }
        ensures span { Told (S.seen site.old).told (λ c. (f : List ℕ) → file_of c self.now.name ≡ Some f → IsSpan (λ a. by_entry f self.now.sections a kind) va result) }
        ensures some { IfOk result (λ span. 0 < span.len) }
        ensures fault { IsOfAddress result }
        ensures stands { Told (S.seen site.new).told (StandsWith self.now pages.new) }
        ensures untouched { Untouched (S.seen site.old) (S.seen site.new) }
        ensures cause { IsErrOf result SiteFault → Rose (S.seen site.old).faults (S.seen site.new).faults }
    {
        match kind {
            Kind::Absent => Err(ReadFault::Address(AddressFault::NotMapped(va))),
            Kind::Leaf(address) => Ok(leaf_span(self.header(), va, address)),
            Kind::Table(table) => self.table_span(pages, site, va, table),
        }
    }

    // The same by the table at this physical address.
    fn table_span<S: Site>(
        &self,
        pages: &mut Pages,
        site: &mut S,
        va: u64,
        table: u64,
    ) -> Result<Span, ReadFault>
        requires stands { Told (S.seen site.old).told (StandsWith self.now pages.old) }
        ensures span { Told (S.seen site.old).told (λ c. (f : List ℕ) → file_of c self.now.name ≡ Some f
            → IsSpan (λ a. by_table f self.now.sections.header.arch a (page_offset self.now.sections table)) va result) }
        ensures some { IfOk result (λ span. 0 < span.len) }
        ensures fault { IsOfAddress result }
        ensures stands { Told (S.seen site.new).told (StandsWith self.now pages.new) }
        ensures untouched { Untouched (S.seen site.old) (S.seen site.new) }
        ensures cause { IsErrOf result SiteFault → Rose (S.seen site.old).faults (S.seen site.new).faults }
    {
        let place = match self.find(u128::from(table)) {
            Some(place) => place,
            None => return Err(ReadFault::Address(AddressFault::TableMissing(va))),
        };
        let bits = self.read_entry(pages, site, place + 8 * (va / 4096 % 512))?;
        match entry_kind(self.header().arch, bits, 0) {
            Kind::Leaf(address) => Ok(page_span(va, address)),
            Kind::Absent | Kind::Table(_) => Err(ReadFault::Address(AddressFault::NotMapped(va))),
        }
    }
}

fn entry_index(header: &MiniHeader, va: u64) -> u64
    requires { header.now.kernbase ≤ va }
    ensures { result ≡ entry_index header.now va }
{
    (va - header.kernbase) / unit_of(header)
}

fn is_in_kernel_window(header: &MiniHeader, va: u64) -> bool
    ensures { result ≡ is_in_kernel_window header.now va }
{
    header.kernbase <= va && entry_index(header, va) < u64::from(header.pmapsize / 8)
}

fn is_in_direct_map(header: &MiniHeader, va: u64) -> bool
    ensures { result ≡ is_in_direct_map header.now va }
{
    header.dmapbase <= va && va < header.dmapend
}

// Whether an address is looked for in the kernel window.
fn is_by_window(header: &MiniHeader, va: u64) -> bool
    ensures { result ≡ is_by_window header.now va }
{
    is_in_kernel_window(header, va)
        && (header.arch.profile().window_is_first || !is_in_direct_map(header, va))
}

// How many addresses there are up to one that lies above, if it does.
fn up_to(va: u64, bound: u64) -> u64
    ensures value { result ≡ up_to va bound }
    ensures some { 0 < result }
{
    if va < bound { bound - va } else { u64::MAX }
}

// How many addresses from this one on the same entry of the directory maps, before the direct map.
fn window_limit(header: &MiniHeader, va: u64) -> u64
    requires { header.now.kernbase ≤ va }
    ensures value { result ≡ window_limit header.now va }
    ensures some { 0 < result }
{
    let unit = unit_of(header);
    (unit - (va - header.kernbase) % unit).min(up_to(va, header.dmapbase))
}

// The addresses of the direct map, before the kernel window.
fn direct_span(header: &MiniHeader, va: u64) -> Span
    requires { IsTrue (is_in_direct_map header.now va) }
    ensures first { result.pa ≡ va - header.now.dmapbase + header.now.dmapphys }
    ensures len { result.len ≡ min (header.now.dmapend - va) (up_to va header.now.kernbase) }
    ensures some { 0 < result.len }
{
    Span {
        pa: u128::from(va - header.dmapbase) + u128::from(header.dmapphys),
        len: (header.dmapend - va).min(up_to(va, header.kernbase)),
    }
}

// The addresses of a leaf of the directory.
fn leaf_span(header: &MiniHeader, va: u64, address: u64) -> Span
    requires { header.now.kernbase ≤ va }
    ensures first { result.pa ≡ address + unit_offset header.now va }
    ensures len { result.len ≡ unit_of header.now - unit_offset header.now va }
    ensures some { 0 < result.len }
{
    let unit = unit_of(header);
    let offset = (va - header.kernbase) % unit;
    Span {
        pa: u128::from(address) + u128::from(offset),
        len: unit - offset,
    }
}

// The addresses of a page.
fn page_span(va: u64, address: u64) -> Span
    ensures first { result.pa ≡ address + va % 4096 }
    ensures len { result.len ≡ 4096 - va % 4096 }
{
    let offset = va % 4096;
    Span {
        pa: u128::from(address) + u128::from(offset),
        len: 4096 - offset,
    }
}
