//! The symbols of an open kernel.
ghost use Rattle.std.specs.Prelude.{◌≡◌, ℕ, ◌+◌, ◌*◌, ◌<◌, ◌≤◌, ◌^◌, List, length, Ok, Some, slice_range, IfOk, IsErrOf, IsTrue};
ghost use Rattle.fd_bytes.specs.Label.{IsText};
ghost use Rattle.fd_site.specs.Contents.{Told, file_of};
ghost use Rattle.fd_site.specs.Fault.{Rose};
ghost use Rattle.fd_site.specs.Name.{is_good_name};
ghost use Rattle.fd_site.specs.Seen.{Untouched};
ghost use Rattle.fd_nlist.specs.Header.{sections_end};
ghost use Rattle.fd_nlist.specs.Opening.{IsAnswer, IsOpening, by_header, by_tables};
ghost use Rattle.fd_nlist.specs.Parts.{HasLength, HasRoom, IsReadAs};
ghost use Rattle.fd_nlist.specs.Sections.{AreRead};
ghost use Rattle.fd_nlist.specs.Symbols.{first_symbol};
ghost use Rattle.fd_nlist.specs.declared.fault.KernelFault.TheVariants.{SiteFault};

use crate::fault::KernelFault;
use crate::header::{KernelHeader, read_header};
use crate::sections::{Tables, linked_tables, symbol_table};
use crate::symbol::{Symbol, first_symbol};
use fd_elf::HEADER_SIZE;
use fd_site::Site;
use std::alloc::Global;
use std::marker::Model;

/// The symbols of a kernel, which are kept as its file has them: at most 2^26 bytes each of the symbol table and of its
/// strings. Contracts see the machine and each symbol with its name, in the order of the table.
#[derive(Drop)]
pub struct Symbols {
    machine: u16,
    symbols: Vec<u8>,
    strings: Vec<u8>,
}

impl Model for Symbols {
    ghost use Rattle.std.specs.Prelude.{◌≤◌, ◌^◌, length};
    ghost use Rattle.fd_nlist.specs.Symbols.{SymbolTable, entries_in};

    ghost Value = { SymbolTable };

    ghost view = { λ s. record { machine = s.machine; entries = entries_in s.symbols.items s.strings.items } };

    ghost invariant = { λ s. length s.symbols.items ≤ 2 ^ 26 };
}

impl Symbols {
    /// Opens the kernel in the file of this name, or answers the first reason to refuse it. What the file holds beside its
    /// header, its section headers and the two tables isn't looked at. No memory is taken before the section headers are
    /// known to be in the file.
    pub fn open<S: Site>(alloc: Global, site: &mut S, name: &str) -> Result<Symbols, KernelFault>
        requires { IsTrue (is_good_name name.now) }
        ensures opening { Told (S.seen site.old).told (λ c. IsOpening (file_of c name.now) result) }
        ensures untouched { Untouched (S.seen site.old) (S.seen site.new) }
        ensures cause { IsErrOf result SiteFault → Rose (S.seen site.old).faults (S.seen site.new).faults }
    {
        match site.file_len(name)? {
            Some(len) => open_file(alloc, site, name, len),
            None => Err(KernelFault::NoFile),
        }
    }

    /// The machine in the kernel's header, `e_machine`.
    pub fn machine(&self) -> u16
        ensures { result ≡ self.now.machine }
    {
        self.machine
    }

    /// The first symbol of this name that has a section, in the order of the table, or None where there is none. The name has
    /// at least one byte, and none of them is zero. Each symbol costs no more than a comparison with the name.
    pub fn find(&self, name: &[u8]) -> Option<Symbol>
        requires some { 0 < length name.now }
        requires text { IsText name.now }
        ensures { result ≡ first_symbol self.now.entries name.now }
    {
        first_symbol(&self.symbols, &self.strings, name)
    }
}

// Opens a file of this length.
fn open_file<S: Site>(
    alloc: Global,
    site: &mut S,
    name: &str,
    len: u64,
) -> Result<Symbols, KernelFault>
    requires name { IsTrue (is_good_name name.now) }
    requires len { Told (S.seen site.old).told (λ c. HasLength (file_of c name.now) len) }
    ensures opening { Told (S.seen site.old).told (λ c. IsOpening (file_of c name.now) result) }
    ensures untouched { Untouched (S.seen site.old) (S.seen site.new) }
    ensures cause { IsErrOf result SiteFault → Rose (S.seen site.old).faults (S.seen site.new).faults }
{
    if len < HEADER_SIZE as u64 {
        return Err(KernelFault::Short(HEADER_SIZE as u64, len));
    }
    let mut bytes = [0; HEADER_SIZE];
    site.read_file(name, 0, &mut bytes)?;
    match read_header(&bytes) {
        Ok(header) => open_sections(alloc, site, name, len, &header),
        Err(place) => Err(KernelFault::NotKernel(place)),
    }
}

// Opens a file of this length with this header.
fn open_sections<S: Site>(
    alloc: Global,
    site: &mut S,
    name: &str,
    len: u64,
    header: &KernelHeader,
) -> Result<Symbols, KernelFault>
    requires name { IsTrue (is_good_name name.now) }
    requires len { Told (S.seen site.old).told (λ c. HasLength (file_of c name.now) len) }
    requires end { sections_end header.now < 2 ^ 64 }
    ensures opening { Told (S.seen site.old).told (λ c. (f : List ℕ) → file_of c name.now ≡ Some f → IsAnswer (by_header f (Ok header.now)) (sections_end header.now ≤ length f) result) }
    ensures untouched { Untouched (S.seen site.old) (S.seen site.new) }
    ensures cause { IsErrOf result SiteFault → Rose (S.seen site.old).faults (S.seen site.new).faults }
{
    let size = header.sections_size();
    let need = header.e_shoff + size;
    if len < need {
        return Err(KernelFault::Short(need, len));
    }
    let headers = read_bytes(alloc, site, name, header.e_shoff, size)?;
    let Some(symbols) = symbol_table(&headers, header.e_shoff) else {
        return Err(KernelFault::NoTable);
    };
    match linked_tables(&headers, header.e_shoff, symbols) {
        Ok(tables) => open_tables(alloc, site, name, len, header.e_machine, &tables),
        Err(place) => Err(KernelFault::NotKernel(place)),
    }
}

// Opens a file of this length with these tables.
fn open_tables<S: Site>(
    alloc: Global,
    site: &mut S,
    name: &str,
    len: u64,
    machine: u16,
    tables: &Tables,
) -> Result<Symbols, KernelFault>
    requires name { IsTrue (is_good_name name.now) }
    requires len { Told (S.seen site.old).told (λ c. HasLength (file_of c name.now) len) }
    requires limits { AreRead tables.now }
    ensures opening { Told (S.seen site.old).told (λ c. (f : List ℕ) → file_of c name.now ≡ Some f → IsAnswer (by_tables f machine (Ok tables.now)) (Unit {0}) result) }
    ensures untouched { Untouched (S.seen site.old) (S.seen site.new) }
    ensures cause { IsErrOf result SiteFault → Rose (S.seen site.old).faults (S.seen site.new).faults }
{
    let need = tables.end();
    if len < need {
        return Err(KernelFault::Short(need, len));
    }
    let symbols = read_bytes(
        alloc,
        site,
        name,
        tables.symbols.sh_offset,
        tables.symbols.sh_size,
    )?;
    let strings = read_bytes(
        alloc,
        site,
        name,
        tables.strings.sh_offset,
        tables.strings.sh_size,
    )?;
    Ok(Symbols {
        machine,
        symbols,
        strings,
    })
}

// So many of the file's bytes from a place on.
fn read_bytes<S: Site>(
    alloc: Global,
    site: &mut S,
    name: &str,
    at: u64,
    len: u64,
) -> Result<Vec<u8>, KernelFault>
    requires name { IsTrue (is_good_name name.now) }
    requires inside { Told (S.seen site.old).told (λ c. HasRoom (file_of c name.now) (at + len)) }
    requires limit { len ≤ 2 ^ 26 }
    ensures bytes { Told (S.seen site.old).told (λ c. (f : List ℕ) → file_of c name.now ≡ Some f → IsReadAs (λ bytes. bytes.items ≡ slice_range f at (at + len)) result) }
    ensures len { IfOk result (λ bytes. length bytes.items ≡ len) }
    ensures untouched { Untouched (S.seen site.old) (S.seen site.new) }
    ensures cause { IsErrOf result SiteFault → Rose (S.seen site.old).faults (S.seen site.new).faults }
{
    let mut bytes = vec![in alloc; 0u8; len as usize]?;
    site.read_file(name, at, bytes.as_mut_slice())?;
    Ok(bytes)
}
