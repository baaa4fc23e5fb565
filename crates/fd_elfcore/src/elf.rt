//! Opening and reading an ELF core.
ghost use Rattle.std.specs.Prelude.{◌≡◌, ℕ, ◌+◌, ◌^◌, ◌<◌, ◌≤◌, ◌↔◌, List, length, Some, Err, IfOk, IsErrOf, IsTrue, OnErr};
ghost use Rattle.fd_site.specs.Contents.{Told, file_of};
ghost use Rattle.fd_site.specs.Fault.{Rose};
ghost use Rattle.fd_site.specs.Name.{is_good_name};
ghost use Rattle.fd_site.specs.Seen.{Untouched};
ghost use Rattle.fd_elfcore.specs.Elf.{ElfStandsFor, IsElfRead, rise_from, segments_of};
ghost use Rattle.fd_elfcore.specs.ElfAnswer.{elf_byte, elf_bytes};
ghost use Rattle.fd_elfcore.specs.ElfParts.{HasLength, HasRoom, IsElfStep, items_of};
ghost use Rattle.fd_elfcore.specs.Layout.{headers_end};
ghost use Rattle.fd_elfcore.specs.Opening.{IsElfAnswer, IsElfOpening, by_count, program_header, refused_place, segments_from};
ghost use Rattle.fd_elfcore.specs.declared.elf_fault.ElfOpenFault.TheVariants as open_fault;
ghost use Rattle.fd_elfcore.specs.declared.elf_fault.ElfReadFault.TheVariants.{PastTop, SiteFault};

use crate::elf_fault::{ElfOpenFault, ElfReadFault};
use crate::program_header::ProgramHeader;
use crate::segment::{Segment, find, greatest_end, taken};
use fd_bytes::get_u64_le;
use fd_elf::{FileType, HeaderField, get_u16_le};
use fd_site::{Failed, Site};
use std::alloc::Global;
use std::marker::Model;

/// An ELF core file that was opened: its name, and its segments by rising address. It stands for the file of its name as
/// long as that stays as it was when it was opened.
#[derive(Drop)]
pub struct Elf {
    name: String,
    segments: Vec<Segment>,
}

impl Model for Elf {
    ghost use Rattle.std.specs.Prelude.{IsTrue, string_bytes};
    ghost use Rattle.fd_site.specs.Name.{is_good_name};
    ghost use Rattle.fd_elfcore.specs.Elf.{ElfFile, rise_from};

    ghost Value = { ElfFile };

    ghost view = { λ elf. record { name = string_bytes elf.name; segments = elf.segments.items } };

    ghost invariant = { λ elf. record { good : IsTrue (is_good_name (string_bytes elf.name)); rise : IsTrue (rise_from 0 elf.segments.items) } };
}

// The place of the first field of a header whose value isn't taken.
#[tactic(auto, unfolding(crate::specs::Opening::refused_place))]
fn refused_place(header: &[u8; 64]) -> Option<u64>
    ensures { result ≡ refused_place header.now }
{
    fd_elf::refused_place(
        header,
        &[FileType::Core],
        &[
            HeaderField {
                place: 32,
                is_taken: get_u64_le(header, 32) == 64,
            },
            HeaderField {
                place: 54,
                is_taken: get_u16_le(header, 54) == 56,
            },
            HeaderField {
                place: 56,
                is_taken: get_u16_le(header, 56) != 65535,
            },
        ],
    )
}

impl Elf {
    /// Opens the file of this name, or answers the first reason to refuse it. Memory is taken for its segments, of which it
    /// has at most 65,534; their bytes aren't read.
    pub fn open<S: Site>(alloc: Global, site: &mut S, name: &str) -> Result<Elf, ElfOpenFault>
        requires { IsTrue (is_good_name name.now) }
        ensures opening { Told (S.seen site.old).told (λ c. IsElfOpening (file_of c name.now) (segments_of result)) }
        ensures name { IfOk result (λ elf. elf.name ≡ name.now) }
        ensures stands { IfOk result (λ elf. Told (S.seen site.new).told (ElfStandsFor elf)) }
        ensures untouched { Untouched (S.seen site.old) (S.seen site.new) }
        ensures cause { IsErrOf result open_fault.SiteFault → Rose (S.seen site.old).faults (S.seen site.new).faults }
    {
        let len = match site.file_len(name)? {
            Some(len) => len,
            None => return Err(ElfOpenFault::NoFile),
        };
        let segments = open_file(alloc, site, name, len)?;
        let name = String::from_str(alloc, name)?;
        Ok(Elf { name, segments })
    }

    /// Reads the bytes at addresses from `va` on, as many as `out` has. Where no segment has an address, `out` has the bytes
    /// before the first such address, and is unchanged from there on. After a fault of the site it has any bytes. It takes
    /// no memory.
    pub fn read<S: Site>(&self, site: &mut S, va: u64, out: &mut [u8]) -> Result<(), ElfReadFault>
        requires { Told (S.seen site.old).told (ElfStandsFor self.now) }
        ensures read { Told (S.seen site.old).told (λ c. (f : List ℕ) → file_of c self.now.name ≡ Some f
            → IsElfRead (elf_bytes f self.now.segments va (length out.old)) out.old out.new result) }
        ensures past_top { 2 ^ 64 < va + length out.old ↔ result ≡ Err PastTop }
        ensures untouched { Untouched (S.seen site.old) (S.seen site.new) }
        ensures cause { IsErrOf result SiteFault → Rose (S.seen site.old).faults (S.seen site.new).faults }
    {
        if u128::from(va) + out.len() as u128 > 1 << 64 {
            return Err(ElfReadFault::PastTop);
        }
        let mut at = 0;
        while at < out.len() {
            at += self.read_segment(site, va + at as u64, &mut out[at..])?;
        }
        Ok(())
    }

    // Reads the bytes at addresses from `va` on, as many as its segment has and as `out` takes. Answers how many they are.
    fn read_segment<S: Site>(
        &self,
        site: &mut S,
        va: u64,
        out: &mut [u8],
    ) -> Result<usize, ElfReadFault>
        requires stands { Told (S.seen site.old).told (ElfStandsFor self.now) }
        requires some { 0 < length out.old }
        ensures step { Told (S.seen site.old).told (λ c. (f : List ℕ) → file_of c self.now.name ≡ Some f → IsElfStep (elf_byte f self.now.segments) va out.old out.new result) }
        ensures some { IfOk result (λ count. 0 < count) }
        ensures inside { IfOk result (λ count. count ≤ length out.old) }
        ensures not_past { IsErrOf result PastTop → ⊥ }
        ensures untouched { Untouched (S.seen site.old) (S.seen site.new) }
        ensures cause { IsErrOf result SiteFault → Rose (S.seen site.old).faults (S.seen site.new).faults }
    {
        let segment = match find(self.segments.as_slice(), va) {
            Some(segment) => segment,
            None => return Err(ElfReadFault::Absent(va)),
        };
        let within = va - segment.address;
        let count = (segment.size - within).min(out.len() as u64) as usize;
        let name = self.name.as_str();
        site.read_file(name, segment.offset + within, &mut out[..count])?;
        Ok(count)
    }
}

// The segments of a file of this length.
fn open_file<S: Site>(
    alloc: Global,
    site: &mut S,
    name: &str,
    len: u64,
) -> Result<Vec<Segment>, ElfOpenFault>
    requires name { IsTrue (is_good_name name.now) }
    requires len { Told (S.seen site.old).told (λ c. HasLength (file_of c name.now) len) }
    ensures opening { Told (S.seen site.old).told (λ c. IsElfOpening (file_of c name.now) (items_of result)) }
    ensures rise { IfOk result (λ segments. IsTrue (rise_from 0 segments.items)) }
    ensures untouched { Untouched (S.seen site.old) (S.seen site.new) }
    ensures cause { IsErrOf result open_fault.SiteFault → Rose (S.seen site.old).faults (S.seen site.new).faults }
{
    if len < 64 {
        return Err(ElfOpenFault::Short(64, len));
    }
    let mut header = [0; 64];
    site.read_file(name, 0, &mut header)?;
    match refused_place(&header) {
        Some(place) => Err(ElfOpenFault::NotElf(place)),
        None => open_segments(alloc, site, name, len, get_u16_le(&header, 56)),
    }
}

// The same of a file with so many program headers.
fn open_segments<S: Site>(
    alloc: Global,
    site: &mut S,
    name: &str,
    len: u64,
    count: u16,
) -> Result<Vec<Segment>, ElfOpenFault>
    requires name { IsTrue (is_good_name name.now) }
    requires len { Told (S.seen site.old).told (λ c. HasLength (file_of c name.now) len) }
    ensures opening { Told (S.seen site.old).told (λ c. (f : List ℕ) → file_of c name.now ≡ Some f
        → IsElfAnswer (by_count f count) (headers_end count ≤ length f) (items_of result)) }
    ensures rise { IfOk result (λ segments. IsTrue (rise_from 0 segments.items)) }
    ensures untouched { Untouched (S.seen site.old) (S.seen site.new) }
    ensures cause { IsErrOf result open_fault.SiteFault → Rose (S.seen site.old).faults (S.seen site.new).faults }
{
    let need = 64 + 56 * u64::from(count);
    if len < need {
        return Err(ElfOpenFault::Short(need, len));
    }
    let segments = read_segments(alloc, site, name, count)?;
    let need = greatest_end(segments.as_slice());
    if len < need {
        return Err(ElfOpenFault::Short(need, len));
    }
    Ok(segments)
}

// The segments of the program headers, of which there are so many.
fn read_segments<S: Site>(
    alloc: Global,
    site: &mut S,
    name: &str,
    count: u16,
) -> Result<Vec<Segment>, ElfOpenFault>
    requires name { IsTrue (is_good_name name.now) }
    requires inside { Told (S.seen site.old).told (λ c. HasRoom (file_of c name.now) (headers_end count)) }
    ensures segments { Told (S.seen site.old).told (λ c. (f : List ℕ) → file_of c name.now ≡ Some f
        → IsElfAnswer (segments_from f 0 count 0) (Unit {0}) (items_of result)) }
    ensures rise { IfOk result (λ segments. IsTrue (rise_from 0 segments.items)) }
    ensures untouched { Untouched (S.seen site.old) (S.seen site.new) }
    ensures cause { IsErrOf result open_fault.SiteFault → Rose (S.seen site.old).faults (S.seen site.new).faults }
{
    let mut segments = Vec::new(alloc);
    let mut least = 0;
    for index in 0..count {
        let header = read_program_header(site, name, index)?;
        match taken(&header, least) {
            Some(segment) => {
                least = segment.end();
                match segments.push(segment) {
                    Ok(()) => {}
                    Err(_) => return Err(ElfOpenFault::NoMemory),
                }
            }
            None => return Err(ElfOpenFault::BadSegment(u32::from(index))),
        }
    }
    Ok(segments)
}

// The program header of this index.
fn read_program_header<S: Site>(
    site: &mut S,
    name: &str,
    index: u16,
) -> Result<ProgramHeader, Failed>
    requires name { IsTrue (is_good_name name.now) }
    requires inside { Told (S.seen site.old).told (λ c. HasRoom (file_of c name.now) (headers_end index + 56)) }
    ensures header { IfOk result (λ header. Told (S.seen site.old).told (λ c. (f : List ℕ) → file_of c name.now ≡ Some f → header ≡ program_header f index)) }
    ensures untouched { Untouched (S.seen site.old) (S.seen site.new) }
    ensures cause { OnErr result (Rose (S.seen site.old).faults (S.seen site.new).faults) }
{
    let mut bytes = [0; 56];
    site.read_file(name, 64 + 56 * u64::from(index), &mut bytes)?;
    Ok(ProgramHeader::of(&bytes))
}
