//! The segments of an ELF core.
ghost use Rattle.std.specs.Prelude.{◌≡◌, ◌↔◌, ◌+◌, ◌<◌, ◌≤◌, IfSome, IsTrue, Some, None, if◌then◌else◌};
ghost use Rattle.fd_elfcore.specs.Elf.{rise_from};
ghost use Rattle.fd_elfcore.specs.ElfAnswer.{segment_with};
ghost use Rattle.fd_elfcore.specs.ElfParts.{HasAddress};
ghost use Rattle.fd_elfcore.specs.Opening.{greatest_end, is_taken, loaded};

use crate::program_header::ProgramHeader;

/// Addresses that follow one another, and where their bytes stand in the file.
#[derive(Clone, Copy, PartialEq, Eq, Debug)]
pub struct Segment {
    /// The first address.
    pub address: u64,
    /// Where its byte stands in the file.
    pub offset: u64,
    /// How many bytes there are.
    pub size: u64,
}

impl Segment {
    // Where its addresses end, which may be 2^64.
    pub(crate) fn end(&self) -> u128
        ensures { result ≡ self.now.address + self.now.size }
    {
        u128::from(self.address) + u128::from(self.size)
    }

    // Whether it has an address.
    fn has(&self, va: u64) -> bool
        ensures { IsTrue result ↔ (self.now.address ≤ va) × (va < self.now.address + self.now.size) }
    {
        self.address <= va && va - self.address < self.size
    }
}

/// The segment of a program header, if that is taken behind a segment whose addresses end at `least`.
pub(crate) fn taken(header: &ProgramHeader, least: u128) -> Option<Segment>
    ensures { result ≡ (if is_taken least header.now then Some (loaded header.now) else None) }
{
    let segment = Segment {
        address: header.p_vaddr,
        offset: header.p_offset,
        size: header.p_filesz,
    };
    let file_end = u128::from(segment.offset) + u128::from(segment.size);
    let is_taken = header.p_type == 1
        && header.p_filesz == header.p_memsz
        && segment.size != 0
        && segment.end() <= 1 << 64
        && file_end < 1 << 64
        && least <= u128::from(segment.address);
    is_taken.then_some(segment)
}

/// The greatest end of a segment's bytes in the file.
pub(crate) fn greatest_end(segments: &[Segment]) -> u64
    requires { IsTrue (rise_from 0 segments.now) }
    ensures { result ≡ greatest_end segments.now }
{
    let mut end = 0;
    for segment in segments {
        end = end.max(segment.offset + segment.size);
    }
    end
}

/// The segment that has an address, found by halves.
pub(crate) fn find(segments: &[Segment], va: u64) -> Option<Segment>
    requires { IsTrue (rise_from 0 segments.now) }
    ensures segment { result ≡ segment_with segments.now va }
    ensures inside { IfSome result (HasAddress va) }
{
    let behind = segments.partition_point(|segment| segment.address <= va);
    if behind == 0 {
        return None;
    }
    let segment = segments[behind - 1];
    segment.has(va).then_some(segment)
}
