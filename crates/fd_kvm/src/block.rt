//! Reading the file. All that a reader reads of it after it was opened is read here.
ghost use Rattle.std.specs.Prelude.{◌≡◌, ℕ, ◌+◌, ◌%◌, ◌≤◌, List, Some, IfOk, IsSomeAnd, OnErr, OnOk, length, slice_range};
ghost use Rattle.fd_site.specs.Contents.{Told, file_of};
ghost use Rattle.fd_site.specs.Fault.{Rose};
ghost use Rattle.fd_site.specs.Seen.{Untouched};
ghost use Rattle.fd_bytes.specs.Field.{u64_le_at};
ghost use Rattle.fd_kvm.specs.OpenFile.{HasBlock, StandsWith};

use crate::vmcore::Vmcore;
use fd_bytes::get_u64_le;
use fd_cache::Pages;
use fd_site::{Site, SiteFault};

impl Vmcore {
    // Reads the file's bytes from `place` on, as many as `out` has, which lie in one block of 4096 bytes.
    pub(crate) fn read_block<S: Site>(
        &self,
        pages: &mut Pages,
        site: &mut S,
        place: u64,
        out: &mut [u8],
    ) -> Result<(), SiteFault>
        requires stands { Told (S.seen site.old).told (StandsWith self.now pages.old) }
        requires one { place % 4096 + length out.old ≤ 4096 }
        requires inside { Told (S.seen site.old).told (λ c. IsSomeAnd (file_of c self.now.name) (HasBlock place)) }
        ensures bytes { OnOk result (Told (S.seen site.old).told (λ c. (f : List ℕ) → file_of c self.now.name ≡ Some f → out.new ≡ slice_range f place (place + length out.old))) }
        ensures stands { Told (S.seen site.new).told (StandsWith self.now pages.new) }
        ensures untouched { Untouched (S.seen site.old) (S.seen site.new) }
        ensures cause { OnErr result (Rose (S.seen site.old).faults (S.seen site.new).faults) }
    {
        let offset = place % 4096;
        let mut block = [0; 4096];
        pages.read(site, self.name(), place - offset, &mut block)?;
        let start = offset as usize;
        out.copy_from_slice(&block[start..start + out.len()]);
        Ok(())
    }

    // The entry at a place of the file.
    pub(crate) fn read_entry<S: Site>(
        &self,
        pages: &mut Pages,
        site: &mut S,
        place: u64,
    ) -> Result<u64, SiteFault>
        requires stands { Told (S.seen site.old).told (StandsWith self.now pages.old) }
        requires aligned { place % 8 ≡ 0 }
        requires inside { Told (S.seen site.old).told (λ c. IsSomeAnd (file_of c self.now.name) (HasBlock place)) }
        ensures entry { IfOk result (λ bits. Told (S.seen site.old).told (λ c. (f : List ℕ) → file_of c self.now.name ≡ Some f → bits ≡ u64_le_at f place)) }
        ensures stands { Told (S.seen site.new).told (StandsWith self.now pages.new) }
        ensures untouched { Untouched (S.seen site.old) (S.seen site.new) }
        ensures cause { OnErr result (Rose (S.seen site.old).faults (S.seen site.new).faults) }
    {
        let mut bytes = [0; 8];
        self.read_block(pages, site, place, &mut bytes)?;
        Ok(get_u64_le(&bytes, 0))
    }
}
