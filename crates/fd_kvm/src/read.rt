//! Reading kernel memory.
ghost use Rattle.std.specs.Prelude.{◌≡◌, ℕ, ◌+◌, ◌^◌, ◌<◌, ◌↔◌, List, Some, Err, IsErrOf, length};
ghost use Rattle.fd_site.specs.Contents.{Told, file_of};
ghost use Rattle.fd_site.specs.Fault.{Rose};
ghost use Rattle.fd_site.specs.Seen.{Untouched};
ghost use Rattle.fd_mini.specs.declared.address_fault.AddressFault.TheVariants.{PastTop};
ghost use Rattle.fd_kvm.specs.Answer.{bytes_in};
ghost use Rattle.fd_kvm.specs.OpenFile.{StandsWith};
ghost use Rattle.fd_kvm.specs.Reader.{IsRead};
ghost use Rattle.fd_kvm.specs.declared.fault.ReadFault.TheVariants.{Address, SiteFault};

use crate::fault::ReadFault;
use crate::vmcore::Vmcore;
use fd_cache::Pages;
use fd_mini::AddressFault;
use fd_site::Site;

impl Vmcore {
    // Reads the bytes at kernel addresses from `va` on, run by run, up to the first address that has no byte.
    pub(crate) fn read<S: Site>(
        &self,
        pages: &mut Pages,
        site: &mut S,
        va: u64,
        out: &mut [u8],
    ) -> Result<(), ReadFault>
        requires { Told (S.seen site.old).told (StandsWith self.now pages.old) }
        ensures read { Told (S.seen site.old).told (λ c. (f : List ℕ) → file_of c self.now.name ≡ Some f
            → IsRead (bytes_in f self.now.sections va (length out.old)) out.old out.new result) }
        ensures past_top { 2 ^ 64 < va + length out.old ↔ result ≡ Err (Address PastTop) }
        ensures stands { Told (S.seen site.new).told (StandsWith self.now pages.new) }
        ensures untouched { Untouched (S.seen site.old) (S.seen site.new) }
        ensures cause { IsErrOf result SiteFault → Rose (S.seen site.old).faults (S.seen site.new).faults }
    {
        if u128::from(va) + out.len() as u128 > 1 << 64 {
            return Err(ReadFault::Address(AddressFault::PastTop));
        }
        let mut at = 0;
        while at < out.len() {
            at += self.read_run(pages, site, va + at as u64, &mut out[at..])?;
        }
        Ok(())
    }
}
