//! Kernel addresses whose bytes follow one another in the file.
ghost use Rattle.std.specs.Prelude.{◌≡◌, ℕ, ◌+◌, ◌%◌, ◌<◌, ◌≤◌, List, Some, IfOk, IsErrOf, length};
ghost use Rattle.fd_site.specs.Contents.{Told, file_of};
ghost use Rattle.fd_site.specs.Fault.{Rose};
ghost use Rattle.fd_site.specs.Seen.{Untouched};
ghost use Rattle.fd_vmcore.specs.Sections.{opened};
ghost use Rattle.fd_kvm.specs.Answer.{byte_in};
ghost use Rattle.fd_kvm.specs.OpenFile.{StandsWith};
ghost use Rattle.fd_kvm.specs.Place.{placed};
ghost use Rattle.fd_kvm.specs.Runs.{IsLocated, IsOfAddress, IsSpan, IsStep};
ghost use Rattle.fd_kvm.specs.declared.fault.ReadFault.TheVariants.{SiteFault};

use crate::fault::ReadFault;
use crate::span::Span;
use crate::vmcore::Vmcore;
use fd_cache::Pages;
use fd_mini::AddressFault;
use fd_site::Site;

/// A place in the file, and how many bytes from there on belong to addresses that follow one another. They lie in one block
/// of 4096 bytes.
#[derive(Clone, Copy, Debug, PartialEq, Eq)]
pub(crate) struct Run {
    pub(crate) place: u64,
    pub(crate) len: u64,
}

impl Vmcore {
    // Reads the bytes at kernel addresses from `va` on, as many as follow one another in the file and as `out` takes.
    // Answers how many they are.
    pub(crate) fn read_run<S: Site>(
        &self,
        pages: &mut Pages,
        site: &mut S,
        va: u64,
        out: &mut [u8],
    ) -> Result<usize, ReadFault>
        requires stands { Told (S.seen site.old).told (StandsWith self.now pages.old) }
        requires some { 0 < length out.old }
        ensures step { Told (S.seen site.old).told (λ c. (f : List ℕ) → file_of c self.now.name ≡ Some f → IsStep (byte_in f self.now.sections) va out.old out.new result) }
        ensures some { IfOk result (λ count. 0 < count) }
        ensures inside { IfOk result (λ count. count ≤ length out.old) }
        ensures fault { IsOfAddress result }
        ensures stands { Told (S.seen site.new).told (StandsWith self.now pages.new) }
        ensures untouched { Untouched (S.seen site.old) (S.seen site.new) }
        ensures cause { IsErrOf result SiteFault → Rose (S.seen site.old).faults (S.seen site.new).faults }
    {
        let run = self.locate(pages, site, va)?;
        let count = run.len.min(out.len() as u64) as usize;
        self.read_block(pages, site, run.place, &mut out[..count])?;
        Ok(count)
    }

    // Where the bytes at kernel addresses from `va` on stand in the file.
    fn locate<S: Site>(&self, pages: &mut Pages, site: &mut S, va: u64) -> Result<Run, ReadFault>
        requires stands { Told (S.seen site.old).told (StandsWith self.now pages.old) }
        ensures located { Told (S.seen site.old).told (λ c. (f : List ℕ) → file_of c self.now.name ≡ Some f → IsLocated f (byte_in f self.now.sections) va result) }
        ensures some { IfOk result (λ run. 0 < run.len) }
        ensures one { IfOk result (λ run. run.place % 4096 + run.len ≤ 4096) }
        ensures fault { IsOfAddress result }
        ensures stands { Told (S.seen site.new).told (StandsWith self.now pages.new) }
        ensures untouched { Untouched (S.seen site.old) (S.seen site.new) }
        ensures cause { IsErrOf result SiteFault → Rose (S.seen site.old).faults (S.seen site.new).faults }
    {
        let span = self.span_at(pages, site, va)?;
        self.run_of(va, span)
    }

    // Where the bytes at physical addresses that `va` and those after it stand for stand in the file.
    fn run_of(&self, va: u64, span: Span) -> Result<Run, ReadFault>
        requires { 0 < span.len }
        ensures run { (f : List ℕ) → opened f ≡ Ok self.now.sections → IsSpan (placed f self.now.sections) va (Ok span)
            → IsLocated f (byte_in f self.now.sections) va result }
        ensures some { IfOk result (λ run. 0 < run.len) }
        ensures one { IfOk result (λ run. run.place % 4096 + run.len ≤ 4096) }
        ensures fault { IsOfAddress result }
        ensures no_fault { IsErrOf result SiteFault → ⊥ }
    {
        match self.find(span.pa) {
            Some(page) => {
                let offset = (span.pa % 4096) as u64;
                Ok(Run {
                    place: page + offset,
                    len: span.len.min(4096 - offset),
                })
            }
            None => Err(ReadFault::Address(AddressFault::NotDumped(va))),
        }
    }
}
