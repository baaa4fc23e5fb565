//! A reader of one vmcore.
ghost use Rattle.std.specs.Prelude.{◌≡◌, ℕ, ◌+◌, ◌^◌, ◌<◌, ◌≤◌, ◌↔◌, List, Some, Err, IfOk, IsErrOf, IsTrue, OnErr, length};
ghost use Rattle.fd_site.specs.Contents.{Told, file_of};
ghost use Rattle.fd_site.specs.Fault.{Rose};
ghost use Rattle.fd_site.specs.Name.{is_good_name};
ghost use Rattle.fd_site.specs.Seen.{Untouched};
ghost use Rattle.fd_vmcore.specs.Sections.{IsOpening};
ghost use Rattle.fd_kvm.specs.Answer.{bytes_in};
ghost use Rattle.fd_kvm.specs.Reader.{IsRead, StandsFor, sections_of};
ghost use Rattle.fd_kvm.specs.Visits.{AreOfWalk, IsGiven, IsWalk};
ghost use Rattle.fd_kvm.specs.Walk.{dumped_pages, walk_of};

use crate::fault::ReadFault;
use crate::page::Visit;
use crate::vmcore::Vmcore;
use fd_bitmap::Bitmap;
use fd_cache::Pages;
use fd_mini::AddressFault;
use fd_site::{Site, SiteFault};
use fd_vmcore::{Core, OpenFault};
use std::alloc::Global;
use std::marker::Model;

/// A reader of one vmcore, which keeps the pages of the file that it read last. It stands for the file of its name as long
/// as that stays as it was when it was opened.
#[derive(Drop)]
pub struct Kvm {
    vmcore: Vmcore,
    pages: Pages,
    // A mark for each dumped page, which a walk sets.
    walked: Bitmap,
}

impl Model for Kvm {
    ghost use Rattle.std.specs.Prelude.{◌≡◌, length};
    ghost use Rattle.fd_bitmap.specs.Bits.{set_count};
    ghost use Rattle.fd_kvm.specs.Reader.{Reader};

    ghost Value = { Reader };

    ghost view = { λ kvm. record { name = kvm.vmcore.name; sections = kvm.vmcore.sections; pages = kvm.pages } };

    ghost invariant = { λ kvm. length kvm.walked ≡ set_count kvm.vmcore.sections.bits };
}

impl Kvm {
    /// Opens the file of this name, or answers the first reason to refuse it. The reader keeps up to `capacity` pages of
    /// 4096 bytes of it, for which it takes memory as it reads them.
    pub fn open<S: Site>(
        alloc: Global,
        site: &mut S,
        name: &str,
        capacity: usize,
    ) -> Result<Kvm, OpenFault>
        requires name { IsTrue (is_good_name name.now) }
        requires some { 0 < capacity }
        requires most { capacity ≤ 4096 }
        ensures opening { Told (S.seen site.old).told (λ c. IsOpening (file_of c name.now) (sections_of result)) }
        ensures name { IfOk result (λ kvm. kvm.name ≡ name.now) }
        ensures stands { IfOk result (λ kvm. Told (S.seen site.new).told (StandsFor kvm)) }
        ensures untouched { Untouched (S.seen site.old) (S.seen site.new) }
        ensures cause { IsErrOf result OpenFault.SiteFault → Rose (S.seen site.old).faults (S.seen site.new).faults }
    {
        let core = Core::open(alloc, site, name)?;
        let name = String::from_str(alloc, name)?;
        let pages = Pages::new(alloc, capacity)?;
        let walked = Bitmap::new(alloc, core.map().count())?;
        Ok(Kvm {
            vmcore: Vmcore { name, core },
            pages,
            walked,
        })
    }

    /// The sections of the file.
    pub fn core(&self) -> &Core
        ensures { result.now ≡ self.now.sections }
    {
        &self.vmcore.core
    }

    /// Reads the bytes at kernel addresses from `va` on, as many as `out` has. Where an address has no byte, `out` has
    /// the bytes before the first such address, and is unchanged from there on. After a fault of the site it has any
    /// bytes. It needs no memory: a page that can't be kept for want of it is read all the same. After any answer the
    /// reader stands for the same file.
    pub fn read<S: Site>(&mut self, site: &mut S, va: u64, out: &mut [u8]) -> Result<(), ReadFault>
        requires { Told (S.seen site.old).told (StandsFor self.old) }
        ensures read { Told (S.seen site.old).told (λ c. (f : List ℕ) → file_of c self.old.name ≡ Some f
            → IsRead (bytes_in f self.old.sections va (length out.old)) out.old out.new result) }
        ensures past_top { 2 ^ 64 < va + length out.old ↔ result ≡ Err (ReadFault.Address AddressFault.PastTop) }
        ensures stands { Told (S.seen site.new).told (StandsFor self.new) }
        ensures name { self.new.name ≡ self.old.name }
        ensures sections { self.new.sections ≡ self.old.sections }
        ensures untouched { Untouched (S.seen site.old) (S.seen site.new) }
        ensures cause { IsErrOf result ReadFault.SiteFault → Rose (S.seen site.old).faults (S.seen site.new).faults }
    {
        self.vmcore.read(&mut self.pages, site, va, out)
    }

    /// Gives a visitor the dumped pages: first those that the kernel window maps, by rising address, and then the others, by
    /// rising bit; up to and with the first after which it wants no more. After a fault of the site it was given the first
    /// of them. A walk needs no memory, and asks the site for each entry of the page directory once at most. After any
    /// answer the reader stands for the same file.
    pub fn walk_pages<S: Site, V: Visit>(
        &mut self,
        site: &mut S,
        visit: &mut V,
    ) -> Result<(), SiteFault>
        requires { Told (S.seen site.old).told (StandsFor self.old) }
        ensures walk { IsWalk V.took visit.old visit.new result (λ pages went_on. Told (S.seen site.old).told (λ c. (f : List ℕ) → file_of c self.old.name ≡ Some f
            → AreOfWalk result (walk_of f self.old.sections) pages went_on)) }
        ensures stands { Told (S.seen site.new).told (StandsFor self.new) }
        ensures name { self.new.name ≡ self.old.name }
        ensures sections { self.new.sections ≡ self.old.sections }
        ensures untouched { Untouched (S.seen site.old) (S.seen site.new) }
        ensures cause { OnErr result (Rose (S.seen site.old).faults (S.seen site.new).faults) }
    {
        self.walked.clear_all();
        self.vmcore
            .walk(&mut self.pages, &mut self.walked, site, visit)
    }

    /// Gives a visitor all dumped pages by rising bit, so by rising address, each as a page that no entry maps; up to and with
    /// the first after which it wants no more. The file isn't read.
    pub fn dumped_pages<V: Visit>(&mut self, visit: &mut V)
        ensures given { IsGiven V.took visit.old visit.new (dumped_pages self.old.sections) }
        ensures same { self.new ≡ self.old }
    {
        self.walked.clear_all();
        self.vmcore.walk_others(&self.walked, visit);
    }
}
