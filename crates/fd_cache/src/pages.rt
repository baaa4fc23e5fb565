//! Pages of a file that are kept.
ghost use Rattle.std.specs.Prelude.{◌≡◌, ◌+◌, ◌≤◌, ◌<◌, [], nat_eq, length, slice_range, IfOk, IfSome, IsOk, IsSome, IsSomeAnd, IsTrue, OnOk, OnErr};
ghost use Rattle.std.specs.Map.{lookup};
ghost use Rattle.fd_site.specs.Contents.{Told, file_of};
ghost use Rattle.fd_site.specs.Fault.{Rose};
ghost use Rattle.fd_site.specs.Name.{is_good_name};
ghost use Rattle.fd_site.specs.Seen.{Untouched};
ghost use Rattle.fd_cache.specs.Pages.{HoldsPagesOf};

use fd_site::{Site, SiteFault};
use lru::LruCache;
use std::alloc::{AllocError, Global};
use std::marker::Model;
use std::num::NonZeroUsize;

/// Pages of one file. Contracts see the place of each in the file with its 4096 bytes, the page that was read last first.
#[derive(Drop)]
pub struct Pages {
    pages: LruCache<u64, [u8; 4096]>,
}

impl Model for Pages {
    ghost use Rattle.std.specs.Prelude.{ℕ, List};

    ghost Value = { List (ℕ × List ℕ) };

    ghost view = { λ p. p.pages.entries };
}

impl Pages {
    /// No pages yet, of which at most `capacity` are going to be kept.
    pub fn new(alloc: Global, capacity: usize) -> Result<Pages, AllocError>
        requires some { 0 < capacity }
        requires most { capacity ≤ 4096 }
        ensures { IfOk result (λ pages. pages ≡ []) }
    {
        let capacity = NonZeroUsize::new(capacity).unwrap();
        // Room is taken page by page: a page for which there is none is given all the same, so want of memory here would
        // only refuse a file that can be read.
        Ok(Pages {
            pages: LruCache::sparse(alloc, capacity)?,
        })
    }

    /// Gives the 4096 bytes of the file from `offset` on, and keeps them if there is memory to. Each page that is held has
    /// to be of the file of this name. After a fault of the site `out` has any bytes.
    pub fn read<S: Site>(
        &mut self,
        site: &mut S,
        name: &str,
        offset: u64,
        out: &mut [u8; 4096],
    ) -> Result<(), SiteFault>
        requires name { IsTrue (is_good_name name.now) }
        requires inside { Told (S.seen site.old).told (λ c. IsSomeAnd (file_of c name.now) (λ file. offset + 4096 ≤ length file)) }
        requires held { Told (S.seen site.old).told (λ c. IfSome (file_of c name.now) (HoldsPagesOf self.old)) }
        ensures bytes { OnOk result (Told (S.seen site.old).told (λ c. IfSome (file_of c name.now) (λ file. out.new ≡ slice_range file offset (offset + 4096)))) }
        ensures held { Told (S.seen site.new).told (λ c. IfSome (file_of c name.now) (HoldsPagesOf self.new)) }
        ensures kept { IsSome (lookup (nat_eq offset) self.old) → IsOk result }
        ensures quiet { IsSome (lookup (nat_eq offset) self.old) → site.new ≡ site.old }
        ensures untouched { Untouched (S.seen site.old) (S.seen site.new) }
        ensures cause { OnErr result (Rose (S.seen site.old).faults (S.seen site.new).faults) }
    {
        if let Some(page) = self.pages.get(&offset).copied() {
            *out = page;
            return Ok(());
        }
        site.read_file(name, offset, out)?;
        let _ = self.pages.put(offset, *out);
        Ok(())
    }
}
