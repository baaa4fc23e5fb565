//! The bitmap of the dumped pages.
ghost use Rattle.std.specs.Prelude.{◌≡◌, ◌==◌, ◌&&◌, ◌*◌, ◌≤◌, ◌<◌, ◌^◌, Bool, nat_le, nat_lt, length, IfOk};
ghost use Rattle.std.specs.List.{list_any};
ghost use Rattle.fd_image.specs.Image.{direct_map_end};
ghost use Rattle.fd_bitmap.specs.Pages.{pages_of};
ghost use Rattle.fd_dump.specs.Dumped.{is_reached, is_under_leaf, is_mapped, is_last_table, dumps_last_tables, dumped_bits};
ghost use Rattle.fd_dump.specs.Serves.{Serves};
ghost use Rattle.fd_dump.specs.Marks.{marked, IsMarking};

use fd_bitmap::{Avail, Bitmap};
use fd_bytes::Arch;
use fd_image::{Image, Windows};
use fd_pte::{Amd64, Arm64, Entry, Riscv};
use fd_walk::{Leaf, Walker};
use std::alloc::{AllocError, Global};

/// The first physical address past those that the direct map reaches.
fn direct_map_end(windows: &Windows) -> u64
    requires { direct_map_end windows.now ≤ 2 ^ 56 }
    ensures { result ≡ direct_map_end windows.now }
{
    windows.dmapphys + windows.dmapend.saturating_sub(windows.dmapbase)
}

/// The direct map reaches a physical address.
fn is_reached(windows: &Windows, pa: u64) -> bool
    requires { direct_map_end windows.now ≤ 2 ^ 56 }
    ensures { result ≡ is_reached windows.now pa }
{
    windows.dmapphys <= pa && pa < direct_map_end(windows)
}

/// Sets the bit of the page that begins at this address, if there is one that the direct map reaches. `near` is the
/// range at which the call before ended, here and below.
#[tactic(auto, using(crate::proofs::Marking::marks))]
fn mark(map: &mut Bitmap, avail: &Avail, windows: &Windows, pa: u64, near: &mut usize)
    requires bits { length map.old ≡ length avail.now }
    requires low { direct_map_end windows.now ≤ 2 ^ 56 }
    ensures marks { map.new ≡ marked windows.now (λ address. pa == address) avail.now map.old }
    ensures bits { length map.new ≡ length map.old }
{
    if pa % 4096 != 0 || !is_reached(windows, pa) {
        return;
    }
    let page = pa / 4096;
    avail.set_pages(map, page, page + 1, near);
}

/// Sets the bits of the wanted pages.
#[tactic(auto, using(crate::proofs::Marking::loops))]
fn mark_wanted(map: &mut Bitmap, avail: &Avail, windows: &Windows, wanted: &[u64])
    requires bits { length map.old ≡ length avail.now }
    requires low { direct_map_end windows.now ≤ 2 ^ 56 }
    ensures marks { map.new ≡ marked windows.now (λ address. list_any (λ page. page == address) wanted.now) avail.now map.old }
    ensures bits { length map.new ≡ length map.old }
{
    let mut near = 0;
    for page in wanted {
        mark(map, avail, windows, *page, &mut near);
    }
}

/// Sets the bits of the pages that a leaf maps.
fn mark_leaf(map: &mut Bitmap, avail: &Avail, windows: &Windows, leaf: &Leaf, near: &mut usize)
    requires bits { length map.old ≡ length avail.now }
    requires low { direct_map_end windows.now ≤ 2 ^ 56 }
    ensures marks { map.new ≡ marked windows.now (λ address. is_under_leaf address leaf.now) avail.now map.old }
    ensures bits { length map.new ≡ length map.old }
{
    // No page that the direct map doesn't reach is looked at.
    let start = leaf.pa.max(windows.dmapphys);
    let end = leaf
        .pa
        .saturating_add(leaf.size)
        .min(direct_map_end(windows));
    avail.set_pages(map, start.div_ceil(4096), end.div_ceil(4096), near);
}

/// Sets the bits of the pages that the kernel window maps.
#[tactic(auto, using(crate::proofs::Marking::loops))]
fn mark_mapped<E: Entry, const LEVELS: usize>(
    map: &mut Bitmap,
    avail: &Avail,
    windows: &Windows,
    image: &Image,
)
    requires { IsMarking E.kind_of E.DIRECTORY_HEIGHT E.expansion LEVELS image.now windows.now avail.now map.old }
    ensures marks { map.new ≡ marked windows.now (is_mapped image.now) avail.now map.old }
    ensures bits { length map.new ≡ length map.old }
{
    // Each place in a table has a range of its own, since tables that are shared name the same pages there.
    let mut near = [0; 512];
    for leaf in Walker::<E, LEVELS>::leaves(
        image,
        image.root(),
        windows.kernbase,
        windows.kernspan,
    ) {
        let place = (leaf.va / 4096 % 512) as usize;
        mark_leaf(map, avail, windows, &leaf, &mut near[place]);
    }
}

/// Sets the bits of the last-level tables of the kernel window, where the architecture's dumps have them.
#[tactic(auto, using(crate::proofs::Marking::loops))]
fn mark_last_tables<E: Entry, const LEVELS: usize>(
    map: &mut Bitmap,
    avail: &Avail,
    windows: &Windows,
    image: &Image,
)
    requires { IsMarking E.kind_of E.DIRECTORY_HEIGHT E.expansion LEVELS image.now windows.now avail.now map.old }
    ensures marks { map.new ≡ marked windows.now (is_last_table image.now) avail.now map.old }
    ensures bits { length map.new ≡ length map.old }
{
    let mut near = 0;
    for table in Walker::<E, LEVELS>::tables(
        image,
        image.root(),
        windows.kernbase,
        windows.kernspan,
    ) {
        mark(map, avail, windows, table, &mut near);
    }
}

/// The same of an architecture whose dumps have them, and of no other.
#[tactic(auto, using(crate::proofs::Marking::clear))]
fn mark_dumped_tables<E: Entry, const LEVELS: usize>(
    map: &mut Bitmap,
    avail: &Avail,
    windows: &Windows,
    image: &Image,
)
    requires { IsMarking E.kind_of E.DIRECTORY_HEIGHT E.expansion LEVELS image.now windows.now avail.now map.old }
    ensures marks { map.new ≡ marked windows.now (λ address. dumps_last_tables image.now.arch && is_last_table image.now address) avail.now map.old }
{
    if image.arch().profile().dumps_last_tables {
        mark_last_tables::<E, LEVELS>(map, avail, windows, image);
    }
}

/// The bitmap of the dumped pages, of those that have a bit.
pub(crate) fn dumped_bits(alloc: Global, image: &Image, avail: &Avail) -> Result<Bitmap, AllocError>
    requires { avail.now ≡ pages_of image.now.avail }
    ensures { IfOk result (λ map. map ≡ dumped_bits image.now) }
{
    match image.arch() {
        Arch::Amd64 => walked_bits::<Amd64, 4>(alloc, image, avail),
        Arch::Arm64 => walked_bits::<Arm64, 4>(alloc, image, avail),
        Arch::Riscv => {
            if image.levels() == 4 {
                walked_bits::<Riscv, 4>(alloc, image, avail)
            } else {
                walked_bits::<Riscv, 3>(alloc, image, avail)
            }
        }
    }
}

/// The same of an image whose page tables have these entries.
fn walked_bits<E: Entry, const LEVELS: usize>(
    alloc: Global,
    image: &Image,
    avail: &Avail,
) -> Result<Bitmap, AllocError>
    requires serves { Serves E.kind_of E.DIRECTORY_HEIGHT E.expansion LEVELS image.now }
    requires pages { avail.now ≡ pages_of image.now.avail }
    ensures { IfOk result (λ map. map ≡ dumped_bits image.now) }
{
    let mut map = Bitmap::new(alloc, avail.bits())?;
    let windows = image.windows();
    mark_wanted(&mut map, avail, &windows, image.wanted());
    mark_mapped::<E, LEVELS>(&mut map, avail, &windows, image);
    mark_dumped_tables::<E, LEVELS>(&mut map, avail, &windows, image);
    Ok(map)
}
