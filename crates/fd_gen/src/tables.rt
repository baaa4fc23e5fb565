//! The words of the page tables.
ghost use Rattle.std.specs.Prelude.{◌≡◌, ◌^◌, ◌<◌, ◌≤◌};
ghost use Rattle.fd_gen.specs.Entries.{kernel_index, upper_entry, directory_entry, last_entry};

use crate::entries::{large_entry, page_entry, table_entry};
use crate::layout::{
    ENTRIES, FIRST_DATA, data_address, kernel_base, last_tables, table_address, upper_tables,
};
use crate::segment::Words;
use fd_bytes::Arch;

/// The page tables of an image with so many pages of data.
#[derive(Clone, Copy)]
pub struct Tables {
    pub arch: Arch,
    pub pages: u64,
    ghost few: { pages < 2 ^ 15 },
}

impl Words for Tables {
    ghost use Rattle.fd_gen.specs.Entries.{entry_at};

    ghost word_at = { λ tables table index. entry_at tables.arch tables.pages table index };

    #[tactic(auto, unfolding(crate::specs::Entries::entry_at))]
    fn word(&self, page: u64, index: u64) -> u64 {
        let above = upper_tables(self.arch);
        if page + 1 < above {
            upper_entry(self.arch, page, index)
        } else if page + 1 == above {
            directory_entry(self.arch, self.pages, index)
        } else {
            last_entry(self.arch, self.pages, ENTRIES * (page - above) + index)
        }
    }
}

// The index of the kernel window's first address among the entries of a height.
fn kernel_index(arch: Arch, height: u32) -> u64
    requires { height ≤ 3 }
    ensures { result ≡ kernel_index arch height }
{
    (kernel_base(arch) >> (12 + 9 * height)) % ENTRIES
}

// An entry of a table above height 1: the window's first entry names the next table.
fn upper_entry(arch: Arch, table: u64, index: u64) -> u64
    requires { table < 3 }
    ensures { result ≡ upper_entry arch table index }
{
    let height = (upper_tables(arch).saturating_sub(table)) as u32;
    if index == kernel_index(arch, height) {
        table_entry(arch, table_address(table + 1))
    } else {
        0
    }
}

// An entry of the table of height 1.
fn directory_entry(arch: Arch, pages: u64, index: u64) -> u64
    requires { pages < 2 ^ 15 }
    ensures { result ≡ directory_entry arch pages index }
{
    let last = last_tables(pages);
    if index < last {
        table_entry(arch, table_address(upper_tables(arch) + index))
    } else if index == last {
        large_entry(arch, FIRST_DATA)
    } else {
        0
    }
}

// An entry of a last-level table, by its number among those of all last-level tables.
fn last_entry(arch: Arch, pages: u64, page: u64) -> u64
    requires { pages < 2 ^ 15 }
    ensures { result ≡ last_entry arch pages page }
{
    if page < pages && page % 3 != 2 {
        page_entry(arch, page, data_address(pages, page))
    } else {
        0
    }
}
