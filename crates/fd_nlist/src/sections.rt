//! The section headers of a kernel, and its two tables among them.
ghost use Rattle.std.specs.Prelude.{◌≡◌, ◌+◌, ◌*◌, ◌/◌, ◌<◌, ◌≤◌, ◌^◌, length, IfOk, IfSome};
ghost use Rattle.fd_nlist.specs.Sections.{AreRead, linked_tables, section_at, string_fields, symbol_fields, symbol_table, tables_end};

use fd_bytes::{get_u32_le, get_u64_le};
use fd_elf::{HeaderField, SECTION_HEADER_SIZE, first_refused};

/// The greatest size of a table in bytes.
const TABLE_LIMIT: u64 = 1 << 26;

/// Of a section header, `Elf64_Shdr`: its own place in the file, and the fields that are read.
#[derive(Clone, Copy)]
pub(crate) struct SectionHeader {
    pub(crate) place: u64,
    pub(crate) sh_type: u32,
    pub(crate) sh_offset: u64,
    pub(crate) sh_size: u64,
    pub(crate) sh_link: u32,
    pub(crate) sh_entsize: u64,
}

/// The section headers of the symbol table and of its strings.
#[derive(Clone, Copy)]
pub(crate) struct Tables {
    pub(crate) symbols: SectionHeader,
    pub(crate) strings: SectionHeader,
}

impl Tables {
    /// Where the two tables end: the greater end.
    pub(crate) fn end(&self) -> u64
        requires { AreRead self.now }
        ensures { result ≡ tables_end self.now }
    {
        let symbols_end = self.symbols.sh_offset + self.symbols.sh_size;
        let strings_end = self.strings.sh_offset + self.strings.sh_size;
        symbols_end.max(strings_end)
    }
}

/// The first section that is a symbol table, `SHT_SYMTAB`, of section headers that stand in the file from `start` on.
pub(crate) fn symbol_table(headers: &[u8], start: u64) -> Option<SectionHeader>
    requires { start + length headers.now < 2 ^ 64 }
    ensures first { result ≡ symbol_table start headers.now }
    ensures inside { IfSome result (λ section. section.place + 64 ≤ start + length headers.now) }
{
    (0..headers.len() / SECTION_HEADER_SIZE)
        .map(|index| section_at(headers, start, index))
        .find(|section| section.sh_type == 2)
}

/// The symbol table and its strings, or the place of the first field of their section headers that isn't taken.
pub(crate) fn linked_tables(
    headers: &[u8],
    start: u64,
    symbols: SectionHeader,
) -> Result<Tables, u64>
    requires end { start + length headers.now < 2 ^ 64 }
    requires inside { symbols.place + 64 ≤ start + length headers.now }
    ensures tables { result ≡ linked_tables start headers.now symbols }
    ensures limits { IfOk result (λ tables. AreRead tables) }
{
    let count = headers.len() / SECTION_HEADER_SIZE;
    if let Some(place) = first_refused(&symbol_fields(&symbols, count)) {
        return Err(place);
    }
    let strings = section_at(headers, start, symbols.sh_link as usize);
    let tables = Tables { symbols, strings };
    match first_refused(&string_fields(&tables)) {
        Some(place) => Err(place),
        None => Ok(tables),
    }
}

// The section header of this index.
fn section_at(headers: &[u8], start: u64, index: usize) -> SectionHeader
    requires inside { index < length headers.now / 64 }
    requires fits { start + length headers.now < 2 ^ 64 }
    ensures header { result ≡ section_at start headers.now index }
    ensures inside { result.place + 64 ≤ start + length headers.now }
{
    let at = SECTION_HEADER_SIZE * index;
    SectionHeader {
        place: start + at as u64,
        sh_type: get_u32_le(headers, at + 4),
        sh_offset: get_u64_le(headers, at + 24),
        sh_size: get_u64_le(headers, at + 32),
        sh_link: get_u32_le(headers, at + 40),
        sh_entsize: get_u64_le(headers, at + 56),
    }
}

// What is looked at of the symbol table's header before its strings are known.
fn symbol_fields(symbols: &SectionHeader, count: usize) -> [HeaderField; 3]
    requires { symbols.now.place + 64 < 2 ^ 64 }
    ensures { result ≡ symbol_fields count symbols.now }
{
    [
        HeaderField {
            place: symbols.place + 56,
            is_taken: symbols.sh_entsize == 24,
        },
        HeaderField {
            place: symbols.place + 32,
            is_taken: symbols.sh_size % 24 == 0 && symbols.sh_size <= TABLE_LIMIT,
        },
        HeaderField {
            place: symbols.place + 40,
            is_taken: (symbols.sh_link as usize) < count,
        },
    ]
}

// What is looked at of both tables' headers then.
fn string_fields(tables: &Tables) -> [HeaderField; 4]
    requires symbols { tables.now.symbols.place + 64 < 2 ^ 64 }
    requires strings { tables.now.strings.place + 64 < 2 ^ 64 }
    ensures { result ≡ string_fields tables.now }
{
    let Tables { symbols, strings } = tables;
    [
        HeaderField {
            place: strings.place + 4,
            is_taken: strings.sh_type == 3,
        },
        HeaderField {
            place: strings.place + 32,
            is_taken: strings.sh_size <= TABLE_LIMIT,
        },
        HeaderField {
            place: symbols.place + 24,
            is_taken: symbols.sh_offset.checked_add(symbols.sh_size).is_some(),
        },
        HeaderField {
            place: strings.place + 24,
            is_taken: strings.sh_offset.checked_add(strings.sh_size).is_some(),
        },
    ]
}
