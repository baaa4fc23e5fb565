//! The symbol of a name, in a symbol table and its strings.
ghost use Rattle.std.specs.Prelude.{◌≡◌, ℕ, ◌*◌, ◌/◌, ◌<◌, ◌≤◌, ◌^◌, List, length};
ghost use Rattle.fd_bytes.specs.Label.{IsText};
ghost use Rattle.fd_nlist.specs.Symbols.{entries_in, entry_at, first_symbol, has_name, is_named, name_at, symbol_of};

use fd_bytes::{get_u32_le, get_u64_le};
use fd_elf::get_u16_le;

/// The size of a symbol, `Elf64_Sym`, in bytes.
const SYMBOL_SIZE: usize = 24;

/// A symbol that has a section.
#[derive(Clone, Copy, PartialEq, Eq, Debug)]
pub struct Symbol {
    /// Its place in the symbol table, the first being 0.
    pub index: u32,
    /// `st_value`: in a kernel its address.
    pub value: u64,
    /// `st_size`: the size in bytes of what it names.
    pub size: u64,
}

/// The first symbol of this name that has a section, in the order of the table.
pub(crate) fn first_symbol(symbols: &[u8], strings: &[u8], name: &[u8]) -> Option<Symbol>
    requires some { 0 < length name.now }
    requires text { IsText name.now }
    requires limit { length symbols.now ≤ 2 ^ 26 }
    ensures { result ≡ first_symbol (entries_in symbols.now strings.now) name.now }
{
    for index in 0..symbols.len() / SYMBOL_SIZE {
        if is_named(symbols, strings, index, name) {
            return Some(symbol_at(symbols, index));
        }
    }
    None
}

// Whether the symbol of this index has a section and this name.
fn is_named(symbols: &[u8], strings: &[u8], index: usize, name: &[u8]) -> bool
    requires inside { index < length symbols.now / 24 }
    requires some { 0 < length name.now }
    requires text { IsText name.now }
    ensures { result ≡ is_named name.now (entry_at symbols.now strings.now index) }
{
    let at = SYMBOL_SIZE * index;
    get_u16_le(symbols, at + 6) != 0 && has_name(strings, get_u32_le(symbols, at), name)
}

// Whether the name at this place of the strings is this one. Its end is looked at first, which most names don't share.
fn has_name(strings: &[u8], place: u32, name: &[u8]) -> bool
    requires some { 0 < length name.now }
    requires text { IsText name.now }
    ensures { result ≡ has_name name.now (name_at strings.now place) }
{
    let start = place as usize;
    let end = start + name.len();
    if strings.len() < end {
        return false;
    }
    if end < strings.len() && strings[end] != 0 {
        return false;
    }
    strings[start..end] == name[..]
}

// The symbol of this index.
fn symbol_at(symbols: &[u8], index: usize) -> Symbol
    requires inside { index < length symbols.now / 24 }
    requires limit { length symbols.now ≤ 2 ^ 26 }
    ensures { (strings : List ℕ) → result ≡ symbol_of (entry_at symbols.now strings index) }
{
    let at = SYMBOL_SIZE * index;
    Symbol {
        index: index as u32,
        value: get_u64_le(symbols, at + 8),
        size: get_u64_le(symbols, at + 16),
    }
}
