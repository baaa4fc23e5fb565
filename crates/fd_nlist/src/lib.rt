//! The symbols of a kernel: where its symbol table and that table's strings stand in the file, and the symbol of a name, as
//! nlist(3) finds it.
//!
//! Stands on `fd_site` for the file and on `fd_elf` for what every ELF file shares. Follows the System V ABI's chapters on
//! sections and symbol tables, whose structs are in FreeBSD's `sys/elf64.h` (elf(5)).
#![tactic(auto)]

mod fault;
mod header;
mod sections;
mod symbol;
mod symbols;

pub use fault::KernelFault;
pub use symbol::Symbol;
pub use symbols::Symbols;
