//! What the formats of FreeBSD kernel dumps are made of: numbers in fields of a buffer, in either
//! byte order, texts in fields of a fixed size, numbers as they are spelled on a command line, and
//! the architectures whose dumps are read and written, with the table of what differs between them.
//!
//! Numbers are moved by `byteorder`, and a text lies in an `arrayvec`. The names and versions of
//! the architectures are those of `sys/kerneldump.h` and `MACHINE_ARCH`.
#![tactic(auto)]

mod arch;
mod field;
mod label;
mod number;
mod page;
mod profile;
#[cfg(test)]
mod tests;

pub use arch::Arch;
pub use field::{
    get_u32_be, get_u32_le, get_u64_be, get_u64_le, put_u32_be, put_u32_le, put_u64_be, put_u64_le,
};
pub use label::Label;
pub use number::{BadNumber, read_number};
pub use page::Page;
pub use profile::Profile;
