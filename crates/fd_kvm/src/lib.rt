//! Kernel memory out of a saved minidump: the bytes at kernel addresses, through the kernel window's page directory and the
//! direct map, as kvm_read of kvm(3) gives them; and its dumped pages, one after another, as kvm_walk_pages does. Stands on
//! `fd_vmcore` for the file's sections, on `fd_cache` for its pages and on `fd_pte` for entries.
#![tactic(auto)]

mod block;
mod fault;
mod page;
mod piece;
mod read;
mod reader;
mod run;
mod span;
mod vmcore;
mod walk;

pub use fault::ReadFault;
pub use page::{Page, Visit};
pub use reader::Kvm;
