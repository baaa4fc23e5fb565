//! The texts that savecore(8) keeps beside a saved dump: `info.N`, which says what the dump's header said, and `bounds`,
//! which has the number of the next one; each is written and read. Also the names of these files, and what it means that
//! a dump is saved in them.
//!
//! It stands on the dump header of `fd_kdh` and on the labels and numbers of `fd_bytes`. No call takes memory.
#![tactic(auto)]

mod bounds;
mod info;
mod keys;
mod lines;
mod name;
mod printing;
mod reading;

pub use bounds::{print_bounds, read_bounds};
pub use info::Info;
pub use name::{BOUNDS_NAME, info_name, vmcore_name};
pub use printing::print_info;
pub use reading::read_info;
