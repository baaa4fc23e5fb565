//! A dump on a partition: whether one can be there, and its writer. The dump stands between two header blocks at the
//! partition's end; it is written body first, then the leading block, then the trailing one, so that a machine that
//! stops leaves no header over half a dump. It stands on the site of `fd_site` and the headers of `fd_kdh`, and
//! follows FreeBSD's `sys/kern/kern_shutdown.c` and `sys/kerneldump.h`.
#![tactic(auto)]

mod clearing;
mod dump;
mod marked;
mod outcome;
mod partition;
#[cfg(test)]
mod tests;
mod writes;

pub use clearing::clear_sector;
pub use dump::write_dump;
pub use marked::write_marked;
pub use outcome::{NoRoom, PartFault, Wrote};
pub use partition::{BadPartition, good_partition, need_of};
