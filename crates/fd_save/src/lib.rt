//! savecore(8): a dump on a partition is saved to files, and then cleared. `save` keeps the dump in `vmcore.N`, what is
//! known of it in `info.N`, and the next number in `bounds`, in this order, each synced before the next; `clear` marks the
//! dump as saved. So a machine that stops on the way leaves the dump on the partition, or whole in its files; `laws` has
//! that.
//!
//! It stands on `fd_judge`, which finds the dump, and on the texts of `fd_info`. No call takes memory.
#![tactic(auto)]

mod clearing;
mod fault;
mod files;
pub mod laws;
mod number;
mod saved;
mod saving;

pub use clearing::{clear, clear_only};
pub use fault::SaveFault;
pub use saved::{Options, Saved};
pub use saving::save;
