//! Is a dump there? `judge` reads the headers before and behind it and answers as savecore(8) does. The laws in `laws`
//! say what it answers after a dump and after a crash in one. It stands on the dump header of FreeBSD's
//! `sys/kerneldump.h`.
#![tactic(auto)]

pub mod laws;
mod verdict;
mod why;

pub use verdict::{Verdict, judge};
pub use why::Why;
