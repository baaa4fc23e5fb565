//! What no clause says of reading, tried by examples: reads and walks of saved minidumps, what is printed of them, a
//! dump's whole way, and the words of a command line. Tests of `fd_kvm`, `fd_way` and `fd_words`, which stand here, so that
//! the code of those crates is proved once.
#![tactic(auto)]

#[cfg(test)]
mod commands;
#[cfg(test)]
mod drills;
#[cfg(test)]
mod printed_pages;
#[cfg(test)]
mod reads;
#[cfg(test)]
mod vmcores;
#[cfg(test)]
mod walks;
