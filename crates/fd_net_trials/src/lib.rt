//! What no clause says of the network, tried by examples: sendings of a dump, what servers answer, and worlds of both.
//! Tests of `fd_netclient`, `fd_netserver` and `fd_networld`, which stand here, so that the code of those crates is proved
//! once.
#![tactic(auto)]

#[cfg(test)]
mod messages;
#[cfg(test)]
mod sendings;
#[cfg(test)]
mod servings;
#[cfg(test)]
mod worlds;
