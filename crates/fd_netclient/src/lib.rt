//! The client of netdump(4): what it sends of a dump, and what it does with what it hears. `Client` is a machine without
//! a link, without memory and without time: each call is one step of a client run. The laws in `laws` tie the machine to
//! the traces that a reader checks: rounds, batches, complete traces.
//!
//! It stands on the messages of `fd_netmsg`, the header of `fd_kdh` and the trace of a link of `fd_site`. The messages
//! are those of `sys/netinet/netdump/netdump.h`; chunks of 4096 bytes, one a datagram, and batches of 64 are its own.
#![tactic(auto)]

mod acknowledged;
mod batch;
mod client;
mod datagrams;
mod fault;
pub mod laws;
mod limits;
mod marks;
mod sending;

pub use client::{Client, Want};
pub use fault::ClientFault;
pub use limits::Limits;
pub use sending::send_dump;
