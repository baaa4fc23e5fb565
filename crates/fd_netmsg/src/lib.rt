//! The messages of netdump(4), both ways: what a client sends to a server, and the acknowledgement of its number that
//! the server sends back. `put_message` writes a message and `read_message` reads one, `put_ack` and `read_ack` do the
//! same for acknowledgements, and the laws in `laws` say that each is read back as it was written.
//!
//! It stands on the fields of `fd_bytes`, and follows `sys/netinet/netdump/netdump.h`: all numbers are big-endian.
#![tactic(auto)]

mod ack;
pub mod laws;
mod message;
#[cfg(test)]
mod tests;

pub use ack::{put_ack, read_ack};
pub use message::{FINISHED, HERALD, KDH, KEY, Message, VMCORE, put_message, read_message};
