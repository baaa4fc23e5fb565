//! The outside of the program over the real thing: a directory of files as a site, standard output as a sink, and UDP as
//! a link and as the ports of a server. They tell no contents, count each fault, and say the first on standard error: the
//! trusted edge of the program. Beside them stands what has to be done before anything is opened.
#![tactic(auto)]

mod claim;
mod dir_site;
mod directory;
mod fault;
#[cfg(test)]
mod file_tests;
mod held;
mod lock;
mod opened;
mod partition;
mod standard;
mod std_sink;
#[cfg(test)]
mod tests;
mod udp;
mod udp_link;
mod udp_ports;

pub use claim::{Access, Claim};
pub use dir_site::DirSite;
pub use fault::say;
pub use standard::hold_standard;
pub use std_sink::StdSink;
pub use udp_link::UdpLink;
pub use udp_ports::UdpPorts;
