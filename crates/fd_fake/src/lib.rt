//! The outside of the program in memory, for tests and laws: a site whose partition, files and journal are real
//! data and told, a link and the ports of a server that play a script, a sink for printed text, and a site that stops
//! after a number of sectors. The calls of each are numbered, and those that are to fail can be chosen. Stands on the
//! traits of `fd_site`.
#![tactic(auto)]

mod bytes;
mod calls;
mod directory;
mod disk;
mod entry;
mod link_event;
mod mem_link;
mod mem_ports;
mod mem_sink;
mod mem_site;
mod ports_event;
mod stop_site;

pub use link_event::LinkEvent;
pub use mem_link::{Answer, MemLink};
pub use mem_ports::{Input, MemPorts};
pub use mem_sink::MemSink;
pub use mem_site::MemSite;
pub use ports_event::PortsEvent;
pub use stop_site::StopSite;
