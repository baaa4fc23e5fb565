//! The outside of the program, as four small traits: a site (one partition and one directory of files), a link
//! to a server, the ports of a server, and a sink for printed text. Each has a meaning that contracts see, told by
//! the implementations in memory and not by those over the real thing, and a count of faults: a call answers
//! `Failed` only where that count rose. What was asked of a site is a journal, of which a machine that stops
//! leaves a cut.
#![tactic(auto)]

mod fault;
mod link;
mod name;
mod pieces;
mod ports;
mod sink;
mod site;
mod slice_pieces;

pub use fault::{Failed, SiteFault};
pub use link::{Link, Polled};
pub use name::good_name;
pub use pieces::Pieces;
pub use ports::{Peer, Ports, Taken};
pub use sink::Sink;
pub use site::Site;
pub use slice_pieces::SlicePieces;
