//! The server of netdump(4): it takes the datagrams of clients, and keeps the dump of each in the files of savecore(8).
//! A server is a machine over what it took and answered: each reply, and what a call adds to the site's journal, is said
//! of the history so far, and the laws in `laws` speak of whole histories.
//!
//! It stands on the messages of `fd_netmsg`, the set of numbers of `fd_cover`, the header of `fd_kdh`, the text of
//! `fd_info`, and a site.
#![tactic(auto)]

mod files;
mod header;
pub mod laws;
mod limits;
mod number;
mod pace;
mod phase;
mod record;
mod reply;
mod server;
mod serving;
mod step;

pub use limits::{Received, ServeFault, ServeLimits, Served};
pub use phase::Phase;
pub use record::Record;
pub use reply::{Reply, Skip};
pub use server::Server;
pub use serving::serve;
