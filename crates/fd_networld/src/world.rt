//! A world.

use crate::runs::Runs;
use crate::trace::Trace;
use fd_fake::MemSite;
use fd_netclient::Client;
use fd_netserver::Server;

/// One client, the server that is running, the site of all servers, what the client sent, got and found silent, and what
/// each server took and answered; the last run is that of `server`.
#[derive(Drop)]
pub struct World {
    pub client: Client,
    pub server: Server,
    pub site: MemSite,
    /// Whether the site's next call is to fail.
    pub waiting: bool,
    pub trace: Trace,
    pub runs: Runs,
}
