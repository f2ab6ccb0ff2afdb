//! What is said to a daemon, kept. It stands here, and not among the tests, since `specs/` says what it means.

use rk_client::PeerFault;
use rk_ctl::{Found, Search};
use rk_message::{Ask, Reply};

/// The path of a socket, and for how many seconds its daemon is waited for.
#[derive(Drop)]
pub struct Socket {
    /// The path.
    pub path: String,
    /// The seconds, 0 for no limit.
    pub seconds: u32,
}

/// What is said to the daemon at the socket of a path, and what comes back.
#[derive(Drop)]
pub enum ToDaemon {
    /// An ask, after the greeting if there is one.
    Asked(Socket, Option<Ask>, Ask, Result<Reply, PeerFault>),
    /// A search for keys, after the greeting.
    Searched(Socket, Ask, Search, Result<Found, PeerFault>),
}
