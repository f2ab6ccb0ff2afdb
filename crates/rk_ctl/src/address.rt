//! Where a daemon is asked.

/// The socket of a daemon, and for how long it is waited for.
#[derive(Clone, Copy)]
pub struct Address<'a> {
    /// The path of the socket.
    pub path: &'a str,
    /// For how many seconds, from connecting to the end of the last reply; 0 for as long as it takes.
    pub seconds: u32,
}
