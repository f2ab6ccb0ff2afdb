//! What is said in HELLO.

use rk_names::Serial;

/// What is said in HELLO: who asks, which rings of its own it wants, and the session ring that it joins (keyctl_join_session_keyring(3)).
#[derive(Clone, Copy, Debug, PartialEq, Eq)]
pub struct Greeting {
    /// The client's uid.
    pub uid: u32,
    /// The client's gid.
    pub gid: u32,
    /// Whether it wants a thread ring.
    pub thread: bool,
    /// Whether it wants a process ring.
    pub process: bool,
    /// The session ring that it joins, `None` for a new one.
    pub join: Option<Serial>,
}
