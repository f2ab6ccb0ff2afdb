//! What a ring is for.
use rk_names::Serial;

/// Whose ring it is (keyrings(7), "Anchoring keys").
#[derive(Clone, Copy, Debug, PartialEq, Eq)]
pub enum RingKind {
    /// A session's own (thread-keyring(7)).
    Thread,
    /// A session's own (process-keyring(7)).
    Process,
    /// One that sessions of a user may share (session-keyring(7)).
    Session,
    /// The one of a user, in all contexts of that user (user-keyring(7)).
    User,
}

/// A ring to be made, under a serial that no other ring has.
#[derive(Clone, Copy, Debug, PartialEq, Eq)]
pub struct NewRing {
    /// The serial by which it is found.
    pub serial: Serial,
    /// What it is for.
    pub kind: RingKind,
    /// Whose it is.
    pub uid: u32,
}
