//! Why a call is refused.
ghost use Rattle.std.specs.Prelude.{◌≡◌};

use rk_names::Errno;
use thiserror::Error;

/// Why a call is refused. A refused call changes nothing.
#[derive(Clone, Copy, Debug, PartialEq, Eq, Error)]
pub enum AuthFault {
    /// The session has no authority for that key.
    #[error("the session has no authority for that key")]
    NoKey,
    /// The authority is spent.
    #[error("the authority is spent")]
    Revoked,
    /// The session has not assumed the key's authority.
    #[error("the session has not assumed the key's authority")]
    NotOwner,
    /// The session would wait for itself, by way of other handlers.
    #[error("the wait would close a circle")]
    Circle,
    /// There are 64 clients, or the chain of authorities has 8 links.
    #[error("a limit is reached")]
    Quota,
    /// An allocation failed.
    #[error("out of memory")]
    NoMemory,
}

impl AuthFault {
    ghost use Rattle.std.specs.Prelude.{◌≡◌};
    ghost use Rattle.rk_auth.specs.Faults.{fault_errno};

    /// What it is answered as.
    pub fn errno(self) -> Errno
        ensures { result ≡ fault_errno self }
    {
        match self {
            AuthFault::NoKey => Errno::Enokey,
            AuthFault::Revoked => Errno::Ekeyrevoked,
            AuthFault::NotOwner => Errno::Eperm,
            AuthFault::Circle => Errno::Edeadlk,
            AuthFault::Quota => Errno::Edquot,
            AuthFault::NoMemory => Errno::Enomem,
        }
    }
}
