//! Why a call is refused.
ghost use Rattle.std.specs.Prelude.{◌≡◌};

use rk_names::Errno;
use thiserror::Error;

/// Why a call is refused. A refused call changes nothing.
#[derive(Clone, Copy, Debug, PartialEq, Eq, Error)]
pub enum RingFault {
    /// There is no such ring.
    #[error("there is no such ring")]
    NoRing,
    /// The ring has 256 links and none that would give way, or there would be more than 1,024 rings.
    #[error("a limit is reached")]
    Full,
    /// The key is not linked in the ring.
    #[error("the key is not linked there")]
    NotLinked,
    /// The ring is not one of the context.
    #[error("the ring is not one of the context")]
    Elsewhere,
    /// An allocation failed.
    #[error("out of memory")]
    NoMemory,
}

impl RingFault {
    ghost use Rattle.std.specs.Prelude.{◌≡◌};
    ghost use Rattle.rk_rings.specs.Faults.{fault_errno};

    /// What it is answered as (keyctl_link(3), keyctl_unlink(3), "ERRORS").
    pub fn errno(self) -> Errno
        ensures { result ≡ fault_errno self }
    {
        match self {
            RingFault::NoRing => Errno::Enokey,
            RingFault::Full => Errno::Edquot,
            RingFault::NotLinked => Errno::Enoent,
            RingFault::Elsewhere => Errno::Eacces,
            RingFault::NoMemory => Errno::Enomem,
        }
    }
}
