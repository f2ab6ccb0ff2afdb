//! Why something is refused: error numbers, the errors of keys, the faults of names.
ghost use Rattle.std.specs.Prelude.{◌≡◌};

use std::fmt;
use thiserror::Error;

/// Linux's error numbers, as far as the daemon answers them (errno(3), request_key(2) "ERRORS").
#[derive(Clone, Copy, Debug, PartialEq, Eq)]
pub enum Errno {
    /// Only the own authority may do this; or a type begins with a dot.
    Eperm,
    /// The key is not linked in that ring.
    Enoent,
    /// Out of memory: nothing changed, unless it was for the reply alone.
    Enomem,
    /// The key or ring is not one of the asking context.
    Eacces,
    /// The key is under construction, or the session is there or waits already.
    Ebusy,
    /// A number, a field or an event that makes no sense here.
    Einval,
    /// Waiting would close a circle of constructions.
    Edeadlk,
    /// A limit is reached: keys of a user, links of a ring, rings, serials, clients, depth.
    Edquot,
    /// There is no such key, and none is to be made.
    Enokey,
    /// The key expired.
    Ekeyexpired,
    /// The key was revoked.
    Ekeyrevoked,
    /// The handler rejected the key.
    Ekeyrejected,
}

impl Errno {
    ghost use Rattle.std.specs.Prelude.{◌≡◌};
    ghost use Rattle.rk_names.specs.Numbers.{errno_number, errno_named, errno_name};

    /// The number on Linux's generic ABI (errno(3)).
    pub fn number(self) -> u8
        ensures { result ≡ errno_number self }
    {
        match self {
            Errno::Eperm => 1,
            Errno::Enoent => 2,
            Errno::Enomem => 12,
            Errno::Eacces => 13,
            Errno::Ebusy => 16,
            Errno::Einval => 22,
            Errno::Edeadlk => 35,
            Errno::Edquot => 122,
            Errno::Enokey => 126,
            Errno::Ekeyexpired => 127,
            Errno::Ekeyrevoked => 128,
            Errno::Ekeyrejected => 129,
        }
    }

    /// The error with this number; `None` for a number that the daemon never answers.
    pub fn from_number(number: u8) -> Option<Errno>
        ensures { result ≡ errno_named number }
    {
        let errno = match number {
            1 => Errno::Eperm,
            2 => Errno::Enoent,
            12 => Errno::Enomem,
            13 => Errno::Eacces,
            16 => Errno::Ebusy,
            22 => Errno::Einval,
            35 => Errno::Edeadlk,
            122 => Errno::Edquot,
            126 => Errno::Enokey,
            127 => Errno::Ekeyexpired,
            128 => Errno::Ekeyrevoked,
            129 => Errno::Ekeyrejected,
            _ => return None,
        };
        Some(errno)
    }

    /// The name that errno(3) gives it, as `ENOKEY`.
    pub fn name(self) -> &'static str
        ensures { result.now ≡ errno_name self }
    {
        match self {
            Errno::Eperm => "EPERM",
            Errno::Enoent => "ENOENT",
            Errno::Enomem => "ENOMEM",
            Errno::Eacces => "EACCES",
            Errno::Ebusy => "EBUSY",
            Errno::Einval => "EINVAL",
            Errno::Edeadlk => "EDEADLK",
            Errno::Edquot => "EDQUOT",
            Errno::Enokey => "ENOKEY",
            Errno::Ekeyexpired => "EKEYEXPIRED",
            Errno::Ekeyrevoked => "EKEYREVOKED",
            Errno::Ekeyrejected => "EKEYREJECTED",
        }
    }
}

impl fmt::Display for Errno {
    fn fmt<W: fmt::Write>(&self, f: &mut fmt::Formatter<W>) -> fmt::Result {
        f.write_str(self.name())
    }
}

/// Why a key can't be used. If several keys match, the first in this order is returned
/// (request-key.rst, "The search algorithm").
#[derive(Clone, Copy, Debug, PartialEq, Eq)]
pub enum KeyError {
    /// It was revoked: EKEYREVOKED.
    Revoked,
    /// It has expired: EKEYEXPIRED.
    Expired,
    /// Its handler has rejected it: EKEYREJECTED.
    Rejected,
    /// There is none, or its handler has made none: ENOKEY.
    NoKey,
}

impl KeyError {
    ghost use Rattle.std.specs.Prelude.{◌≡◌};
    ghost use Rattle.rk_names.specs.Numbers.{key_errno, key_error_named};

    /// What it is answered as.
    pub fn errno(self) -> Errno
        ensures { result ≡ key_errno self }
    {
        match self {
            KeyError::Revoked => Errno::Ekeyrevoked,
            KeyError::Expired => Errno::Ekeyexpired,
            KeyError::Rejected => Errno::Ekeyrejected,
            KeyError::NoKey => Errno::Enokey,
        }
    }

    /// The error with this errno's number, 126 to 129; `None` for any other.
    pub fn from_number(number: u32) -> Option<KeyError>
        ensures { result ≡ key_error_named number }
    {
        match number {
            126 => Some(KeyError::NoKey),
            127 => Some(KeyError::Expired),
            128 => Some(KeyError::Revoked),
            129 => Some(KeyError::Rejected),
            _ => None,
        }
    }
}

/// Why a name or a payload is refused. They are found in this order.
#[derive(Clone, Copy, Debug, PartialEq, Eq, Error)]
pub enum NameFault {
    /// No byte, where at least one is wanted.
    #[error("it is empty")]
    Empty,
    /// More bytes than the limit of its kind.
    #[error("it is too long")]
    TooLong,
    /// A type that begins with a dot, which the kernel keeps for itself (add_key(2), "ERRORS").
    #[error("a type begins with a dot")]
    Dot,
    /// Not UTF-8, or a zero byte.
    #[error("it is not text without a zero byte")]
    Byte,
    /// The rule is kept, and there was no memory for a copy.
    #[error("out of memory")]
    NoMemory,
}

impl NameFault {
    ghost use Rattle.std.specs.Prelude.{◌≡◌};
    ghost use Rattle.rk_names.specs.Numbers.{fault_errno};

    /// What it is answered as: EPERM for a dot, ENOMEM when out of memory, else EINVAL.
    pub fn errno(self) -> Errno
        ensures { result ≡ fault_errno self }
    {
        match self {
            NameFault::Dot => Errno::Eperm,
            NameFault::NoMemory => Errno::Enomem,
            NameFault::Empty | NameFault::TooLong | NameFault::Byte => Errno::Einval,
        }
    }
}
