//! Why the words of a command cannot be made.
ghost use Rattle.std.specs.Prelude.{◌≡◌};

use thiserror::Error;

/// Why the words of a command cannot be made. The leftmost argument that fails decides.
///
/// It is shown as its code, `X1` to `X4`.
#[derive(Clone, Copy, Debug, PartialEq, Eq, Error)]
pub enum ExpandFault {
    /// `%{type:description}` names no key with a payload that the requester can find.
    #[error("X1")]
    NoKey,
    /// The payload is not UTF-8, or has a zero byte.
    #[error("X2")]
    NotText,
    /// The words so far, each with one byte more, pass 65,536 bytes.
    #[error("X3")]
    TooLong,
    /// An allocation failed, or the lookup was out of memory.
    #[error("X4")]
    NoMemory,
}

impl ExpandFault {
    ghost use Rattle.rk_macro.specs.Codes.{code_of};

    /// The code, `X1` to `X4`, as it is shown.
    pub fn code(self) -> &'static str
        ensures { result.now ≡ code_of self }
    {
        match self {
            ExpandFault::NoKey => "X1",
            ExpandFault::NotText => "X2",
            ExpandFault::TooLong => "X3",
            ExpandFault::NoMemory => "X4",
        }
    }
}
