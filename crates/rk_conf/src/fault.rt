//! Why a configuration is refused.
ghost use Rattle.std.specs.Prelude.{◌≡◌};

use thiserror::Error;

/// Which rule of a line is broken, in the order in which the rules are tried; out of memory is last.
///
/// It is shown as its code, `C1` to `C6`.
#[derive(Clone, Copy, Debug, PartialEq, Eq, Error)]
pub enum ConfKind {
    /// The line has more than 8,192 bytes, its white space counted and its newline not.
    #[error("C4")]
    TooLong,
    /// The line has a zero byte, or is not UTF-8.
    #[error("C6")]
    BadByte,
    /// The line has fewer than five fields: op, type, description, callout and program.
    #[error("C1")]
    TooFewFields,
    /// The program, without one leading `|`, does not begin with `/`.
    #[error("C2")]
    ProgNotAbsolute,
    /// An argument begins with `%` and is no macro.
    #[error("C3")]
    BadMacro,
    /// An allocation failed. No line of the text breaks a rule.
    #[error("C5")]
    NoMemory,
}

impl ConfKind {
    ghost use Rattle.rk_conf.specs.Codes.{code_of};

    /// The code, `C1` to `C6`, as it is shown.
    pub fn code(self) -> &'static str
        ensures { result.now ≡ code_of self }
    {
        match self {
            ConfKind::TooFewFields => "C1",
            ConfKind::ProgNotAbsolute => "C2",
            ConfKind::BadMacro => "C3",
            ConfKind::TooLong => "C4",
            ConfKind::NoMemory => "C5",
            ConfKind::BadByte => "C6",
        }
    }
}

/// The first line that is refused, and the first rule that it breaks.
///
/// It is shown as `line 3: C1`.
#[derive(Clone, Copy, Debug, PartialEq, Eq, Error)]
#[error("line {line}: {kind}")]
pub struct ConfFault {
    /// The number of the line from 1, ignored lines counted; for out of memory the line at which it happened.
    pub line: usize,
    /// The first rule that the line breaks.
    pub kind: ConfKind,
}
