//! Why nothing is printed of a configuration.
ghost use Rattle.std.specs.Prelude.{◌≡◌};
ghost use Rattle.rk_preview.specs.Rules.{rule_text, failure_text};

use rk_conf::{ConfFault, ConfKind};
use rk_macro::ExpandFault;
use thiserror::Error;

/// Why nothing is printed of a configuration.
#[derive(Clone, Copy, Debug, PartialEq, Eq, Error)]
pub enum Fault {
    /// It has a fault. It is shown as `conf line 3: C1: fewer than five fields`.
    #[error("conf {fault}: {rule}", fault = .0, rule = rule(.0.kind))]
    Conf(ConfFault),
    /// No line is for the request. It is shown as `no line`.
    #[error("no line")]
    NoLine,
    /// The words of the chosen line, by its number, can't be made. It is shown as `line 3: X3: ..`.
    #[error("line {0}: {1}: {failure}", failure = failure(*.1))]
    NoWords(usize, ExpandFault),
    /// There was no memory for the text. It is shown as `memory`.
    #[error("memory")]
    NoMemory,
}

/// The rule of a line that is broken, in words, as reqkeyd.conf(5) has them under "DIAGNOSTICS".
pub fn rule(kind: ConfKind) -> &'static str
    ensures { result.now ≡ rule_text kind }
{
    match kind {
        ConfKind::TooLong => "more than 8192 bytes",
        ConfKind::BadByte => "not UTF-8, or a zero byte",
        ConfKind::TooFewFields => "fewer than five fields",
        ConfKind::ProgNotAbsolute => "the program does not begin with /",
        ConfKind::BadMacro => "an argument begins with % and is no macro",
        ConfKind::NoMemory => "no memory",
    }
}

/// Why words can't be made, in words.
fn failure(fault: ExpandFault) -> &'static str
    ensures { result.now ≡ failure_text fault }
{
    match fault {
        ExpandFault::NoKey =>
            "an argument %{..} is the payload of a key, which only a daemon can look up",
        ExpandFault::NotText => "a payload is no text",
        ExpandFault::TooLong => "the words are more than 65536 bytes",
        ExpandFault::NoMemory => "no memory",
    }
}
