//! Words of a request that a line hands to its program where an option may stand.
ghost use Rattle.std.specs.Prelude.{◌≡◌};
ghost use Rattle.rk_preview.specs.Exposures.{exposed_in, is_dashes, is_open, taken_for};

use rk_conf::{Argument, Line};
use thiserror::Error;

/// A text of a request that is a word of a command, by its macro.
#[derive(Clone, Copy, Debug, PartialEq, Eq, Error)]
pub enum Foreign {
    /// The type of the key.
    #[error("%t")]
    Type,
    /// Its description.
    #[error("%d")]
    Description,
    /// The callout.
    #[error("%c")]
    Callout,
}

/// The first argument of the line that is a text of the request and may begin with anything, since the pattern that it fits begins with `*`. Nothing if there
/// is none before the first argument `--`, after which a program takes no options.
pub fn exposed(line: &Line) -> Option<Foreign>
    ensures { result ≡ exposed_in line.now line.now.args }
{
    exposed_in(line, line.args.as_slice())
}

/// The same, of these arguments of the line.
fn exposed_in(line: &Line, arguments: &[Argument]) -> Option<Foreign>
    ensures { result ≡ exposed_in line.now arguments.now }
{
    match arguments {
        [] => None,
        [argument, others @ ..] => {
            if is_dashes(argument) {
                return None;
            }
            match taken_for(line, argument) {
                Some(foreign) => Some(foreign),
                None => exposed_in(line, others),
            }
        }
    }
}

/// Whether the argument is `--`.
fn is_dashes(argument: &Argument) -> bool
    ensures { result ≡ is_dashes argument.now }
{
    match argument {
        Argument::Literal(word) => word.as_str() == "--",
        _ => false,
    }
}

/// Which text of the request the argument is, if that may begin with anything.
fn taken_for(line: &Line, argument: &Argument) -> Option<Foreign>
    ensures { result ≡ taken_for line.now argument.now }
{
    match argument {
        Argument::Type if is_open(line.typ.as_bytes()) => Some(Foreign::Type),
        Argument::Description if is_open(line.desc.as_bytes()) => Some(Foreign::Description),
        Argument::Callout if is_open(line.callout.as_bytes()) => Some(Foreign::Callout),
        _ => None,
    }
}

/// Whether the pattern begins with `*`.
fn is_open(pattern: &[u8]) -> bool
    ensures { result ≡ is_open pattern.now }
{
    matches!(pattern, [b'*', ..])
}
