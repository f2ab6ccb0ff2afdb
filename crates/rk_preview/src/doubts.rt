//! What is allowed in a configuration, and hardly meant.
ghost use Rattle.std.specs.Prelude.{◌≡◌, ◌==◌, ◌↔◌, IsTrue, IfSome, IsNone, bit_and, codes, not};
ghost use Rattle.std.specs.List.{All, list_any};
ghost use Rattle.rk_glob.specs.Wildcard.{Fits};
ghost use Rattle.rk_preview.specs.Doubts.{IsHiddenBy, begins_with_hash};

use crate::exposure::Foreign;
use rk_conf::{Argument, Line};
use rk_glob::matches;
use thiserror::Error;

/// What is allowed in a configuration, and hardly meant.
#[derive(Clone, Copy, Debug, PartialEq, Eq, Error)]
pub enum Doubt {
    /// There is no line.
    #[error("no line names a program")]
    NoLine,
    /// No request has the operation of the line.
    #[error("line {0}: the operation is neither create nor negate")]
    Operation(usize),
    /// The second line is for all requests for which the first one is, and stands before it.
    #[error("line {0}: it is never chosen, since line {1} fits whatever it fits")]
    Hidden(usize, usize),
    /// An argument of the line looks as a comment.
    #[error("line {0}: a # within a line begins no comment")]
    Comment(usize),
    /// A text of a request is an argument of the line, and may look as an option of the program.
    #[error("line {0}: {1} may begin with a dash, as an option does; an argument -- before it ends the options")]
    Exposed(usize, Foreign),
    /// Others than its owner may write the file.
    #[error("others than its owner may write the configuration, and have any program started")]
    Writable,
}

/// Whether no request has the operation of the line.
pub fn is_of_no_request(line: &Line) -> bool
    ensures { IsTrue result ↔ ((Fits line.now.op (codes "create") → ⊥) × (Fits line.now.op (codes "negate") → ⊥)) }
{
    !matches(line.op.as_bytes(), b"create") && !matches(line.op.as_bytes(), b"negate")
}

/// The first of these lines that is for all requests for which the line is: each of its patterns fits the other one, as a text. A `*` of that text can be
/// taken by a `*` alone, so the pattern fits whatever stands in its place.
pub fn hidden_by<'a>(before: &'a [Line], line: &Line) -> Option<&'a Line>
    ensures none { IsNone result ↔ All (λ earlier. IsHiddenBy earlier line.now → ⊥) before.now }
    ensures one { IfSome result (λ earlier. IsHiddenBy earlier.now line.now) }
{
    before.iter().find(|earlier| hides(earlier, line))
}

/// Whether each pattern of the first line fits that of the other one.
fn hides(earlier: &Line, line: &Line) -> bool
    ensures { IsTrue result ↔ IsHiddenBy earlier.now line.now }
{
    matches(earlier.op.as_bytes(), line.op.as_bytes())
        && matches(earlier.typ.as_bytes(), line.typ.as_bytes())
        && matches(earlier.desc.as_bytes(), line.desc.as_bytes())
        && matches(earlier.callout.as_bytes(), line.callout.as_bytes())
}

/// Whether others than the owner may write a file with these permissions (chmod(2)).
pub fn is_others_to_write(mode: u32) -> bool
    ensures { result ≡ not (bit_and mode 18 == 0) }
{
    mode & 0o022 != 0
}

/// Whether an argument of the line begins with `#`.
pub fn has_comment(line: &Line) -> bool
    ensures { result ≡ list_any begins_with_hash line.now.args }
{
    line.args.as_slice().iter().any(begins_with_hash)
}

/// Whether an argument begins with `#`.
fn begins_with_hash(argument: &Argument) -> bool
    ensures { result ≡ begins_with_hash argument.now }
{
    match argument {
        Argument::Literal(word) => matches!(word.as_bytes(), [b'#', ..]),
        _ => false,
    }
}
