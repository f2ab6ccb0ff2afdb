//! Ops by the words of a command line.
ghost use Rattle.std.specs.Prelude.{◌≡◌, IfSome, find, option_map};
ghost use Rattle.std.specs.Str.{bytes_eq, str_to_ascii_lowercase};
ghost use Rattle.rk_message.specs.declared.shape.AskShape.{AskShape as Line};
ghost use Rattle.rk_client.specs.Words.{op_said, op_word};

use rk_message::{AskShape, Op};

/// The op whose name in lower case is this word, as `read`; `None` if there is none.
pub fn op_named(word: &str) -> Option<Op>
    ensures said { result ≡ op_said word.now }
    ensures word { IfSome result (λ op. word.now ≡ op_word op) }
{
    op_in(AskShape::all(), word)
}

/// The op of the first line whose name in lower case is the word.
fn op_in(lines: &[AskShape], word: &str) -> Option<Op>
    ensures { result ≡ option_map (λ (l : Line). l.op) (find (λ (l : Line). bytes_eq word.now (str_to_ascii_lowercase l.name.now)) lines.now) }
{
    let line = lines
        .iter()
        .find(|line| is_lowered(line.name.as_bytes(), word.as_bytes()))?;
    Some(line.op)
}

/// Whether the word is the name in lower case.
fn is_lowered(name: &[u8], word: &[u8]) -> bool
    ensures { result ≡ bytes_eq word.now (str_to_ascii_lowercase name.now) }
{
    match (name, word) {
        ([], []) => true,
        ([n, names @ ..], [w, words @ ..]) => *w == n.to_ascii_lowercase()
            && is_lowered(names, words),
        _ => false,
    }
}
