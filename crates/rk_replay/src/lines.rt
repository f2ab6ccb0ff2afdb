//! The lines of a script.
ghost use Rattle.std.specs.Prelude.{◌≡◌, [], ◌∷◌, ◌<◌, length, MatchOption, IfSome};
ghost use Rattle.rk_text.specs.Text.{lines_of};

use memchr::memchr;

/// The first line, and what follows its newline, if it has one. An empty text is one empty line.
///
/// It is what [`rk_text::cut_line`] answers, whose texts are short. A script is long, and its newlines are looked for in many bytes at a time.
pub fn cut_line(text: &[u8]) -> (&[u8], Option<&[u8]>)
    ensures cut { MatchOption result.1 (lines_of text.now ≡ result.0.now ∷ []) (λ rest. lines_of text.now ≡ result.0.now ∷ lines_of rest.now) }
    ensures shorter { IfSome result.1 (λ rest. length rest.now < length text.now) }
{
    match memchr(b'\n', text) {
        Some(end) => (&text[..end], Some(&text[end + 1..])),
        None => (text, None),
    }
}
