//! A text, cut into lines.
ghost use Rattle.std.specs.Prelude.{◌≡◌, ◌≢◌, ◌<◌, ◌≤◌, ℕ, [], ◌∷◌, length, slice_index, MatchOption, IfSome};
ghost use Rattle.rk_text.specs.Text.{lines_of};

/// The first line, and what follows its newline, if it has one. An empty text is one empty line.
pub fn cut_line(text: &[u8]) -> (&[u8], Option<&[u8]>)
    ensures cut { MatchOption result.1 (lines_of text.now ≡ result.0.now ∷ []) (λ rest. lines_of text.now ≡ result.0.now ∷ lines_of rest.now) }
    ensures shorter { IfSome result.1 (λ rest. length rest.now < length text.now) }
{
    let end = line_len(text);
    if end == text.len() {
        (text, None)
    } else {
        (&text[..end], Some(&text[end + 1..]))
    }
}

/// How many bytes stand before the first newline.
fn line_len(text: &[u8]) -> usize
    ensures within { result ≤ length text.now }
    ensures before { (k : ℕ) → k < result → slice_index text.now k ≢ 10 }
    ensures at { result < length text.now → slice_index text.now result ≡ 10 }
{
    text.iter().position(|b| *b == b'\n').unwrap_or(text.len())
}
