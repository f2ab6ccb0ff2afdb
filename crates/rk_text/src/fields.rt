//! A line, cut into fields.
ghost use Rattle.std.specs.Prelude.{◌≡◌, ◌<◌, ◌≤◌, ℕ, [], ◌∷◌, length, slice_index, true, false, MatchOption, IfSome};
ghost use Rattle.rk_text.specs.Text.{is_text, is_space, fields_of, past_space};

use crate::space::Space;

/// The first field, and what follows it; `None` if there is only white space.
pub fn cut_field(text: &[u8], space: Space) -> Option<(&[u8], &[u8])>
    ensures cut { MatchOption result (fields_of space text.now ≡ []) (λ cut. fields_of space text.now ≡ cut.0.now ∷ fields_of space cut.1.now) }
    ensures shorter { IfSome result (λ cut. length cut.1.now < length text.now) }
    ensures field { is_text text.now ≡ true → IfSome result (λ cut. is_text cut.0.now ≡ true) }
    ensures rest { is_text text.now ≡ true → IfSome result (λ cut. is_text cut.1.now ≡ true) }
{
    let text = skip_space(text, space);
    if text.is_empty() {
        return None;
    }
    Some(text.split_at(field_len(text, space)))
}

/// What follows leading white space.
pub fn skip_space(text: &[u8], space: Space) -> &[u8]
    ensures past { result.now ≡ past_space space text.now }
    ensures same { fields_of space result.now ≡ fields_of space text.now }
    ensures first { 0 < length result.now → is_space space (slice_index result.now 0) ≡ false }
    ensures shorter { length result.now ≤ length text.now }
    ensures text { is_text text.now ≡ true → is_text result.now ≡ true }
{
    &text[space_len(text, space)..]
}

/// How many bytes of white space stand first.
fn space_len(text: &[u8], space: Space) -> usize
    ensures within { result ≤ length text.now }
    ensures before { (k : ℕ) → k < result → is_space space (slice_index text.now k) ≡ true }
    ensures at { result < length text.now → is_space space (slice_index text.now result) ≡ false }
{
    text.iter()
        .position(|b| !space.has(*b))
        .unwrap_or(text.len())
}

/// How many bytes stand before the first white space.
fn field_len(text: &[u8], space: Space) -> usize
    ensures within { result ≤ length text.now }
    ensures before { (k : ℕ) → k < result → is_space space (slice_index text.now k) ≡ false }
    ensures at { result < length text.now → is_space space (slice_index text.now result) ≡ true }
{
    text.iter()
        .position(|b| space.has(*b))
        .unwrap_or(text.len())
}
