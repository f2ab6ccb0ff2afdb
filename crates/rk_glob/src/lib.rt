//! Wildcard patterns over bytes: the patterns in which the lines of request-key.conf(5) are written.
//!
//! In a pattern each `*` stands for any run of bytes, also none, wherever and however often it comes. Every other
//! byte stands for itself: there are no classes, no `?` and no escapes. A pattern always speaks of the whole text.
//!
//! `matches` is exact: it answers `true` precisely for the texts that the pattern fits, by the relation `Fits` of
//! `specs/Wildcard.antt`. It takes no memory and refuses nothing. So `matches(b"a*b*", b"axb")` is true,
//! `matches(b"a*b*", b"ba")` is not, and `*` fits the empty text.
//!
//! The part before the first `*` and the part after the last one are compared at the two ends of the text. What is
//! between them is looked for from left to right by two places, one in the pattern and one in the text. If a byte
//! differs, only the last `*` takes one byte more: that an earlier `*` need never be tried again is what the proof of
//! the scan shows. With no `*` or one the time is in proportion to the lengths, with more at most to their product.
#![tactic(auto)]

ghost use Rattle.std.specs.Prelude.{◌≡◌, ◌↔◌, ◌∷◌, ◌++◌, [], IsTrue, IfSome, IfNone};
ghost use Rattle.rk_glob.specs.Wildcard.{Fits, IsPlain, star};
ghost use Rattle.rk_glob.specs.Laws.{PlainFitsItselfAlone, StarFitsEverything, JoinedFitJoined};

/// The byte `*`, which stands for any run of bytes.
pub const STAR: u8 = b'*';

/// Whether the pattern fits the whole text.
///
/// It takes no memory and refuses nothing: any bytes are a pattern, and any bytes are a text.
/// (request-key.conf(5) knows one `*` in a field; here there may be any number.)
pub fn matches(pattern: &[u8], text: &[u8]) -> bool
    ensures { IsTrue result ↔ Fits pattern.now text.now }
{
    let Some((head, rest)) = cut_at_first(pattern) else {
        return pattern == text;
    };
    let Some(text) = text.strip_prefix(head) else {
        return false;
    };
    let Some((middle, tail)) = cut_at_last(rest) else {
        return text.ends_with(rest);
    };
    match text.strip_suffix(tail) {
        Some(text) => fits_within(middle, text),
        None => false,
    }
}

/// The parts before and after the first `*`.
fn cut_at_first(pattern: &[u8]) -> Option<(&[u8], &[u8])>
    ensures none { IfNone result (IsPlain pattern.now) }
    ensures whole { IfSome result (λ p. pattern.now ≡ p.0.now ++ star ∷ p.1.now) }
    ensures before { IfSome result (λ p. IsPlain p.0.now) }
{
    let at = pattern.iter().position(|b| *b == STAR)?;
    Some((&pattern[..at], &pattern[at + 1..]))
}

/// The parts before and after the last `*`.
fn cut_at_last(pattern: &[u8]) -> Option<(&[u8], &[u8])>
    ensures none { IfNone result (IsPlain pattern.now) }
    ensures whole { IfSome result (λ p. pattern.now ≡ p.0.now ++ star ∷ p.1.now) }
    ensures after { IfSome result (λ p. IsPlain p.1.now) }
{
    let at = pattern.iter().rposition(|b| *b == STAR)?;
    Some((&pattern[..at], &pattern[at + 1..]))
}

/// Whether `middle` between two `*` fits the text.
///
/// `after` is the place in `middle` after the last `*` read, and `from` where that `*` leaves the text for now.
/// From there on the bytes of the text were found equal up to `at` and `reached`.
fn fits_within(middle: &[u8], text: &[u8]) -> bool
    ensures { IsTrue result ↔ Fits (star ∷ middle.now ++ star ∷ []) text.now }
{
    let (mut after, mut from) = (0, 0);
    let (mut at, mut reached) = (0, 0);
    while at < middle.len() {
        if middle[at] == STAR {
            at += 1;
            after = at;
            from = reached;
        } else if reached == text.len() {
            return false;
        } else if middle[at] == text[reached] {
            at += 1;
            reached += 1;
        } else {
            from += 1;
            at = after;
            reached = from;
        }
    }
    true
}

/// The laws of patterns, for those who write them; running it does nothing.
///
/// A pattern without `*` fits itself alone. `*` fits every text. Two patterns, one written after the other, fit
/// exactly a text that one fits with a text that the other fits after it.
pub fn laws()
    ensures plain { PlainFitsItselfAlone }
    ensures anything { StarFitsEverything }
    ensures joined { JoinedFitJoined }
{}
