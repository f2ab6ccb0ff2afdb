//! What a book begins with.
use rk_names::Serial;

/// What a book begins with.
#[derive(Clone, Copy, Debug, PartialEq, Eq)]
pub struct Limits {
    /// For so many seconds a key is negative whose handler did not complete it.
    pub negative: u32,
    /// The first serial that is drawn.
    pub first: Serial,
    /// How far the next one is from it, at least 1.
    pub stride: u32,
    /// With what the names of keys are hashed: who does not know it can't choose names that make a search slow. No answer depends on it.
    pub seed: u64,
}
