//! How much there is in a hall.

/// How much there is in a hall at a moment, and what it has refused.
#[derive(Clone, Copy, PartialEq, Eq, Debug)]
pub struct Counts {
    /// The keys, however they stand: those under construction too, and those that are revoked or expired and have not vanished yet.
    pub keys: u64,
    /// The constructions that have not ended.
    pub constructions: u64,
    /// How many calls were answered EDQUOT since the hall was made, at most the greatest u64: those of clients and of handlers.
    pub edquots: u64,
}
