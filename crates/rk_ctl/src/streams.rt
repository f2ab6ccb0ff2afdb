//! The streams of a run.

/// What a run reads and writes: standard input, output and error, or what stands in their place.
#[derive(Drop)]
pub struct Streams<I: Drop, W: Drop, E: Drop> {
    /// What is read, where that is asked for.
    pub reader: I,
    /// What is asked for is written here; by a handler its ask.
    pub writer: W,
    /// Why there is nothing to be printed; to a handler its reply.
    pub errors: E,
}
