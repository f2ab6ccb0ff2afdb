//! What is wrong with a stream.

use thiserror::Error;

/// A length that no frame has. No frame can be found after it, so it is answered from then on.
#[derive(Clone, Copy, Debug, PartialEq, Eq, Error)]
pub enum FrameFault {
    /// The length is greater than [`MAX_BODY`](crate::MAX_BODY).
    #[error("a frame is longer than 65,536 bytes")]
    TooLong,

    /// The length is 0.
    #[error("a frame has no body")]
    Empty,
}
