//! What a stream has next.

use crate::fault::FrameFault;

/// What the stream has next.
#[derive(Clone, Copy, Debug, PartialEq, Eq)]
pub enum Next<'a> {
    /// The next body, of 1 to 65,536 bytes. It is lent until the next call.
    Whole(&'a [u8]),

    /// No whole frame is left. More bytes have to be fed first.
    More,

    /// The next length is one that no frame has. Each later `next` answers it too.
    Fault(FrameFault),
}
