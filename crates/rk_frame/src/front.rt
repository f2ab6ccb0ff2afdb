//! What stands at the front of the bytes.

ghost use Rattle.rk_frame.specs.Front.{IsFront};

use crate::MAX_BODY;
use crate::fault::FrameFault;
use bytes::Buf;

/// What stands at the front of bytes that have not been handed out.
pub enum Front {
    /// A whole frame, by the length of its body.
    Whole(usize),

    /// Less than a whole frame.
    Short,

    /// A length that no frame has.
    Bad(FrameFault),
}

/// What stands at the front of the bytes. The length there is tested before the body is looked for.
pub fn front_of(bytes: &[u8]) -> Front
    ensures { IsFront result bytes.now }
{
    if bytes.len() < 4 {
        return Front::Short;
    }
    let mut rest = bytes;
    let len = rest.get_u32() as usize;
    if len == 0 {
        Front::Bad(FrameFault::Empty)
    } else if len > MAX_BODY {
        Front::Bad(FrameFault::TooLong)
    } else if rest.len() < len {
        Front::Short
    } else {
        Front::Whole(len)
    }
}
