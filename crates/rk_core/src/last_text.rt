//! The text of the key that was described last.
ghost use Rattle.std.specs.Prelude.{◌≡◌, ◌≤◌, length, IfOk};

use rk_message::ReplyBytes;
use std::alloc::{AllocError, Global};

/// The text of the key that was described last. While one key is described again and again, the records of these steps share one copy of it. It is no part of
/// the machine's state.
#[derive(Drop)]
pub(crate) struct LastText {
    /// The text, if a key was described.
    text: Option<ReplyBytes>,
}

impl LastText {
    /// No text.
    pub(crate) fn none() -> LastText {
        LastText { text: None }
    }

    /// The text as a reply: the last one again, where it is the same, and else a copy. An `Err` is out of memory.
    pub(crate) fn reply(&mut self, alloc: Global, text: &[u8]) -> Result<ReplyBytes, AllocError>
        requires { length text.now ≤ 65533 }
        ensures { IfOk result (λ reply. reply ≡ text.now) }
    {
        if let Some(last) = &self.text {
            if last.as_bytes() == text {
                return last.clone();
            }
        }
        let reply = ReplyBytes::from_checked(alloc, text)?;
        self.text = Some(reply.clone()?);
        Ok(reply)
    }
}
