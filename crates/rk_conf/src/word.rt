//! Words: text without a zero byte.
ghost use Rattle.std.specs.Prelude.{◌≡◌, ◌↔◌, IfOk, IfSome, IfNone, IsTrue, true, false, if◌then◌else◌, Some, None, length};
ghost use Rattle.rk_text.specs.Text.{is_text};

use rk_text::is_text;
use std::alloc::{AllocError, Global};
use std::marker::Model;

/// A field of a line, or a word of a command: UTF-8 without a zero byte, which is what a program can be handed.
///
/// In a clause it is the list of its bytes.
#[derive(Debug, Drop)]
pub struct Word {
    /// UTF-8 without a zero byte.
    bytes: Vec<u8>,
}

impl Model for Word {
    ghost use Rattle.std.specs.Prelude.{◌≡◌, List, ℕ, true};
    ghost use Rattle.rk_text.specs.Text.{is_text};

    ghost Value = { List ℕ };

    ghost view = { λ w. w.bytes.items };

    ghost invariant = { λ w. is_text w.bytes.items ≡ true };
}

impl Word {
    /// A copy of the bytes, which are text. The only refusal is out of memory.
    pub fn new(alloc: Global, bytes: &[u8]) -> Result<Word, AllocError>
        requires { is_text bytes.now ≡ true }
        ensures { IfOk result (λ w. w ≡ bytes.now) }
    {
        let bytes = Vec::from_slice(alloc, bytes)?;
        Ok(Word { bytes })
    }

    /// The bytes themselves, which it moves; `None` if they are no word. It takes no memory.
    pub fn from_bytes(bytes: Vec<u8>) -> Option<Word>
        ensures { result ≡ (if is_text bytes.items then Some bytes.items else None) }
    {
        if is_text(&bytes) {
            Some(Word { bytes })
        } else {
            None
        }
    }

    /// The text.
    pub fn as_str(&self) -> &str
        ensures text { result.now ≡ self.now }
    {
        match str::from_utf8(&self.bytes) {
            Ok(text) => text,
            Err(_) => unreachable!(),
        }
    }

    /// The bytes.
    pub fn as_bytes(&self) -> &[u8]
        ensures bytes { result.now ≡ self.now }
        ensures text { is_text self.now ≡ true }
    {
        &self.bytes
    }
}
