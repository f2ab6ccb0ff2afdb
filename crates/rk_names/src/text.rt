//! The rule that all names share: text without a zero byte.
ghost use Rattle.std.specs.Prelude.{◌≡◌};
ghost use Rattle.rk_names.specs.Rules.{text_fault};

use crate::errors::NameFault;
use rk_text::is_text;

/// The last rule of every name: `Byte` if the bytes are no text.
pub fn text_fault(bytes: &[u8]) -> Option<NameFault>
    ensures { result ≡ text_fault bytes.now }
{
    if is_text(bytes) {
        None
    } else {
        Some(NameFault::Byte)
    }
}
