//! Who acts in an ask.
ghost use Rattle.std.specs.Prelude.{◌≡◌};
ghost use Rattle.rk_machine.specs.Asker.{has_assumed};

use rk_names::{Context, Serial, Setting};

/// Who acts in an ask: its context, the key whose authority is assumed and the requestor's ring, how deep a construction
/// would be, and the setting for new keys.
#[derive(Clone, Copy, Debug)]
pub struct Asker {
    /// In whose context it acts: a client in its own, a handler in that of the first requester.
    pub context: Context,
    /// The key whose authority it has assumed; a client never has one.
    pub assumed: Option<Serial>,
    /// The destination of that authority, for which the number -8 stands; `None` for a client.
    pub requestor: Option<Serial>,
    /// The depth of a construction that it would start: 1 for a client.
    pub depth: u32,
    /// Where its new keys go by default.
    pub setting: Setting,
}

impl Asker {
    /// Whether it has assumed the authority of the key.
    pub fn has_assumed(&self, key: Serial) -> bool
        ensures { result ≡ has_assumed self.now key }
    {
        match self.assumed {
            Some(assumed) => assumed == key,
            None => false,
        }
    }
}
