//! The daemon, as a client speaks to it.
ghost use Rattle.std.specs.Prelude.{◌≡◌, List, Option};
ghost use Rattle.std.specs.Option.{option_copied};
ghost use Rattle.rk_ctl.specs.Addresses.{address_by};
ghost use Rattle.rk_ctl.specs.Daemon.{Asked, Searched, Talk, and_then};
ghost use Rattle.rk_ctl.specs.Searching.{answer_said};

use crate::address::Address;
use crate::search::Search;
use crate::searching::Found;
use rk_client::PeerFault;
use rk_message::{Ask, Reply};

/// Who is asked at a socket. It may tell what was said to it, as a test's does; the system's tells nothing.
pub trait Daemon {
    /// What was said to it, first things first, if it tells that.
    ghost story: { Self → Option (List Talk) };

    /// Connects to the socket of this address, says the greeting, a HELLO, if one is given, asks, and reads the reply. If the greeting is refused
    /// the ask is not sent, and that refusal is the reply. `Lost` too if that takes longer than the address allows.
    fn ask(
        &mut self,
        address: Address<'_>,
        greeting: Option<&Ask>,
        ask: &Ask,
    ) -> Result<Reply, PeerFault>
        ensures { story self.new ≡ and_then (story self.old)
            (Asked (record { address = address_by address.entry; greeting = option_copied greeting.entry; ask = ask.now; answer = result })) };

    /// Connects to the socket of this address, says the greeting, a HELLO, and looks for keys ([`crate::find_keys`]). `Lost` as of an ask.
    fn search(
        &mut self,
        address: Address<'_>,
        greeting: &Ask,
        search: Search,
    ) -> Result<Found, PeerFault>
        ensures { story self.new ≡ and_then (story self.old) (Searched (address_by address.entry) greeting.now search (answer_said result)) };

    /// Why the last ask got no reply, if that is known: a text to be shown, with a path and the system's reason.
    fn trouble(&self) -> Option<&str>;
}
