//! One ask over a connection to the daemon.
ghost use Rattle.std.specs.Prelude.{IfOk};
ghost use Rattle.std.specs.Option.{option_copied};
ghost use Rattle.rk_ctl.specs.Daemon.{HasConversed};

use rk_client::{PeerFault, exchange, exchange_greeted};
use rk_message::{Ask, Reply};
use std::alloc::Global;
use std::io::{Read, Write};

/// Asks over a connection that has just been made, after the greeting, a HELLO, if one is given. If the greeting is refused the ask is not sent, and that
/// refusal is the reply. Refusals as of [`exchange`].
pub fn converse<I: Read, W: Write>(
    alloc: Global,
    reader: &mut I,
    writer: &mut W,
    greeting: Option<&Ask>,
    ask: &Ask,
) -> Result<Reply, PeerFault>
    ensures { IfOk result (HasConversed (W.contents writer.old) (W.contents writer.new) (I.remaining reader.old) (I.remaining reader.new)
        (option_copied greeting.entry) ask.now) }
{
    match greeting {
        Some(greeting) => exchange_greeted(alloc, reader, writer, greeting, ask),
        None => exchange(alloc, reader, writer, ask),
    }
}
