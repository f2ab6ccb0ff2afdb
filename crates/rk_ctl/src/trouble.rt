//! What stood in the way of an ask, in words. If there is no memory for them, there are none.

use crate::asking::AskFault;
use crate::call::Call;
use crate::manual::meaning;
use rk_client::{ArgumentFault, PeerFault};
use rk_run::told;
use std::alloc::Global;

/// Why the file of the call gives no argument, where `fault` is that of a file.
pub fn of_file(alloc: Global, call: &Call<'_>, fault: AskFault) -> Option<String> {
    let file = match (call.options.payload_from, call.options.callout_from) {
        (Some("-"), _) | (None, Some("-")) => "standard input",
        (Some(path), _) | (None, Some(path)) => path,
        (None, None) => return None,
    };
    match fault {
        AskFault::File(error) => told(alloc, file, &error).ok(),
        AskFault::Bytes(ArgumentFault::Bad(kind)) => {
            let (name, meaning) = (kind.name(), meaning(kind));
            format!(in alloc; "{file}: <{name}> is {meaning}").ok()
        }
        _ => None,
    }
}

/// Why there is no reply at the standard streams.
pub fn of_streams(fault: PeerFault) -> &'static str {
    match fault {
        PeerFault::Lost =>
            "standard input and output: no reply came, since one of them ended or failed",
        PeerFault::Malformed => "standard input: what came is no reply",
        PeerFault::NoMemory => "out of memory",
    }
}
