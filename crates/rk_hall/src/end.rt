//! How a handler has ended.

use rk_machine::How;
use rk_names::Payload;

/// How a handler has ended, and what a piped one has output.
#[derive(Drop)]
pub(crate) struct End {
    /// By which status or signal.
    pub(crate) how: How,
    /// The output, if it is a payload.
    pub(crate) payload: Option<Payload>,
}
