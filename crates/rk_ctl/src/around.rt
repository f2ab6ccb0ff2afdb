//! What is around a call: where the environment says that the daemon is, and what the standard streams lead to.
ghost use Rattle.std.specs.Prelude.{◌≡◌, option_map};
ghost use Rattle.rk_ctl.specs.Around.{is_handlers, socket_around, socket_for};

use rk_message::Op;

/// What is around a call.
#[derive(Drop)]
pub struct Around {
    /// The socket that the environment names, in `REQKEYD_SOCKET`.
    pub socket: Option<String>,
    /// Whether standard input and output both are pipes or sockets. Those of a handler are: the daemon is at their other ends.
    pub piped: bool,
    /// Whether standard output is a terminal.
    pub terminal: bool,
}

/// How the program is called.
#[derive(Clone, Copy)]
pub struct Invocation<'a> {
    /// The words, of which the first is the name of the program.
    pub words: &'a [String],
    /// What is around.
    pub around: &'a Around,
}

impl Around {
    /// The socket that the environment names.
    pub fn socket(&self) -> Option<&str>
        ensures { option_map (λ s. s.now) result ≡ socket_around self.now }
    {
        match &self.socket {
            Some(path) => Some(path.as_str()),
            None => None,
        }
    }

    /// The socket for a call of this op that names none: that of the environment; but none between two pipes for what only a handler asks, since its daemon is
    /// at their other ends.
    pub fn socket_for(&self, op: Op) -> Option<&str>
        ensures { option_map (λ s. s.now) result ≡ socket_for self.now op }
    {
        if self.piped && is_handlers(op) {
            return None;
        }
        self.socket()
    }
}

/// Whether only a handler asks this.
fn is_handlers(op: Op) -> bool
    ensures { result ≡ is_handlers op }
{
    matches!(
        op,
        Op::Assume | Op::Instantiate | Op::Negate | Op::Reject | Op::Default | Op::Callout
    )
}
