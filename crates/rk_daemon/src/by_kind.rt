//! Something for each kind of line.

use crate::kind::Kind;

/// One of each for a kind of line of the log.
#[derive(Drop)]
pub struct ByKind<T: Drop> {
    /// How sessions end.
    pub session: T,
    /// How handlers end.
    pub handler: T,
    /// Handlers that run for long.
    pub slow: T,
    /// Connections that wait for a worker.
    pub busy: T,
    /// Connections that can't be accepted.
    pub accept: T,
    /// Volumes, and all that has no kind of its own.
    pub other: T,
}

impl<T: Drop> ByKind<T> {
    ghost use Rattle.std.specs.Prelude.{◌≡◌};
    ghost use Rattle.rk_daemon.specs.ByKind.{of_kind};

    /// That of this kind.
    pub fn of(&self, kind: Kind) -> &T
        ensures { result.now ≡ of_kind kind self.now }
    {
        match kind {
            Kind::Session => &self.session,
            Kind::Handler => &self.handler,
            Kind::Slow => &self.slow,
            Kind::Busy => &self.busy,
            Kind::Accept => &self.accept,
            Kind::Other => &self.other,
        }
    }
}
