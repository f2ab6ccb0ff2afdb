//! What lines of the log are about.
ghost use Rattle.std.specs.Prelude.{◌≡◌, Some};
ghost use Rattle.rk_daemon.specs.Log.{kind_of, kind_text};

use std::fmt;

/// What a line of the log is about. The lines of one kind are bounded in rate together.
#[derive(Clone, Copy, Debug, PartialEq, Eq)]
pub enum Kind {
    /// How sessions end.
    Session,
    /// How handlers end.
    Handler,
    /// Handlers that run for long.
    Slow,
    /// Connections that wait for a worker.
    Busy,
    /// Connections that can't be accepted.
    Accept,
    /// All else, as volumes.
    Other,
}

impl Kind {
    /// All kinds.
    pub const ALL: [Kind; 6] = [
        Kind::Session,
        Kind::Handler,
        Kind::Slow,
        Kind::Busy,
        Kind::Accept,
        Kind::Other,
    ];

    /// That of the lines of a module of this crate, by its path.
    pub fn of(path: &str) -> Kind
        ensures { result ≡ kind_of path.now }
    {
        match path {
            "rk_daemon::workers" => Kind::Session,
            "rk_daemon::gate" => Kind::Handler,
            "rk_daemon::system_post" => Kind::Slow,
            "rk_daemon::entrance" => Kind::Busy,
            "rk_daemon::accepting" => Kind::Accept,
            _ => Kind::Other,
        }
    }

    /// What its lines are called where some are left out.
    fn name(self) -> &'static str
        ensures { result.now ≡ kind_text self }
    {
        match self {
            Kind::Session => "sessions",
            Kind::Handler => "handlers",
            Kind::Slow => "slow handlers",
            Kind::Busy => "busy workers",
            Kind::Accept => "accept",
            Kind::Other => "other",
        }
    }
}

impl fmt::Display for Kind {
    ghost output = { λ kind. Some (kind_text kind) };

    fn fmt<W: fmt::Write>(&self, f: &mut fmt::Formatter<W>) -> fmt::Result {
        f.write_str(self.name())
    }
}
