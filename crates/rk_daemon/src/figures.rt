//! Figures of the daemon, as lines of the log.
ghost use Rattle.std.specs.Prelude.{Some};
ghost use Rattle.rk_daemon.specs.Figures.{clients_text, figures_text, in_halls_text, in_run_text, oldest_text, per_hall_text, running_text};

use rk_hall::Counts;
use std::fmt;
use std::fmt::{Display, Formatter};

/// A handler that has run for long, as it is warned of.
#[derive(Debug, Drop)]
pub struct Running {
    /// The serial of its key.
    pub key: u32,
    /// What it was started for, if that is known.
    pub purpose: Option<String>,
    /// For how many seconds it has run.
    pub seconds: u64,
}

impl Running {
    ghost use Rattle.std.specs.Prelude.{◌≡◌, [], option_map, string_bytes, unwrap_or};

    /// What it was started for, or nothing.
    fn purpose(&self) -> &str
        ensures { result.now ≡ unwrap_or (option_map string_bytes self.now.purpose) [] }
    {
        match &self.purpose {
            Some(purpose) => purpose.as_str(),
            None => "",
        }
    }
}

impl Display for Running {
    ghost output = { λ r. Some (running_text r) };

    fn fmt<W: fmt::Write>(&self, f: &mut Formatter<W>) -> fmt::Result {
        write!(
            f,
            "handler of key {}{} has run for {} seconds",
            self.key,
            self.purpose(),
            self.seconds
        )
    }
}

/// The connections.
#[derive(Clone, Copy)]
pub struct Clients {
    /// How many there are.
    pub open: u32,
    /// How many of them a worker serves.
    pub served: u32,
}

impl Display for Clients {
    ghost output = { λ c. Some (clients_text c) };

    fn fmt<W: fmt::Write>(&self, f: &mut Formatter<W>) -> fmt::Result {
        let Clients { open, served } = *self;
        write!(f, "connections {open}, workers busy {served}")
    }
}

/// The handler that was started first, of those that run.
#[derive(Clone, Copy)]
pub struct Oldest {
    /// The serial of its key.
    pub key: u32,
    /// For how many seconds it has run.
    pub seconds: u64,
}

impl Display for Oldest {
    ghost output = { λ o. Some (oldest_text o) };

    fn fmt<W: fmt::Write>(&self, f: &mut Formatter<W>) -> fmt::Result {
        let Oldest { key, seconds } = *self;
        write!(f, "the oldest of key {key} for {seconds} s")
    }
}

/// The handlers that run.
#[derive(Clone, Copy)]
pub struct InRun {
    /// How many there are.
    pub count: usize,
    /// The one that was started first.
    pub oldest: Option<Oldest>,
}

impl Display for InRun {
    ghost output = { λ r. Some (in_run_text r) };

    fn fmt<W: fmt::Write>(&self, f: &mut Formatter<W>) -> fmt::Result {
        match self.oldest {
            Some(oldest) => write!(f, "handlers {}, {oldest}", self.count),
            None => write!(f, "handlers {}", self.count),
        }
    }
}

/// A figure of each hall.
#[derive(Clone, Copy)]
pub struct PerHall {
    /// Of hall 0.
    pub zero: u64,
    /// Of hall 1.
    pub one: u64,
    /// Of hall 2.
    pub two: u64,
    /// Of hall 3.
    pub three: u64,
}

impl Display for PerHall {
    ghost output = { λ h. Some (per_hall_text h) };

    fn fmt<W: fmt::Write>(&self, f: &mut Formatter<W>) -> fmt::Result {
        let PerHall {
            zero,
            one,
            two,
            three,
        } = *self;
        write!(f, "{zero}/{one}/{two}/{three}")
    }
}

/// How much there is in the halls.
#[derive(Clone, Copy)]
pub struct InHalls {
    /// Their keys.
    pub keys: PerHall,
    /// Their constructions.
    pub constructions: PerHall,
    /// How many calls they have answered EDQUOT.
    pub edquots: PerHall,
}

impl InHalls {
    ghost use Rattle.std.specs.Prelude.{◌≡◌};
    ghost use Rattle.rk_daemon.specs.InHalls.{in_halls};

    /// What was counted in halls 0 to 3.
    pub fn of(zero: Counts, one: Counts, two: Counts, three: Counts) -> InHalls
        ensures { result ≡ in_halls zero one two three }
    {
        InHalls {
            keys: PerHall {
                zero: zero.keys,
                one: one.keys,
                two: two.keys,
                three: three.keys,
            },
            constructions: PerHall {
                zero: zero.constructions,
                one: one.constructions,
                two: two.constructions,
                three: three.constructions,
            },
            edquots: PerHall {
                zero: zero.edquots,
                one: one.edquots,
                two: two.edquots,
                three: three.edquots,
            },
        }
    }
}

impl Display for InHalls {
    ghost output = { λ h. Some (in_halls_text h) };

    fn fmt<W: fmt::Write>(&self, f: &mut Formatter<W>) -> fmt::Result {
        write!(
            f,
            "keys {}, constructions {}, EDQUOTs {}",
            self.keys, self.constructions, self.edquots
        )
    }
}

/// How much there is at a moment.
#[derive(Clone, Copy)]
pub struct Figures {
    /// The connections.
    pub clients: Clients,
    /// The handlers that run.
    pub handlers: InRun,
    /// How much there is in the halls.
    pub halls: InHalls,
    /// The volumes that were handed out.
    pub volumes: u64,
}

impl Display for Figures {
    ghost output = { λ g. Some (figures_text g) };

    fn fmt<W: fmt::Write>(&self, f: &mut Formatter<W>) -> fmt::Result {
        write!(
            f,
            "status: {}, {}, {}, volumes {}",
            self.clients, self.handlers, self.halls, self.volumes
        )
    }
}
