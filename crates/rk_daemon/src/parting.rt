//! How a session has ended, as a line of the log.
ghost use Rattle.std.specs.Prelude.{◌≡◌};
ghost use Rattle.rk_daemon.specs.Parting.{parting_text};

use rk_session::Served;

/// What the log says of a session that has ended so.
pub fn parting_text(served: Served) -> &'static str
    ensures { result.now ≡ parting_text served }
{
    match served {
        Served::Ended => "ended",
        Served::NotOpened => { "not served, since memory ran out or the record of hall 0 is full" }
        Served::ReadFault => "it could not be read",
        Served::WriteFault => "a reply could not be written",
        Served::Malformed => "what it sent is no frame",
        Served::TurnsUsed => "its 1048576 reads are used up",
        Served::Behind => { "its worker has seen more of a hall than there is, please report this" }
    }
}
