//! Which handler waits for which.
ghost use Rattle.std.specs.Prelude.{◌≡◌};
ghost use Rattle.std.specs.FinMap as map;
ghost use Rattle.rk_auth.specs.Walk.{leads_within, next_of};

use crate::seats::Seats;
use rk_names::Serial;

/// From the key, by its handler and the key on which that one waits, one comes to the handler of
/// `own`. A chain that does not come back has no more links than there are constructions.
pub fn leads(seats: &Seats, key: Serial, own: Serial) -> bool
    ensures { result ≡ leads_within seats.now.sessions.constructions (map.len seats.now.sessions.constructions) key own }
{
    let bound = seats.constructions();
    let mut at = key;
    for step in 0..bound {
        if at == own {
            return true;
        }
        match next_key(seats, at) {
            None => return false,
            Some(next) => at = next,
        }
    }
    at == own
}

fn next_key(seats: &Seats, key: Serial) -> Option<Serial>
    ensures { result ≡ next_of seats.now.sessions.constructions key }
{
    let session = seats.construction(key)?.stage.handler()?;
    Some(session.wait?.key)
}
