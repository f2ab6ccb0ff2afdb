//! A client that is served.
ghost use Rattle.std.specs.Prelude.{◌≡◌};
ghost use Rattle.rk_session.specs.Places.{at_first};

use crate::standing::Place;
use rk_frame::Frames;
use rk_hall::HallNo;

/// A client that is served: its number, where it stands, and what was read of it.
#[derive(Drop)]
pub struct Visit {
    /// Its number, which never changes.
    pub client: u32,
    /// Where it stands.
    pub place: Place,
    /// What was read of it, of which not all messages are taken yet.
    pub frames: Frames,
}

impl Visit {
    /// A client that has just come: it stands in hall 0, without a context.
    pub fn new(client: u32, frames: Frames) -> Visit
        ensures client { result.client ≡ client }
        ensures place { result.place ≡ at_first }
        ensures frames { result.frames ≡ frames }
    {
        Visit {
            client,
            place: Place {
                hall: HallNo::Zero,
                greeted: false,
            },
            frames,
        }
    }
}
