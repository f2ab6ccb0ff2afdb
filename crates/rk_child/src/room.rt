//! The room for the output of a handler.
ghost use Rattle.std.specs.Prelude.{◌≡◌, IfOk};
ghost use Rattle.rk_child.specs.Rooms.{IsNewRoom, ran_in};

use rk_devices::Output;
use rk_frame::Frames;
use rk_machine::Ran;
use std::alloc::{AllocError, Global};

/// The room for the output of a handler, made before its start.
#[derive(Drop)]
pub enum Room {
    /// The frames of a plain handler.
    Plain(Frames),
    /// The payload of a piped one.
    Piped(Output),
}

impl Room {
    /// Empty room. An `Err` is out of memory.
    pub fn new(alloc: Global, piped: bool) -> Result<Room, AllocError>
        ensures { IfOk result (IsNewRoom piped) }
    {
        if piped {
            let output = Output::new(alloc)?;
            Ok(Room::Piped(output))
        } else {
            let frames = Frames::new(alloc)?;
            Ok(Room::Plain(frames))
        }
    }

    /// What its handler is.
    pub fn ran(&self) -> Ran
        ensures { result ≡ ran_in self.now }
    {
        match self {
            Room::Plain(_) => Ran::Plain,
            Room::Piped(_) => Ran::Piped,
        }
    }
}
