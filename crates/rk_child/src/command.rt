//! The command of a launch.
ghost use Rattle.std.specs.Prelude.{IfOk, IfErr};
ghost use Rattle.rk_child.specs.Commands.{IsCommandFor, IsPrepared, IsUnprepared, TellsWhy};

use crate::room::Room;
use rk_devices::Driven;
use rk_hall::Launch;
use rk_macro::{Command, Wanted, expand};
use rk_names::Moment;
use rk_talk::{Platform, Stage};
use std::alloc::AllocError;

/// All that is made before a command is started.
pub struct Prepared {
    /// What is started: the path of the program, and its words.
    pub command: Command,
    /// The room for its output.
    pub room: Room,
}

// The command of the first line that fits the launch's subject, with `%{..}` looked up in the requester's rings. An `Err` is what is reported of the launch:
// `NotStarted` if no line fits, and `NotMade` if the words of the first one can't be made, also for lack of memory.
fn command_for<P: Platform>(
    stage: &Stage<'_, P>,
    launch: &Launch<P::Names>,
    now: Moment,
) -> Result<Command, Driven>
    ensures ok { IfOk result (IsCommandFor stage.now.conf.now launch.now.subject) }
    ensures unprepared { IfErr result IsUnprepared }
    ensures why { IfErr result (TellsWhy stage.now.conf.now launch.now.subject) }
{
    let subject = launch.subject();
    let Some(line) = stage.conf.pick(
        subject.op.as_bytes(),
        &subject.typ,
        &subject.desc,
        &subject.callout,
    )
    else {
        return Err(Driven::NotStarted);
    };
    let look = |wanted: &Wanted| -> Result<Option<Vec<u8>>, AllocError> {
        stage
            .halls
            .peek(stage.rt, launch, &wanted.typ, &wanted.desc, now)
    };
    match expand(stage.alloc, line, subject, look) {
        Ok(command) => Ok(command),
        Err(fault) => Err(Driven::NotMade(fault)),
    }
}

/// The command of a launch, and the room for its run. An `Err` is what is reported of the launch: `NotStarted` if no line fits, `NotMade` if one does and
/// its command can't be made, and `NoMemory` if there is a command and no memory for the room.
pub fn prepare<P: Platform>(
    stage: &Stage<'_, P>,
    launch: &Launch<P::Names>,
    now: Moment,
) -> Result<Prepared, Driven>
    ensures ok { IfOk result (λ p. IsPrepared stage.now.conf.now launch.now.subject p.command p.room) }
    ensures unprepared { IfErr result IsUnprepared }
    ensures why { IfErr result (TellsWhy stage.now.conf.now launch.now.subject) }
{
    let command = command_for(stage, launch, now)?;
    match Room::new(stage.alloc, command.piped) {
        Ok(room) => Ok(Prepared { command, room }),
        Err(AllocError) => Err(Driven::NoMemory),
    }
}
