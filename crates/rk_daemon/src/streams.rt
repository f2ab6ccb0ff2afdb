//! The places of the standard streams, and how they are taken.
ghost use Rattle.std.specs.Prelude.{is_ok};
ghost use Rattle.rk_daemon.specs.Story.{Does};
ghost use Rattle.rk_daemon.specs.Streams.{Fills, FillsAll};

use crate::standard::{Standard, Stream};
use std::io;

/// What is open in the places of standard streams that were closed, as long as it is kept.
#[derive(Drop)]
pub struct StandIns<F: Drop> {
    /// In the place of standard input.
    input: Option<F>,
    /// In that of standard output.
    output: Option<F>,
    /// In that of standard error.
    errors: Option<F>,
}

/// Has each place taken. A file that is opened gets the lowest number that is free, so the socket or a client's connection would get that of a standard
/// stream that is closed, and what goes to standard error would be written to a client.
pub fn fill<S: Standard>(streams: &mut S) -> io::Result<StandIns<S::File>>
    ensures { Does (FillsAll (is_ok result)) (S.story streams.old) (S.story streams.new) }
{
    let input = stand_in(streams, Stream::Input)?;
    let output = stand_in(streams, Stream::Output)?;
    let errors = stand_in(streams, Stream::Errors)?;
    Ok(StandIns {
        input,
        output,
        errors,
    })
}

/// Opens nothing in the place of this stream, if it is closed; no lower one is.
fn stand_in<S: Standard>(streams: &mut S, stream: Stream) -> io::Result<Option<S::File>>
    ensures { Does (Fills stream (is_ok result)) (S.story streams.old) (S.story streams.new) }
{
    if !streams.is_closed(stream) {
        return Ok(None);
    }
    match streams.open() {
        Ok(file) => Ok(Some(file)),
        Err(error) => Err(error),
    }
}
