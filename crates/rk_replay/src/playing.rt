//! The lines of a script, played one after the other.
ghost use Rattle.std.specs.Prelude.{◌≡◌, ◌⊎◌, ◌++◌, ◌+◌, ◌<◌, ◌^◌, [], false, IfOk, IfErr, OnOk, Err, Some};
ghost use Rattle.std.specs.List.{flat_map};
ghost use Rattle.rk_served.specs.Left.{nothing};
ghost use Rattle.rk_replay.specs.Reading.{reading_of};
ghost use Rattle.rk_replay.specs.declared.script_line.ScriptLine.TheVariants as reading;
ghost use Rattle.rk_replay.specs.Writing.{output_line, conf_line};
ghost use Rattle.rk_replay.specs.Written.{IsWritten, IsRefused};
ghost use Rattle.rk_replay.specs.Playing.{Plays, PlaysBody, IsHead, bytes_from};

use crate::fault::ScriptFault;
use crate::lines::cut_line;
use crate::script_line::ScriptLine;
use crate::settings::Settings;
use crate::transcript::{LineFault, Transcript};
use rk_conf::{Conf, ConfFault, ConfKind};
use rk_names::Moment;
use rk_served::{Happening, Output, Replay, TakeFault};
use std::alloc::{AllocError, Global};

/// The head of a script, and what follows it.
#[derive(Drop)]
pub struct Head<'a> {
    /// What its lines set.
    settings: Settings,
    /// The first line on which something happens, if there is one.
    first: Option<First<'a>>,
    /// The number of that line, or of the line after the last one.
    number: u64,
}

/// The first line on which something happens.
#[derive(Drop)]
pub struct First<'a> {
    /// The moment of the line.
    now: Moment,
    /// What happens then.
    happening: Happening,
    /// The text after the line, if there is more.
    rest: Option<&'a [u8]>,
}

/// Plays a whole script, and writes the lines that result.
///
/// Its configuration is read at the first happening, or at the end. After `Conf` the last line that is written tells its fault.
pub fn play(alloc: Global, text: &[u8], transcript: &mut Transcript) -> Result<(), ScriptFault>
    requires { transcript.old ≡ [] }
    ensures written { OnOk result (IsWritten text.now transcript.new) }
    ensures refused { result ≡ Err ScriptFault.Conf → IsRefused text.now transcript.new }
    ensures fault { IfErr result (λ fault. (fault ≡ ScriptFault.Conf) ⊎ (fault ≡ ScriptFault.NoMemory)) }
{
    let Ok(head) = read_head(alloc, text, transcript) else {
        return Err(ScriptFault::NoMemory);
    };
    match head.settings.conf(alloc) {
        Ok(conf) => match play_body(alloc, conf, &head, transcript) {
            Ok(()) => Ok(()),
            Err(_) => Err(ScriptFault::NoMemory),
        },
        Err(fault) => Err(refuse(fault, transcript)),
    }
}

/// Writes the fault of a configuration. The result is `NoMemory` if that fault is out of memory, or if it could not be written.
fn refuse(fault: ConfFault, transcript: &mut Transcript) -> ScriptFault
    ensures memory { fault.kind ≡ ConfKind.NoMemory → result ≡ ScriptFault.NoMemory }
    ensures conf { result ≡ ScriptFault.Conf → transcript.new ≡ transcript.old ++ conf_line fault }
    ensures fault { (result ≡ ScriptFault.Conf) ⊎ (result ≡ ScriptFault.NoMemory) }
{
    if fault.kind == ConfKind::NoMemory {
        return ScriptFault::NoMemory;
    }
    match transcript.refuse_conf(fault) {
        Ok(()) => ScriptFault::Conf,
        Err(_) => ScriptFault::NoMemory,
    }
}

/// Reads the lines before the first happening, and that one.
fn read_head<'a>(
    alloc: Global,
    text: &'a [u8],
    transcript: &mut Transcript,
) -> Result<Head<'a>, AllocError>
    requires { transcript.old ≡ [] }
    ensures head { IfOk result (λ h. IsHead text.now h transcript.new) }
    ensures few { IfOk result (λ h. h.number + bytes_from h.first < 2 ^ 64) }
{
    let mut settings = Settings::new(alloc);
    let mut rest = Some(text);
    let mut number = 1u64;
    while let Some(left) = rest {
        let (line, after) = cut_line(left);
        let said = ScriptLine::read(alloc, line)?;
        if let Some((now, happening)) = settings.hear(number, said, transcript)? {
            return Ok(Head {
                settings,
                first: Some(First {
                    now,
                    happening,
                    rest: after,
                }),
                number,
            });
        }
        number += 1;
        rest = after;
    }
    Ok(Head {
        settings,
        first: None,
        number,
    })
}

/// Plays the lines from the first happening on.
fn play_body(
    alloc: Global,
    conf: Conf,
    head: &Head<'_>,
    transcript: &mut Transcript,
) -> Result<(), AllocError>
    requires { head.now.number + bytes_from head.now.first < 2 ^ 64 }
    ensures { OnOk result (PlaysBody conf head.now transcript.old transcript.new) }
{
    let Some(first) = &head.first else {
        return Ok(());
    };
    let mut replay = Replay::new(alloc, conf, head.settings.limits())?;
    play_from(alloc, &mut replay, head, first, transcript)
}

/// Plays the first happening and the lines after it.
fn play_from(
    alloc: Global,
    replay: &mut Replay,
    head: &Head<'_>,
    first: &First<'_>,
    transcript: &mut Transcript,
) -> Result<(), AllocError>
    requires first { head.now.first ≡ Some first.now }
    requires few { head.now.number + bytes_from head.now.first < 2 ^ 64 }
    requires fine { replay.old.broken ≡ false }
    requires left { replay.old.left ≡ nothing (record { negative = head.now.settings.negative; first = 1; stride = 1 }) }
    ensures { OnOk result (PlaysBody replay.old.conf head.now transcript.old transcript.new) }
{
    let mut number = head.number;
    play_happening(
        alloc,
        replay,
        number,
        first.now,
        &first.happening,
        transcript,
    )?;
    let mut rest = first.rest;
    number += 1;
    while let Some(left) = rest {
        let (line, after) = cut_line(left);
        play_line(alloc, replay, number, line, transcript)?;
        number += 1;
        rest = after;
    }
    Ok(())
}

/// Plays one line.
fn play_line(
    alloc: Global,
    replay: &mut Replay,
    number: u64,
    line: &[u8],
    transcript: &mut Transcript,
) -> Result<(), AllocError>
    requires { replay.old.broken ≡ false }
    ensures plays { OnOk result (Plays replay.old.conf number (reading_of line.now) replay.old.left transcript.old replay.new.left transcript.new) }
    ensures fine { OnOk result (replay.new.broken ≡ false) }
    ensures conf { replay.new.conf ≡ replay.old.conf }
{
    match ScriptLine::read(alloc, line)? {
        ScriptLine::Blank => Ok(()),
        ScriptLine::Happens(now, happening) => {
            play_happening(alloc, replay, number, now, &happening, transcript)
        }
        ScriptLine::Conf(_) | ScriptLine::Negative(_) | ScriptLine::Wrong => {
            transcript.refuse(number, LineFault::NotALine)
        }
    }
}

/// Plays one happening.
fn play_happening(
    alloc: Global,
    replay: &mut Replay,
    number: u64,
    now: Moment,
    happening: &Happening,
    transcript: &mut Transcript,
) -> Result<(), AllocError>
    requires { replay.old.broken ≡ false }
    ensures plays { OnOk result
        (Plays replay.old.conf number (reading.Happens now happening.now) replay.old.left transcript.old replay.new.left transcript.new) }
    ensures fine { OnOk result (replay.new.broken ≡ false) }
    ensures conf { replay.new.conf ≡ replay.old.conf }
{
    match replay.take(alloc, now, happening) {
        Ok(outputs) => tell_all(outputs.as_slice(), transcript),
        Err(TakeFault::Unknown) => transcript.refuse(number, LineFault::Unknown),
        Err(TakeFault::NoMemory) => Err(AllocError),
    }
}

/// Writes the lines of some outputs.
fn tell_all(outputs: &[Output], transcript: &mut Transcript) -> Result<(), AllocError>
    ensures { OnOk result (transcript.new ≡ transcript.old ++ flat_map output_line outputs.now) }
{
    for output in outputs {
        transcript.tell(output)?;
    }
    Ok(())
}
