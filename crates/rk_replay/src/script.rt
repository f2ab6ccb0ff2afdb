//! A script from a reader, played to a writer.
ghost use Rattle.std.specs.Prelude.{◌≡◌, ◌≢◌, ◌⊎◌, ◌≤◌, List, ℕ, length, IfOk, IfErr, OnOk, IfSome, Err};
ghost use Rattle.std.specs.Io.KnownBytes.{Appends};
ghost use Rattle.rk_replay.specs.Taken.{IsTaken};
ghost use Rattle.rk_replay.specs.Written.{IsWritten, IsRefused};

use crate::fault::ScriptFault;
use crate::playing::play;
use crate::transcript::Transcript;
use rk_frame::{MAX_PIECE, MAX_READS};
use std::alloc::Global;
use std::io::{Read, Write};

/// Reads a script to its end, plays it, and writes what results from it: one line for each output, and one for each line
/// that changed nothing.
///
/// Refusals: `Read` if the reader fails; `TurnsUsed` if it was not at its end after 1,048,576 reads, which takes at least as
/// many bytes; `NoMemory`. After these the writer is as it was. `Conf` if the configuration is refused: the bad lines before the
/// first happening are written, and the last line names the line and the rule. `Write` if the writer fails, also as it is
/// flushed; after it nothing is said of what was written.
pub fn run_script<R: Read, W: Write>(
    alloc: Global,
    reader: &mut R,
    writer: &mut W,
) -> Result<(), ScriptFault>
    // It has written the lines of a served list for the happenings of what it read, and nothing else. That list is served in the order
    // of work, and its steps are a run of the machine that obeys the laws of every run.
    ensures written { OnOk result (IfSome (R.remaining reader.old) (λ input. (text : List ℕ) × IsWritten input text
        × Appends (W.contents writer.old) (W.contents writer.new) text)) }
    // or the lines before the first happening and the fault of the configuration
    ensures refused { result ≡ Err ScriptFault.Conf → IfSome (R.remaining reader.old) (λ input. (text : List ℕ) × IsRefused input text
        × Appends (W.contents writer.old) (W.contents writer.new) text) }
    // whatever it leads to, at most 1,048,576 pieces of 4,096 bytes are read
    ensures most { IsTaken (R.remaining reader.old) (R.remaining reader.new) }
    // each read before the end gives a byte
    ensures long { result ≡ Err ScriptFault.TurnsUsed → IfSome (R.remaining reader.old) (λ input. 1048576 ≤ length input) }
    // nothing is written before all is read and played
    ensures untouched { (result ≡ Err ScriptFault.Read) ⊎ (result ≡ Err ScriptFault.TurnsUsed) ⊎ (result ≡ Err ScriptFault.NoMemory) → writer.new ≡ writer.old }
{
    let text = read_all(alloc, reader)?;
    let mut transcript = Transcript::new(alloc);
    match play(alloc, text.as_slice(), &mut transcript) {
        Ok(()) => write_out(&transcript, writer),
        Err(ScriptFault::Conf) => {
            write_out(&transcript, writer)?;
            Err(ScriptFault::Conf)
        }
        Err(fault) => Err(fault),
    }
}

/// Writes the whole transcript at once.
fn write_out<W: Write>(transcript: &Transcript, writer: &mut W) -> Result<(), ScriptFault>
    ensures written { OnOk result (Appends (W.contents writer.old) (W.contents writer.new) transcript.now) }
    ensures fault { IfErr result (λ fault. fault ≡ ScriptFault.Write) }
{
    let Ok(()) = writer.write_all(transcript.as_bytes()) else {
        return Err(ScriptFault::Write);
    };
    match writer.flush() {
        Ok(()) => Ok(()),
        Err(_) => Err(ScriptFault::Write),
    }
}

/// Reads all there is.
fn read_all<R: Read>(alloc: Global, reader: &mut R) -> Result<Vec<u8>, ScriptFault>
    ensures all { IfOk result (λ text. IfSome (R.remaining reader.old) (λ input. text.items ≡ input)) }
    ensures long { result ≡ Err ScriptFault.TurnsUsed → IfSome (R.remaining reader.old) (λ input. 1048576 ≤ length input) }
    ensures most { IsTaken (R.remaining reader.old) (R.remaining reader.new) }
    ensures fault { result ≢ Err ScriptFault.Conf }
{
    let mut text = Vec::new(alloc);
    let mut piece = [0u8; MAX_PIECE];
    for _turn in 0..MAX_READS {
        let Ok(count) = reader.read(&mut piece) else {
            return Err(ScriptFault::Read);
        };
        if count == 0 {
            return Ok(text);
        }
        if text.extend_from_slice(&piece[..count]).is_err() {
            return Err(ScriptFault::NoMemory);
        }
    }
    Err(ScriptFault::TurnsUsed)
}
