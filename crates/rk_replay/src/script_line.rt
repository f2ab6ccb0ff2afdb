//! What a line of a script says.
ghost use Rattle.std.specs.Prelude.{◌≡◌, ◌∷◌, IfOk, option_copied};
ghost use Rattle.rk_replay.specs.Text.{fields_of};
ghost use Rattle.rk_replay.specs.Reading.{reading_of, conf_text, told_by, event_of};
ghost use Rattle.rk_replay.specs.Fields.{Gives};

use crate::field::{self, Misread};
use crate::verb;
use rk_names::Moment;
use rk_served::{Bytes, Happening};
use rk_text::{Space, cut_field, skip_space};
use std::alloc::{AllocError, Global};

/// The longest line, its newline not counted.
const MAX_LINE: usize = 262_144;

/// What a line of a script says.
#[derive(Debug, Drop)]
pub enum ScriptLine {
    /// Nothing: it is blank or a comment.
    Blank,
    /// Another line of the configuration, without its newline.
    Conf(Bytes),
    /// For so many seconds a key is negative whose handler did not complete it.
    Negative(u32),
    /// This happens at that moment.
    Happens(Moment, Happening),
    /// It is no line of a script.
    Wrong,
}

impl ScriptLine {
    /// What the line says, without its newline. The only refusal is out of memory.
    ///
    /// It takes time in proportion to the length of the line.
    pub fn read(alloc: Global, line: &[u8]) -> Result<ScriptLine, AllocError>
        ensures { IfOk result (λ r. r ≡ reading_of line.now) }
    {
        if line.len() > MAX_LINE {
            return Ok(ScriptLine::Wrong);
        }
        if line.first() == Some(&b'#') {
            return Ok(ScriptLine::Blank);
        }
        if let Some(text) = conf_text(line) {
            return Ok(ScriptLine::Conf(Bytes::from_slice(alloc, text)?));
        }
        match read_fields(alloc, line) {
            Ok(reading) => Ok(reading),
            Err(Misread::NotALine) => Ok(ScriptLine::Wrong),
            Err(Misread::NoMemory) => Err(AllocError),
        }
    }
}

/// The text after `conf` and one space, if it is such a line. It takes no memory.
fn conf_text(line: &[u8]) -> Option<&[u8]>
    ensures { option_copied result ≡ conf_text line.now }
{
    skip_space(line, Space::Blank).strip_prefix(b"conf ")
}

/// What a line says that is neither too long, nor a comment, nor one of the configuration.
fn read_fields(alloc: Global, line: &[u8]) -> Result<ScriptLine, Misread>
    ensures { Gives (λ r. r) result (told_by (fields_of line.now)) }
{
    let Some((first, rest)) = cut_field(line, Space::Blank) else {
        return Ok(ScriptLine::Blank);
    };
    if first == b"negative".as_slice() {
        let (seconds, rest) = field::seconds(rest)?;
        field::end(rest)?;
        Ok(ScriptLine::Negative(seconds))
    } else {
        read_event(alloc, first, rest)
    }
}

/// A moment, and what happens then: the first field, and the fields after it.
fn read_event(alloc: Global, first: &[u8], rest: &[u8]) -> Result<ScriptLine, Misread>
    ensures { Gives (λ r. r) result (event_of (first.now ∷ fields_of rest.now)) }
{
    let now = field::moment(first)?;
    let (word, rest) = field::word(rest)?;
    let happening = verb::happening(alloc, word, rest)?;
    Ok(ScriptLine::Happens(Moment(now), happening))
}
